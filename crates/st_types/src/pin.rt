//! The standard function blocks: their inputs and outputs, and what they keep besides (2.5.2.3, tables 34 to 37).
ghost use Rattle.std.specs.Prelude.{◌≡◌, map};
ghost use Rattle.std.specs.Option.{option_map};
ghost use Rattle.std.specs.List.{find};
ghost use Rattle.st_values.specs.Words.{is_word};
ghost use Rattle.st_types.specs.Standard.{block_name, kept_by, pin_named, pins_of, row, row_of};
ghost use Rattle.st_types.specs.Pins.{seen, seen_block, seen_kept};

use crate::base::Purpose;
use crate::standard::StandardBlock;
use st_values::Elem;

/// An input or output of a standard function block.
#[derive(Clone, Copy)]
pub struct Pin {
    /// Its name, in upper case.
    pub name: &'static [u8],
    /// Whether it is an input or an output.
    pub purpose: Purpose,
    pub elem: Elem,
}

/// Of R_TRIG and F_TRIG.
static EDGE_PINS: [Pin; 2] = [
    Pin {
        name: b"CLK",
        purpose: Purpose::Input,
        elem: Elem::Bool,
    },
    Pin {
        name: b"Q",
        purpose: Purpose::Output,
        elem: Elem::Bool,
    },
];

/// Of SR.
static SR_PINS: [Pin; 3] = [
    Pin {
        name: b"S1",
        purpose: Purpose::Input,
        elem: Elem::Bool,
    },
    Pin {
        name: b"R",
        purpose: Purpose::Input,
        elem: Elem::Bool,
    },
    Pin {
        name: b"Q1",
        purpose: Purpose::Output,
        elem: Elem::Bool,
    },
];

/// Of RS.
static RS_PINS: [Pin; 3] = [
    Pin {
        name: b"S",
        purpose: Purpose::Input,
        elem: Elem::Bool,
    },
    Pin {
        name: b"R1",
        purpose: Purpose::Input,
        elem: Elem::Bool,
    },
    Pin {
        name: b"Q1",
        purpose: Purpose::Output,
        elem: Elem::Bool,
    },
];

/// Of CTU.
static CTU_PINS: [Pin; 5] = [
    Pin {
        name: b"CU",
        purpose: Purpose::Input,
        elem: Elem::Bool,
    },
    Pin {
        name: b"R",
        purpose: Purpose::Input,
        elem: Elem::Bool,
    },
    Pin {
        name: b"PV",
        purpose: Purpose::Input,
        elem: Elem::Int,
    },
    Pin {
        name: b"Q",
        purpose: Purpose::Output,
        elem: Elem::Bool,
    },
    Pin {
        name: b"CV",
        purpose: Purpose::Output,
        elem: Elem::Int,
    },
];

/// Of CTD.
static CTD_PINS: [Pin; 5] = [
    Pin {
        name: b"CD",
        purpose: Purpose::Input,
        elem: Elem::Bool,
    },
    Pin {
        name: b"LD",
        purpose: Purpose::Input,
        elem: Elem::Bool,
    },
    Pin {
        name: b"PV",
        purpose: Purpose::Input,
        elem: Elem::Int,
    },
    Pin {
        name: b"Q",
        purpose: Purpose::Output,
        elem: Elem::Bool,
    },
    Pin {
        name: b"CV",
        purpose: Purpose::Output,
        elem: Elem::Int,
    },
];

/// Of TON, TOF and TP.
static TIMER_PINS: [Pin; 4] = [
    Pin {
        name: b"IN",
        purpose: Purpose::Input,
        elem: Elem::Bool,
    },
    Pin {
        name: b"PT",
        purpose: Purpose::Input,
        elem: Elem::Time,
    },
    Pin {
        name: b"Q",
        purpose: Purpose::Output,
        elem: Elem::Bool,
    },
    Pin {
        name: b"ET",
        purpose: Purpose::Output,
        elem: Elem::Time,
    },
];

/// What a standard function block keeps behind its inputs and outputs.
#[derive(Clone, Copy)]
pub struct Kept {
    /// Its name, in upper case.
    pub name: &'static [u8],
    pub elem: Elem,
}

/// Of SR and RS, which keep nothing besides.
static NOTHING_KEPT: [Kept; 0] = [];

/// What an edge is recognized by.
static EDGE_MEMORY: [Kept; 1] = [Kept {
    name: b"M",
    elem: Elem::Bool,
}];

/// Of TON: whether it runs, and since when.
static TON_TIMING: [Kept; 2] = [
    Kept {
        name: b"RUN",
        elem: Elem::Bool,
    },
    Kept {
        name: b"START",
        elem: Elem::Time,
    },
];

/// Of TOF and TP: what an edge is recognized by, whether they run, and since when.
static EDGE_TIMING: [Kept; 3] = [
    Kept {
        name: b"M",
        elem: Elem::Bool,
    },
    Kept {
        name: b"RUN",
        elem: Elem::Bool,
    },
    Kept {
        name: b"START",
        elem: Elem::Time,
    },
];

/// A standard function block.
#[derive(Clone, Copy)]
struct BlockRow {
    /// Its name, in upper case.
    name: &'static [u8],
    pins: &'static [Pin],
    kept: &'static [Kept],
}

/// Makes a row.
fn row(name: &'static [u8], pins: &'static [Pin], kept: &'static [Kept]) -> BlockRow
    ensures { seen_block result ≡ row name.now (map seen pins.now) (map seen_kept kept.now) }
{
    BlockRow { name, pins, kept }
}

impl StandardBlock {
    /// Its row.
    fn row(self) -> BlockRow
        ensures { seen_block result ≡ row_of self }
    {
        match self {
            StandardBlock::RTrig => row(b"R_TRIG", &EDGE_PINS, &EDGE_MEMORY),
            StandardBlock::FTrig => row(b"F_TRIG", &EDGE_PINS, &EDGE_MEMORY),
            StandardBlock::Sr => row(b"SR", &SR_PINS, &NOTHING_KEPT),
            StandardBlock::Rs => row(b"RS", &RS_PINS, &NOTHING_KEPT),
            StandardBlock::Ctu => row(b"CTU", &CTU_PINS, &EDGE_MEMORY),
            StandardBlock::Ctd => row(b"CTD", &CTD_PINS, &EDGE_MEMORY),
            StandardBlock::Ton => row(b"TON", &TIMER_PINS, &TON_TIMING),
            StandardBlock::Tof => row(b"TOF", &TIMER_PINS, &EDGE_TIMING),
            StandardBlock::Tp => row(b"TP", &TIMER_PINS, &EDGE_TIMING),
        }
    }

    /// Its name, in upper case.
    pub fn name(self) -> &'static [u8]
        ensures { result.now ≡ block_name self }
    {
        self.row().name
    }

    /// Its inputs and outputs, in order.
    pub fn pins(self) -> &'static [Pin]
        ensures { map seen result.now ≡ pins_of self }
    {
        self.row().pins
    }

    /// What it keeps behind them, in order.
    pub fn kept(self) -> &'static [Kept]
        ensures { map seen_kept result.now ≡ kept_by self }
    {
        self.row().kept
    }

    /// Its input or output of this name, ignoring case.
    pub fn pin(self, name: &[u8]) -> Option<Pin>
        ensures { option_map seen result ≡ pin_named (pins_of self) name.now }
    {
        first_named(self.pins(), name)
    }
}

/// The first of these pins with this name.
fn first_named(pins: &[Pin], name: &[u8]) -> Option<Pin>
    ensures { result ≡ find (λ pin. is_word pin.name.now name.now) pins.now }
{
    pins.iter()
        .copied()
        .find(|pin| name.eq_ignore_ascii_case(pin.name))
}
