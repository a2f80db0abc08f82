//! Standard functions and function blocks (2.5.1.5, 2.5.2.3).
ghost use Rattle.std.specs.List.{find, flat_map};
ghost use Rattle.std.specs.Prelude.{◌≡◌, ◌++◌, codes, map, option_copied};
ghost use Rattle.st_values.specs.Types.{name_of};
ghost use Rattle.st_types.specs.Parts.{is_target, rest_after};
ghost use Rattle.st_types.specs.Standard.{conversion, entry, entry_named, standard_of};

use st_values::Elem;

/// A standard function other than a conversion (tables 23 to 28).
#[derive(Clone, Copy, Debug, PartialEq, Eq)]
pub enum StandardFunction {
    Abs,
    Min,
    Max,
    Limit,
    Sel,
    Shl,
    Shr,
    Rol,
    Ror,
}

/// A standard function block (tables 34 to 37).
#[derive(Clone, Copy, Debug, PartialEq, Eq)]
pub enum StandardBlock {
    RTrig,
    FTrig,
    Sr,
    Rs,
    Ctu,
    Ctd,
    Ton,
    Tof,
    Tp,
}

/// What a standard name stands for.
#[derive(Clone, Copy, Debug, PartialEq, Eq)]
pub enum Standard {
    Function(StandardFunction),
    /// `X_TO_Y`: from the first type to the second (2.5.1.5.1).
    Conversion(Elem, Elem),
    Block(StandardBlock),
}

/// The names of the functions and function blocks, in upper case.
static LISTED: [(Standard, &[u8]); 18] = [
    (Standard::Function(StandardFunction::Abs), b"ABS"),
    (Standard::Function(StandardFunction::Min), b"MIN"),
    (Standard::Function(StandardFunction::Max), b"MAX"),
    (Standard::Function(StandardFunction::Limit), b"LIMIT"),
    (Standard::Function(StandardFunction::Sel), b"SEL"),
    (Standard::Function(StandardFunction::Shl), b"SHL"),
    (Standard::Function(StandardFunction::Shr), b"SHR"),
    (Standard::Function(StandardFunction::Rol), b"ROL"),
    (Standard::Function(StandardFunction::Ror), b"ROR"),
    (Standard::Block(StandardBlock::RTrig), b"R_TRIG"),
    (Standard::Block(StandardBlock::FTrig), b"F_TRIG"),
    (Standard::Block(StandardBlock::Sr), b"SR"),
    (Standard::Block(StandardBlock::Rs), b"RS"),
    (Standard::Block(StandardBlock::Ctu), b"CTU"),
    (Standard::Block(StandardBlock::Ctd), b"CTD"),
    (Standard::Block(StandardBlock::Ton), b"TON"),
    (Standard::Block(StandardBlock::Tof), b"TOF"),
    (Standard::Block(StandardBlock::Tp), b"TP"),
];

/// The types that convert into one another: all but TIME.
const CONVERTING: [Elem; 13] = [
    Elem::Bool,
    Elem::Sint,
    Elem::Int,
    Elem::Dint,
    Elem::Lint,
    Elem::Usint,
    Elem::Uint,
    Elem::Udint,
    Elem::Ulint,
    Elem::Byte,
    Elem::Word,
    Elem::Dword,
    Elem::Lword,
];

/// What a standard name stands for. It takes no memory.
pub fn standard_of(name: &[u8]) -> Option<Standard>
    ensures { result ≡ standard_of name.now }
{
    match listed(&LISTED, name) {
        Some(standard) => Some(standard),
        None => conversion_among(&CONVERTING, name),
    }
}

/// What the first row with this name stands for.
fn listed(rows: &[(Standard, &[u8])], name: &[u8]) -> Option<Standard>
    ensures { result ≡ entry_named (map (λ row. entry row.1.now row.0) rows.now) name.now }
{
    let row = rows.iter().find(|row| name.eq_ignore_ascii_case(row.1))?;
    Some(row.0)
}

/// The conversion of this name, from one of these types to another.
fn conversion_among(types: &[Elem], name: &[u8]) -> Option<Standard>
    ensures { result ≡ entry_named (flat_map (λ x. flat_map (conversion x) types.now) types.now)
        name.now }
{
    for from in types {
        let found = conversion_from(*from, types, name);
        if found.is_some() {
            return found;
        }
    }
    None
}

/// The conversion of this name, from this type to another one of these.
fn conversion_from(from: Elem, types: &[Elem], name: &[u8]) -> Option<Standard>
    ensures { result ≡ entry_named (flat_map (conversion from) types.now) name.now }
{
    let to = target_among(from, types, after_to(from, name)?)?;
    Some(Standard::Conversion(from, to))
}

/// The type of this name to which another one converts.
fn target_among(from: Elem, types: &[Elem], name: &[u8]) -> Option<Elem>
    ensures { result ≡ find (is_target from name.now) types.now }
{
    types
        .iter()
        .copied()
        .find(|to| !from.is(*to) && name.eq_ignore_ascii_case(to.name()))
}

/// What stands after `X_TO_` of this type.
fn after_to<'a>(from: Elem, name: &'a [u8]) -> Option<&'a [u8]>
    ensures { option_copied result ≡ rest_after (name_of from ++ codes "_TO_") name.now }
{
    after_word(b"_TO_", after_word(from.name(), name)?)
}

/// What stands after a word that a text begins with, ignoring case.
fn after_word<'a>(word: &[u8], text: &'a [u8]) -> Option<&'a [u8]>
    ensures { option_copied result ≡ rest_after word.now text.now }
{
    if text.len() < word.len() {
        return None;
    }
    let (start, rest) = text.split_at(word.len());
    if start.eq_ignore_ascii_case(word) {
        Some(rest)
    } else {
        None
    }
}
