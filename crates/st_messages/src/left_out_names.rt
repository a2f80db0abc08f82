//! What the standard has and this profile leaves out, by name, and the names of what is standard.
ghost use Rattle.std.specs.Prelude.{◌≡◌, map, option_map};
ghost use Rattle.st_messages.specs.Replacements.{function_left_out, help_in, type_left_out};

/// A name that this profile leaves out, and what to use.
type Row = (&'static [u8], &'static str);

/// Types of the standard that this profile leaves out.
static TYPES: [Row; 14] = [
    (
        b"REAL",
        "count in smaller units in a DINT, as tenths: see \"Scaled integers\" in docs/COMING-FROM.md",
    ),
    (
        b"LREAL",
        "count in smaller units in a LINT, as thousandths: see \"Scaled integers\" in docs/COMING-FROM.md",
    ),
    (b"STRING", "use numbers for what a text would say"),
    (b"WSTRING", "use numbers for what a text would say"),
    (b"CHAR", "use a USINT"),
    (
        b"DATE",
        "use TIME for durations; a program knows no calendar",
    ),
    (
        b"TIME_OF_DAY",
        "use TIME for durations; a program knows no calendar",
    ),
    (
        b"TOD",
        "use TIME for durations; a program knows no calendar",
    ),
    (
        b"DATE_AND_TIME",
        "use TIME for durations; a program knows no calendar",
    ),
    (b"DT", "use TIME for durations; a program knows no calendar"),
    (b"LTIME", "use TIME, which counts milliseconds"),
    (
        b"CTUD",
        "use a CTU and a CTD, or count in a function block of your own",
    ),
    (b"SEMA", "use an SR or an RS"),
    (
        b"RTC",
        "a program knows no calendar: each scan is given its moment",
    ),
];

/// Functions of the standard that this profile leaves out.
static FUNCTIONS: [Row; 18] = [
    (
        b"SQRT",
        "there is no REAL: see \"Scaled integers\" in docs/COMING-FROM.md",
    ),
    (
        b"TRUNC",
        "there is no REAL: see \"Scaled integers\" in docs/COMING-FROM.md",
    ),
    (
        b"ROUND",
        "there is no REAL: see \"Scaled integers\" in docs/COMING-FROM.md",
    ),
    (b"EXPT", "multiply in a loop"),
    (
        b"SIN",
        "there is no REAL: see \"Scaled integers\" in docs/COMING-FROM.md",
    ),
    (
        b"COS",
        "there is no REAL: see \"Scaled integers\" in docs/COMING-FROM.md",
    ),
    (b"MUX", "use CASE"),
    (b"MOVE", "assign by `:=`"),
    (b"ADD", "write `A + B`"),
    (b"SUB", "write `A - B`"),
    (b"MUL", "write `A * B`"),
    (b"DIV", "write `A / B`"),
    (b"GT", "write `A > B`"),
    (b"GE", "write `A >= B`"),
    (b"EQ", "write `A = B`"),
    (b"LE", "write `A <= B`"),
    (b"LT", "write `A < B`"),
    (b"LEN", "character strings aren't in this profile"),
];

/// What to use for a type of the standard that this profile leaves out.
#[tactic(auto, unfolding(crate::specs::Replacements::type_left_out))]
pub fn type_left_out(name: &[u8]) -> Option<&'static str>
    ensures { option_map (λ help. help.now) result ≡ type_left_out name.now }
{
    help_in(&TYPES, name)
}

/// What to use for a function of the standard that this profile leaves out.
#[tactic(auto, unfolding(crate::specs::Replacements::function_left_out))]
pub fn function_left_out(name: &[u8]) -> Option<&'static str>
    ensures { option_map (λ help. help.now) result ≡ function_left_out name.now }
{
    help_in(&FUNCTIONS, name)
}

/// What the row of this name says: the first one, ignoring case.
fn help_in(rows: &[Row], name: &[u8]) -> Option<&'static str>
    ensures { option_map (λ help. help.now) result ≡
        help_in (map (λ row. (row.0.now, row.1.now)) rows.now) name.now }
{
    let row = rows.iter().find(|row| name.eq_ignore_ascii_case(row.0))?;
    Some(row.1)
}

/// The names of standard function blocks and of elementary types.
pub static TYPE_NAMES: [&[u8]; 23] = [
    b"R_TRIG", b"F_TRIG", b"SR", b"RS", b"CTU", b"CTD", b"TON", b"TOF", b"TP", b"BOOL", b"SINT",
    b"INT", b"DINT", b"LINT", b"USINT", b"UINT", b"UDINT", b"ULINT", b"BYTE", b"WORD", b"DWORD",
    b"LWORD", b"TIME",
];

/// The names of standard functions.
pub static FUNCTION_NAMES: [&[u8]; 9] = [
    b"ABS", b"MIN", b"MAX", b"LIMIT", b"SEL", b"SHL", b"SHR", b"ROL", b"ROR",
];
