//! Words and symbols that other editions of the standard and other languages have, and reserved words that this profile leaves out.
ghost use Rattle.std.specs.Prelude.{◌≡◌, map, option_map};
ghost use Rattle.st_messages.specs.Replacements.{left_out, other_word, row_of};

/// A word in upper case, what is wrong with it, and what to do.
pub type Row = (&'static [u8], &'static str, &'static str);

/// Reserved words that stand in no rule of the grammar.
static LEFT_OUT: [Row; 15] = [
    (
        b"AT",
        "① gives an address, and this profile has none",
        "help: inputs of the process are the VAR_INPUT of the program, outputs its VAR_OUTPUT; a host ties them to addresses",
    ),
    (
        b"VAR_GLOBAL",
        "① isn't in this profile",
        "help: declare the variable in the program, and hand it on by VAR_INPUT and VAR_OUTPUT",
    ),
    (
        b"VAR_EXTERNAL",
        "① isn't in this profile",
        "help: there are no globals: hand the variable on by VAR_INPUT and VAR_OUTPUT",
    ),
    (
        b"VAR_ACCESS",
        "① isn't in this profile",
        "help: an operator reaches each variable by its path, as `Main.Level`",
    ),
    (
        b"VAR_IN_OUT",
        "① isn't in this profile",
        "help: take the value by VAR_INPUT and give it back by VAR_OUTPUT: `B(X := A, Y => A);`",
    ),
    (
        b"VAR_TEMP",
        "① isn't in this profile",
        "help: declare it in VAR; in a function each VAR is fresh in every call",
    ),
    (
        b"CONFIGURATION",
        "① isn't in this profile",
        "help: leave it out: the program that runs is named by `--program`",
    ),
    (
        b"END_CONFIGURATION",
        "① isn't in this profile",
        "help: leave it out: the program that runs is named by `--program`",
    ),
    (
        b"RESOURCE",
        "① isn't in this profile",
        "help: leave it out: the program that runs is named by `--program`",
    ),
    (
        b"END_RESOURCE",
        "① isn't in this profile",
        "help: leave it out: the program that runs is named by `--program`",
    ),
    (
        b"TASK",
        "① isn't in this profile",
        "help: leave it out: each `scan` of a session runs the program once",
    ),
    (
        b"R_EDGE",
        "① isn't in this profile",
        "help: declare an R_TRIG and invoke it: `Edge(CLK := Go);`, then `Edge.Q`",
    ),
    (
        b"F_EDGE",
        "① isn't in this profile",
        "help: declare an F_TRIG and invoke it: `Edge(CLK := Go);`, then `Edge.Q`",
    ),
    (
        b"EN",
        "① isn't in this profile",
        "help: put the call into an IF",
    ),
    (
        b"ENO",
        "① isn't in this profile",
        "help: put the call into an IF",
    ),
];

/// Words that are no reserved words here, behind which a text mostly can't go on.
static OTHERS: [Row; 20] = [
    (
        b"ELSEIF",
        "① is no word of the language",
        "help: write `ELSIF`",
    ),
    (
        b"ELIF",
        "① is no word of the language",
        "help: write `ELSIF`",
    ),
    (
        b"ENDIF",
        "① is no word of the language",
        "help: write `END_IF;`",
    ),
    (
        b"ENDFOR",
        "① is no word of the language",
        "help: write `END_FOR;`",
    ),
    (
        b"ENDWHILE",
        "① is no word of the language",
        "help: write `END_WHILE;`",
    ),
    (
        b"ENDCASE",
        "① is no word of the language",
        "help: write `END_CASE;`",
    ),
    (
        b"ENDVAR",
        "① is no word of the language",
        "help: write `END_VAR`",
    ),
    (
        b"END",
        "① is no word of the language",
        "help: write `END_IF;`, `END_FOR;`, .. in one word",
    ),
    (
        b"BEGIN",
        "① is no word of the language",
        "help: leave it out: statements follow END_VAR directly",
    ),
    (
        b"SWITCH",
        "① is no word of the language",
        "help: write `CASE Selector OF 1: ..; ELSE ..; END_CASE;`",
    ),
    (
        b"BREAK",
        "① is no word of the language",
        "help: `EXIT;` leaves a loop; a case ends by itself",
    ),
    (
        b"CONTINUE",
        "① isn't in this edition of the standard",
        "help: put what follows into an IF",
    ),
    (
        b"GOTO",
        "① is no word of the language",
        "help: use IF, loops, or a chart",
    ),
    (b"DIV", "① is no word of the language", "help: write `/`"),
    (
        b"AND_THEN",
        "① isn't in this edition of the standard",
        "help: AND takes both operands here: use IF inside IF",
    ),
    (
        b"OR_ELSE",
        "① isn't in this edition of the standard",
        "help: OR takes both operands here: use ELSIF",
    ),
    (
        b"CLASS",
        "① isn't in this edition of the standard",
        "help: use a FUNCTION_BLOCK",
    ),
    (
        b"METHOD",
        "① isn't in this edition of the standard",
        "help: use a FUNCTION or a FUNCTION_BLOCK",
    ),
    (
        b"NAMESPACE",
        "① isn't in this edition of the standard",
        "help: leave it out",
    ),
    (
        b"POINTER",
        "① isn't in this profile",
        "help: use an array and an index",
    ),
];

/// The row of a word in a table: the first one, ignoring case.
fn row_of(rows: &[Row], word: &[u8]) -> Option<Row>
    ensures { option_map (λ row. (row.0.now, row.1.now, row.2.now)) result ≡
        row_of (map (λ row. (row.0.now, row.1.now, row.2.now)) rows.now) word.now }
{
    let row = rows.iter().find(|row| word.eq_ignore_ascii_case(row.0))?;
    Some(*row)
}

/// What is said of a reserved word that this profile leaves out.
#[tactic(auto, unfolding(crate::specs::Replacements::left_out))]
pub fn left_out(word: &[u8]) -> Option<Row>
    ensures { option_map (λ row. (row.0.now, row.1.now, row.2.now)) result ≡ left_out word.now }
{
    row_of(&LEFT_OUT, word)
}

/// What is said of a word of another language or edition.
#[tactic(auto, unfolding(crate::specs::Replacements::other_word))]
pub fn other_word(word: &[u8]) -> Option<Row>
    ensures { option_map (λ row. (row.0.now, row.1.now, row.2.now)) result ≡ other_word word.now }
{
    row_of(&OTHERS, word)
}
