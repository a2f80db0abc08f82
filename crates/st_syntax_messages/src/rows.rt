//! The table of what is said: a row for each cause.
ghost use Rattle.st_messages.specs.Rows.{slot_texts};
ghost use Rattle.st_messages.specs.Sayings.{AreWordsFor, Says};
ghost use Rattle.std.specs.Prelude.{◌<◌, ◌≡◌, IfOk, Some, slice_get};
ghost use Rattle.st_syntax_messages.specs.Rows.{causes, rows};

use crate::cause::Cause;
use st_messages::{CauseRow, Saying, Slot, Words, saying_at, words_of};
use std::alloc::{AllocError, Global};

/// The rows, in the order of the causes.
static ROWS: [CauseRow<Cause>; 52] = [
    (
        Cause::OpenComment,
        "this comment isn't closed",
        "help: close it by `*)`; comments don't nest, so the first `*)` ends one",
    ),
    (
        Cause::FirstMark,
        "the text begins with a byte order mark",
        "help: save the text as UTF-8 without a byte order mark (BOM)",
    ),
    (
        Cause::LaterMark,
        "a byte order mark stands here",
        "help: save the text as UTF-8 without a byte order mark (BOM)",
    ),
    (
        Cause::BasedNumber,
        "① is no number",
        "help: write `2#`, `8#` or `16#` and digits of that base, as `16#FF`",
    ),
    (
        Cause::PlainNumber,
        "① is no number",
        "help: write digits alone, where a single `_` may stand between two; a name begins with a letter",
    ),
    (
        Cause::BadName,
        "① is no name: two `_` stand in a row, or one at the end",
        "help: write a single `_` between letters or digits",
    ),
    (
        Cause::BadDuration,
        "① is no duration",
        "help: write numbers with units from large to small, as `T#1d2h3m4s5ms` or `T#1.5s`, that come to whole milliseconds",
    ),
    (
        Cause::LeftOutLiteral,
        "① is of a type that isn't in this profile",
        "help: use integers, bit strings, BOOL and TIME: see \"Scaled integers\" in docs/COMING-FROM.md",
    ),
    (
        Cause::BadLiteral,
        "① is no value of a type",
        "help: write a type, `#` and a number, as `INT#-5`, `WORD#16#FF` or `BOOL#TRUE`",
    ),
    (
        Cause::CharacterString,
        "① begins a character string, and this profile has none",
        "help: use numbers for what a text would say",
    ),
    (
        Cause::Pragma,
        "① is for pragmas, and this profile has none",
        "help: leave it out",
    ),
    (
        Cause::Exclamation,
        "① is no symbol of the language",
        "help: write `NOT A`, and `A <> B` for what isn't equal",
    ),
    (
        Cause::Bar,
        "① is no symbol of the language",
        "help: write `A OR B`",
    ),
    (
        Cause::Tilde,
        "① is no symbol of the language",
        "help: write `NOT A`",
    ),
    (
        Cause::Caret,
        "① is no symbol of the language",
        "help: write `A XOR B`; there are no pointers here",
    ),
    (
        Cause::QuestionMark,
        "① is no symbol of the language",
        "help: write `SEL(Condition, IfFalse, IfTrue)`",
    ),
    (
        Cause::Hash,
        "① stands only in literals",
        "help: write a type or a base before it, as `INT#5` or `16#FF`",
    ),
    (
        Cause::Dollar,
        "① can't stand in a text",
        "help: what a block or a chart keeps under a name with `$` is only shown in sessions",
    ),
    (
        Cause::OtherSign,
        "① is no symbol of the language",
        "help: leave it out",
    ),
    (
        Cause::Accented,
        "① is no character of the language",
        "help: write names in letters without accents; other characters stand in comments alone",
    ),
    (
        Cause::OtherCharacter,
        "① is no character of the language",
        "help: leave it out",
    ),
    (Cause::Nothing, "nothing stands here", ""),
    (
        Cause::LineComment,
        "`//` begins no comment in this edition of the standard",
        "help: write `(* .. *)`",
    ),
    (
        Cause::BlockComment,
        "`/*` begins no comment in this edition of the standard",
        "help: write `(* .. *)`",
    ),
    (
        Cause::Power,
        "`**` isn't in this profile: there are no powers",
        "help: multiply, as `A * A`",
    ),
    (
        Cause::DoubleAmpersand,
        "`&&` is no symbol of the language",
        "help: write `A AND B`, or `A & B`",
    ),
    (
        Cause::Percent,
        "`%` begins an address, and this profile has none",
        "help: inputs of the process are the VAR_INPUT of the program, outputs its VAR_OUTPUT; a remainder is `A MOD B`",
    ),
    (
        Cause::Fraction,
        "a number with a fraction is a REAL, and this profile has none",
        "help: count in smaller units, as tenths: see \"Scaled integers\" in docs/COMING-FROM.md",
    ),
    (
        Cause::Enumeration,
        "enumerations aren't in this profile",
        "help: use an INT, and a VAR CONSTANT for each of its values",
    ),
    (
        Cause::InitialStructure,
        "initial values of structures and instances aren't in this profile",
        "help: give each member its initial value in the STRUCT, or assign in the program",
    ),
    (
        Cause::Subrange,
        "subranges aren't in this profile",
        "help: take the type alone, and LIMIT where values are assigned",
    ),
    (
        Cause::StringLength,
        "character strings aren't in this profile",
        "help: use numbers for what a text would say",
    ),
    (
        Cause::EqualInitial,
        "an initial value is written behind `:=`",
        "help: write `:=` in place of `=`",
    ),
    (
        Cause::DoubleEqual,
        "`==` is no symbol of the language",
        "help: write `=` to compare",
    ),
    (
        Cause::Comparison,
        "`=` compares, and a statement stands here",
        "help: write `:=` to assign",
    ),
    (
        Cause::Assignment,
        "`:=` assigns, and nothing can be assigned here",
        "help: write `=` to compare",
    ),
    (
        Cause::Counting,
        "a variable is assigned by `:=` alone",
        "help: write `A := A + 1;`",
    ),
    (
        Cause::Outside,
        "① stands outside of all programs, functions and types",
        "help: a text is TYPE, FUNCTION, FUNCTION_BLOCK and PROGRAM units, one behind the other",
    ),
    (Cause::Unopened, "① closes nothing that is open here", ""),
    (
        Cause::Depth,
        "① opens a 65th level: no more than 64 parentheses, brackets and statements may be open inside one another",
        "help: work out a part of it in a statement before this one, or move it into a function",
    ),
    (
        Cause::TooLong,
        "the text is longer than 1,048,576 bytes",
        "help: shorten it; blanks and comments count too",
    ),
    (
        Cause::Statement,
        "a statement stands among declarations: the ④ of line ⑤ isn't closed",
        "help: close it by `⑥`",
    ),
    (
        Cause::ReservedName,
        "① is a reserved word, and no name",
        "help: choose another name, as `⑨1`",
    ),
    (
        Cause::Semicolon,
        "a `;` is missing before ①",
        "help: put it behind ② in line ③",
    ),
    (
        Cause::Unclosed,
        "① stands here, but the ④ of line ⑤ isn't closed",
        "help: close it by `⑥`",
    ),
    (
        Cause::UnclosedElseIf,
        "① stands here, but the ④ of line ⑤ isn't closed",
        "help: write `ELSIF` for the `ELSE IF` of line ⑦, or close it by `⑥`",
    ),
    (Cause::Elsewhere, "① can't stand here, behind ②", ""),
    (
        Cause::ElsewhereKnown,
        "① can't stand here, behind ②",
        "note: here could stand: ⑧",
    ),
    (
        Cause::EndUnclosed,
        "the text ends here, and the ④ of line ⑤ isn't closed",
        "help: close it by `⑥`",
    ),
    (
        Cause::EndElseIf,
        "the text ends here, and the ④ of line ⑤ isn't closed",
        "help: write `ELSIF` for the `ELSE IF` of line ⑦, or close it by `⑥`",
    ),
    (Cause::EndEarly, "the text ends here", ""),
    (
        Cause::NoToken,
        "no word, number or symbol of the language begins here",
        "",
    ),
];

/// The number of the row of a cause.
fn row_number(cause: Cause) -> usize
    ensures within { result < 52 }
    ensures own { slice_get causes result ≡ Some cause }
{
    cause as usize
}

/// What the row of a cause says.
fn saying_of(cause: Cause) -> Saying
    ensures { Says rows cause result }
{
    saying_at(&ROWS, row_number(cause))
}

/// What is said of a cause with these slots, in the words of its row.
pub fn words_for(alloc: Global, cause: Cause, slots: &[Slot<'_>]) -> Result<Words, AllocError>
    ensures { IfOk result (AreWordsFor rows cause (slot_texts slots.now)) }
{
    words_of(alloc, saying_of(cause), slots)
}
