//! Texts that are checked: they are in the grammar, and break no rule.
ghost use Rattle.std.specs.Prelude.{◌≡◌, ◌<◌, ◌^◌, Err, IfErr, IfOk, List, MatchResult, Ok, length};
ghost use Rattle.st_check.specs.Programs.{text_of};
ghost use Rattle.st_control.specs.Texts.{IsCheckedAs, IsProgramOf, TextsGiveOneList};
ghost use Rattle.st_tree.specs.declared.tree.unit.Unit.{Unit as ProgramUnit};

use crate::refusal::Refusal;
use st_check::{Program, check};
use st_syntax::parse;
use std::alloc::Global;

/// Reads a text and checks it as the program of the name `main`, ignoring case.
///
/// # Errors
/// S1 where the text has no tokens, S2 where the tokens aren't in the grammar, S3 where more levels are open than may be, and S4
/// line 1 where it has more than 1,048,576 bytes, whatever else holds of it. Else, of the rules that the units break, C1 to C9 at
/// the first token where one is broken, and there the one with the lowest number. C10 line 0 where none is broken, but
/// there is no such program. Each has the line of its token. M where memory ran out.
pub fn check_program(alloc: Global, text: &[u8], main: &[u8]) -> Result<Program, Refusal>
    ensures ok { IfOk result (λ program. IsProgramOf text.now main.now program) }
    ensures refused { IfErr result (λ refusal. IsCheckedAs text.now main.now (Err refusal)) }
    ensures long { 2 ^ 20 < length text.now → result ≡ Err (Refusal.S 4 1) }

    // A text that is accepted is answered with its units, unless memory runs out.
    ensures only { (units : List ProgramUnit) → IsCheckedAs text.now main.now (Ok units)
        → MatchResult result (λ program. text_of program ≡ units) (λ refusal. refusal ≡ Refusal.M) }
{
    let units = parse(alloc, text)?;
    Ok(check(alloc, units, main)?)
}

/// All programs that a text is checked as have the same units, the same main program and the same leaves. A law, with nothing
/// to run.
pub fn texts_give_one_list()
    ensures { TextsGiveOneList }
{}
