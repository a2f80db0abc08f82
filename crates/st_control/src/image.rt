//! Reading a text as the program of a controller.
ghost use Rattle.std.specs.Prelude.{◌≡◌, ◌<◌, ◌^◌, Err, IfErr, IfOk, List, MatchResult, Ok, length};
ghost use Rattle.st_check.specs.Programs.{text_of};
ghost use Rattle.st_control.specs.Texts.{IsCheckedAs, IsProgramOf};
ghost use Rattle.st_tree.specs.declared.tree.unit.Unit.{Unit as ProgramUnit};

use crate::check::check_program;
use crate::refusal::Refusal;
use st_compile::{Image, compile};
use std::alloc::Global;

/// Reads a text, checks it as the program of the name `main`, ignoring case, and compiles it.
///
/// # Errors
/// As `check_program` refuses it, and M where memory ran out.
pub fn load_image(alloc: Global, text: &[u8], main: &[u8]) -> Result<Image, Refusal>
    ensures ok { IfOk result (λ image. IsProgramOf text.now main.now image) }
    ensures refused { IfErr result (λ refusal. IsCheckedAs text.now main.now (Err refusal)) }
    ensures long { 2 ^ 20 < length text.now → result ≡ Err (Refusal.S 4 1) }

    // A text that is accepted is an image of its units, unless memory runs out.
    ensures only { (units : List ProgramUnit) → IsCheckedAs text.now main.now (Ok units)
        → MatchResult result (λ image. text_of image ≡ units) (λ refusal. refusal ≡ Refusal.M) }
{
    let program = check_program(alloc, text, main)?;
    Ok(compile(alloc, program)?)
}
