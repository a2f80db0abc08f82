//! Prints the page `docs/REFUSALS.md`.
//!
//! The gate wants this page of it, as the file `stdout` beside the sources, and compares that file with the page. So the page and
//! the program's messages can't part.
#![tactic(auto)]

use st_explain::explain_text;
use st_faults::{Cause, EXAMPLES, Example, Explanation, Family, Rule, explanation_of};
use std::io;

/// What stands before the message that is shown.
const HEAD: &str = "\
# Refusals and faults

Scripts read a number, as in `refused C4 line 3`; this page says what each number means and what to do about it. Where
`./stc check`, `./stc layout` or `./stc run` refuses a text, standard error has a message beside that line: the file, the line and the
column, in characters, as editors find them; what is wrong at this very place; the line with a caret; and what to do:
";

/// What stands between that message and the families.
const RULES: &str = "\
Of a long line some 160 bytes around the fault are shown. UTF-8 and tabs stand as they are, control characters and what isn't UTF-8 by
their numbers, as `\\x1b`. Where no line is at fault, as for C10, the message names the first place of the text. Where a text is accepted,
nothing is written there.

`refused M` has no number: there was no memory for what was asked, and nothing was changed.

The main program of each example is called `Main`, and its file `tank.st`.
";

/// A family's heading, with what it holds.
fn heading(family: Family) -> &'static str {
    match family {
        Family::Syntax => "S: the text isn't in the grammar",
        Family::Check => "C: the text breaks a rule of the language",
        Family::Operator => "O: a line of a session can't be done",
        Family::Fault => "F: a scan ended early",
    }
}

fn main(rt: HostRuntime) -> io::Result<()> {
    print!(&rt; "{HEAD}")?;
    print_message(&rt)?;
    print!(&rt; "{RULES}")?;
    for family in [
        Family::Syntax,
        Family::Check,
        Family::Operator,
        Family::Fault,
    ] {
        print_family(&rt, family)?;
    }
    Ok(())
}

/// Prints the message on a number that is out of range.
fn print_message<R: Print + AllocGlobal>(rt: &R) -> io::Result<()> {
    for example in &EXAMPLES {
        if example.cause == Cause::Rule(Rule::OutOfRange) {
            print_told(rt, example)?;
        }
    }
    println!(rt)
}

/// Prints the message on an example, as the page shows it literally.
fn print_told<R: Print + AllocGlobal>(rt: &R, example: &Example) -> io::Result<()> {
    println!(rt)?;
    let told = explain_text(rt.alloc(), "tank.st", example.text.as_bytes(), b"Main")?;
    for line in told.as_str().lines() {
        println!(rt; "    {line}")?;
    }
    Ok(())
}

/// Prints what all numbers of a family mean.
fn print_family<R: Print + AllocGlobal>(rt: &R, family: Family) -> io::Result<()> {
    println!(rt; "\n## {}", heading(family))?;
    for number in 1..=u8::MAX {
        if let Some(explanation) = explanation_of(family, number) {
            print_explanation(rt, family, explanation)?;
        }
    }
    Ok(())
}

/// Prints what a number means, and its example.
fn print_explanation<R: Print + AllocGlobal>(
    rt: &R,
    family: Family,
    explanation: Explanation,
) -> io::Result<()> {
    let number = explanation.number;
    println!(rt; "\n### {}{number}\n", family.letter())?;
    println!(rt; "{}\n", explanation.sentence)?;
    println!(rt; "To do: {}", explanation.advice)?;
    for example in &EXAMPLES {
        if example.cause.family() == family && example.cause.number() == number {
            print_example(rt, example)?;
        }
    }
    Ok(())
}

/// Prints an example, and what is answered to it.
fn print_example<R: Print + AllocGlobal>(rt: &R, example: &Example) -> io::Result<()> {
    println!(rt; "\nExample:\n")?;
    for line in example.text.lines() {
        println!(rt; "    {line}")?;
    }
    println!(rt;
        "\nAnswer: `refused {}{} line {}`",
        example.cause.family().letter(),
        example.cause.number(),
        example.line
    )?;
    println!(rt; "\nMessage:")?;
    print_told(rt, example)
}
