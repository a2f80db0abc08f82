//! The message on a text.
ghost use Rattle.std.specs.Prelude.{◌≡◌, ◌≤◌, [], IfOk, OnOk};
ghost use Rattle.std.specs.String.{string_bytes};
ghost use Rattle.st_explain.specs.Messages.{Explains, ExplainsAll, ExplainsFirst, IsMessage, IsToldAt, TellsFault, TellsFaults, TellsFrom, TellsNoProgram, TellsSyntax, TellsUnits, syntax_line, syntax_number};
ghost use Rattle.st_explain.specs.Places.{code_of};
ghost use Rattle.st_messages.specs.Headings.{IsTold};
ghost use Rattle.st_syntax.specs.Grammar.Texts.{Explains as ExplainsSyntax, IsTextOf};
ghost use Rattle.st_syntax.specs.Stops.{NamesLine};
ghost use Rattle.st_syntax_messages.specs.Stopped.{start_at};
ghost use Rattle.st_tokens.specs.Text.{HasTokens, Tokens};

use crate::all::{MAX_FAULTS, faults_from};
use crate::finding::{Finding, first_finding};
use crate::size::explain_size;
use st_check::text_has_one_answer;
use st_faults::Fault;
use st_leaves::Size;
use st_messages::{Code, Lexed, Place, Words, lexemes, push_diagnosis, push_heading};
use st_rule_messages::{explain_no_program, explain_rule};
use st_scopes::Tables;
use st_syntax::parse;
use st_syntax_messages::{explain_syntax, span_at};
use st_tokens::SyntaxFault;
use st_tree::tree::Unit;
use std::alloc::{AllocError, Global};

/// The whole message on a text of this file that is refused as a program of the name `main`, ignoring case. It is empty where the text is
/// accepted, and on the first fault alone where there are more.
pub fn explain_text(
    alloc: Global,
    file: &str,
    text: &[u8],
    main: &[u8],
) -> Result<String, AllocError>
    ensures { IfOk result (λ m. ExplainsFirst file.now text.now main.now (string_bytes m)) }
{
    explain_most(alloc, file, text, main, 1)
}

/// The messages on all faults of a text of this file, in the order of the text, at most a hundred. The first one is that of
/// `explain_text`. Where the text isn't in the grammar, or is no such program, or one that is too large, it is the only one.
///
/// Each later fault is the first one of the units behind the token of the fault before it.
pub fn explain_all(
    alloc: Global,
    file: &str,
    text: &[u8],
    main: &[u8],
) -> Result<String, AllocError>
    ensures { IfOk result (λ m. ExplainsAll file.now text.now main.now (string_bytes m)) }
{
    explain_most(alloc, file, text, main, MAX_FAULTS)
}

/// What a person is told of a text of this file: of its first fault, or, where all are asked for, of all.
pub fn explain_faults(
    alloc: Global,
    file: &str,
    text: &[u8],
    main: &[u8],
    all: bool,
) -> Result<String, AllocError>
    ensures { IfOk result (λ m. Explains all file.now text.now main.now (string_bytes m)) }
{
    if all {
        explain_all(alloc, file, text, main)
    } else {
        explain_text(alloc, file, text, main)
    }
}

/// The messages on the first faults of a text of this file, no more than `most`.
fn explain_most(
    alloc: Global,
    file: &str,
    text: &[u8],
    main: &[u8],
    most: usize,
) -> Result<String, AllocError>
    requires { 1 ≤ most }
    ensures { IfOk result (λ m. IsMessage
        (TellsFrom most file.now text.now) file.now text.now main.now (string_bytes m)) }
{
    text_has_one_answer();
    match parse(alloc, text) {
        Ok(units) => explain_units(alloc, file, text, &units, main, most),
        Err(fault) => explain_grammar(alloc, file, text, fault),
    }
}

/// The message on a text that isn't in the grammar.
fn explain_grammar(
    alloc: Global,
    file: &str,
    text: &[u8],
    fault: SyntaxFault,
) -> Result<String, AllocError>
    ensures told { ExplainsSyntax fault text.now → NamesLine fault text.now
        → IfOk result (λ m. TellsSyntax file.now text.now fault (string_bytes m)) }
    ensures read { OnOk result (1 ≤ syntax_number fault) }
{
    let (number, line) = number_and_line(fault)?;
    let located = explain_syntax(alloc, text, number, line)?;
    let mut message = String::new(alloc);
    let code = Code {
        letter: 'S',
        number,
    };
    push_diagnosis(
        alloc,
        &mut message,
        file,
        text,
        located.span,
        code,
        &located.words,
    )?;
    Ok(message)
}

/// The number of a refusal and its line. A text that is too long is refused on its first line.
fn number_and_line(fault: SyntaxFault) -> Result<(u8, u32), AllocError>
    ensures number { IfOk result (λ found. found.0 ≡ syntax_number fault) }
    ensures line { IfOk result (λ found. found.1 ≡ syntax_line fault) }
    ensures read { OnOk result (1 ≤ syntax_number fault) }
{
    match fault {
        SyntaxFault::Memory => Err(AllocError),
        SyntaxFault::NoToken { line } => Ok((1, line)),
        SyntaxFault::NotInGrammar { line } => Ok((2, line)),
        SyntaxFault::TooDeep { line } => Ok((3, line)),
        SyntaxFault::TooLong => Ok((4, 1)),
    }
}

/// The messages on the first faults of a text that is these units, no more than `most`.
fn explain_units(
    alloc: Global,
    file: &str,
    text: &[u8],
    units: &[Unit],
    main: &[u8],
    most: usize,
) -> Result<String, AllocError>
    requires text { IsTextOf text.now units.now }
    requires most { 1 ≤ most }
    ensures { IfOk result (λ m. TellsUnits
        (TellsFrom most file.now text.now units.now) file.now units.now main.now (string_bytes m)) }
{
    let tables = Tables::new(alloc, units)?;
    match first_finding(alloc, &tables, main)? {
        Finding::Nothing => Ok(String::new(alloc)),
        Finding::NoProgram => no_program_message(alloc, file, &tables, main),
        Finding::TooLarge(fault, size) => size_message(alloc, file, text, fault, size),
        Finding::Fault(first) => {
            let faults = faults_from(alloc, &tables, first, most)?;
            faults_message(alloc, file, text, &tables, &faults)
        }
    }
}

/// The message on a text that has no such program.
fn no_program_message(
    alloc: Global,
    file: &str,
    tables: &Tables<'_>,
    main: &[u8],
) -> Result<String, AllocError>
    ensures { IfOk result (λ m. TellsNoProgram file.now (string_bytes m)) }
{
    let words = explain_no_program(alloc, tables, main)?;
    let mut message = String::new(alloc);
    let place = Place { line: 1, column: 1 };
    let code = Code {
        letter: 'C',
        number: 10,
    };
    push_heading(&mut message, file, place, code)?;
    message.push_str(words.title.as_str())?;
    message.push('\n')?;
    message.push_str(words.more.as_str())?;
    Ok(message)
}

/// The message on a program that is too large, at its name.
fn size_message(
    alloc: Global,
    file: &str,
    text: &[u8],
    fault: Fault,
    size: Size,
) -> Result<String, AllocError>
    ensures { (ts : Tokens) → HasTokens 1 text.now ts
        → IfOk result (λ m. TellsFault file.now text.now fault (string_bytes m)) }
{
    let lexemes = lexemes(alloc, text)?;
    let lexed = Lexed {
        text,
        lexemes: &lexemes,
    };
    let words = explain_size(alloc, lexed.spelling(fault.position.number), size)?;
    let mut message = String::new(alloc);
    push_words(alloc, &mut message, file, lexed, fault, &words)?;
    Ok(message)
}

/// The messages on rules that are broken at tokens, one behind the other.
fn faults_message(
    alloc: Global,
    file: &str,
    text: &[u8],
    tables: &Tables<'_>,
    faults: &[Fault],
) -> Result<String, AllocError>
    ensures { (ts : Tokens) → HasTokens 1 text.now ts
        → IfOk result (λ m. TellsFaults file.now text.now faults.now (string_bytes m)) }
{
    let lexemes = lexemes(alloc, text)?;
    let lexed = Lexed {
        text,
        lexemes: &lexemes,
    };
    let mut message = String::new(alloc);
    for fault in faults {
        push_fault(alloc, &mut message, file, lexed, tables, *fault)?;
    }
    Ok(message)
}

/// Puts the message on a rule that is broken at a token at the end of a message.
fn push_fault(
    alloc: Global,
    message: &mut String,
    file: &str,
    lexed: Lexed<'_>,
    tables: &Tables<'_>,
    fault: Fault,
) -> Result<(), AllocError>
    ensures { OnOk result (IsToldAt file.now lexed.entry.text.now lexed.entry.lexemes.now fault
        (string_bytes message.old) (string_bytes message.new)) }
{
    let words = explain_rule(alloc, lexed, tables, fault)?;
    push_words(alloc, message, file, lexed, fault, &words)
}

/// Puts what is said of a rule that is broken at a token at the end of a message.
fn push_words(
    alloc: Global,
    message: &mut String,
    file: &str,
    lexed: Lexed<'_>,
    fault: Fault,
    words: &Words,
) -> Result<(), AllocError>
    ensures told { OnOk result (IsTold (string_bytes message.old) (string_bytes message.new)
        file.now lexed.entry.text.now (start_at lexed.entry.lexemes.now fault.position.number)
        (code_of fault.rule) (string_bytes words.now.title)) }
{
    let span = span_at(lexed.lexemes, fault.position.number as usize);
    let code = Code {
        letter: 'C',
        number: fault.rule.number(),
    };
    push_diagnosis(alloc, message, file, lexed.text, span, code, words)
}
