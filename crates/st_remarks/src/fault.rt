//! Where a fault ended a scan.
use st_faults::{Family, explanation_of};
use st_messages::{push_help, push_line, push_note, push_shown};
use st_session::control::{RunFault, RunFaultKind};
use std::alloc::{AllocError, Global};

/// What a person is told of a fault that ended a scan: the line of the text of the program that runs, where that is known.
pub fn told_of_fault(
    alloc: Global,
    number: u64,
    fault: &RunFault,
    text: Option<&[u8]>,
) -> Result<String, AllocError> {
    let mut message = String::new(alloc);
    let cause = number_of(fault.kind);
    let explanation = explanation_of(Family::Fault, cause);
    write!(message, "session:{number}:1: error: F{cause}: ")?;
    if let Some(explanation) = explanation {
        message.push_str(explanation.title)?;
    }
    message.push_str(", in ")?;
    push_shown(&mut message, fault.unit.bytes())?;
    write!(
        message,
        " at line {} of the program that runs\n",
        fault.line
    )?;
    if let Some(text) = text {
        push_line(&mut message, text, fault.line as usize)?;
    }
    push_note(
        &mut message,
        "all values are as before the scan; `reset` lets the program run again",
    )?;
    if let Some(explanation) = explanation {
        push_help(&mut message, explanation.advice)?;
    }
    Ok(message)
}

/// The number of a kind of fault.
pub fn number_of(kind: RunFaultKind) -> u8 {
    match kind {
        RunFaultKind::StepLimit => 1,
        RunFaultKind::ZeroDivisor => 2,
        RunFaultKind::IndexOutOfRange => 3,
    }
}
