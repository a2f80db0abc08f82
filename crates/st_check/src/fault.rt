//! Why a text is no program.
ghost use Rattle.std.specs.Prelude.{◌≡◌};
ghost use Rattle.st_check.specs.Answers.{answer_of, answer_to, line_of, rule_of};
ghost use Rattle.st_check.specs.declared.fault.CheckFault.TheVariants.{Memory};

use crate::faults::Unordered;
use st_faults::{Fault, Rule};
use std::alloc::AllocError;
use thiserror::Error;

/// Why a text is no program of a name.
///
/// The rule is that of the first fault, and the line is the one on which its token begins. It counts from 1.
#[derive(Clone, Copy, Debug, PartialEq, Eq, Error)]
pub enum CheckFault {
    /// Memory ran out.
    #[error("out of memory")]
    Memory,
    /// A name isn't there.
    #[error("C1 line {line}")]
    UnknownName { line: u32 },
    /// A name is there already.
    #[error("C2 line {line}")]
    NameTwice { line: u32 },
    /// A type doesn't fit.
    #[error("C3 line {line}")]
    TypeMismatch { line: u32 },
    /// A literal or a bound is out of range.
    #[error("C4 line {line}")]
    OutOfRange { line: u32 },
    /// Something may not be assigned.
    #[error("C5 line {line}")]
    NotAssignable { line: u32 },
    /// A unit contains or calls itself.
    #[error("C6 line {line}")]
    Recursion { line: u32 },
    /// A call, or an EXIT, doesn't fit.
    #[error("C7 line {line}")]
    CallMismatch { line: u32 },
    /// A chart is malformed.
    #[error("C8 line {line}")]
    MalformedChart { line: u32 },
    /// A limit is passed.
    #[error("C9 line {line}")]
    LimitPassed { line: u32 },
    /// There is no program of this name.
    #[error("C10")]
    NoProgram,
}

impl CheckFault {
    /// The rule that is broken. Where memory ran out there is none.
    pub fn rule(self) -> Option<Rule>
        ensures { result ≡ rule_of self }
    {
        match self {
            CheckFault::Memory => None,
            CheckFault::UnknownName { .. } => Some(Rule::UnknownName),
            CheckFault::NameTwice { .. } => Some(Rule::NameTwice),
            CheckFault::TypeMismatch { .. } => Some(Rule::TypeMismatch),
            CheckFault::OutOfRange { .. } => Some(Rule::OutOfRange),
            CheckFault::NotAssignable { .. } => Some(Rule::NotAssignable),
            CheckFault::Recursion { .. } => Some(Rule::Recursion),
            CheckFault::CallMismatch { .. } => Some(Rule::CallMismatch),
            CheckFault::MalformedChart { .. } => Some(Rule::MalformedChart),
            CheckFault::LimitPassed { .. } => Some(Rule::LimitPassed),
            CheckFault::NoProgram => Some(Rule::NoProgram),
        }
    }

    /// The line on which the rule is broken. It is 0 where there is no program, or memory ran out.
    pub fn line(self) -> u32
        ensures { result ≡ line_of self }
    {
        match self {
            CheckFault::Memory | CheckFault::NoProgram => 0,
            CheckFault::UnknownName { line }
            | CheckFault::NameTwice { line }
            | CheckFault::TypeMismatch { line }
            | CheckFault::OutOfRange { line }
            | CheckFault::NotAssignable { line }
            | CheckFault::Recursion { line }
            | CheckFault::CallMismatch { line }
            | CheckFault::MalformedChart { line }
            | CheckFault::LimitPassed { line } => line,
        }
    }

    /// The answer to a first fault.
    pub(crate) fn of(fault: Fault) -> CheckFault
        ensures { result ≡ answer_to fault }
    {
        let line = fault.position.line;
        match fault.rule {
            Rule::UnknownName => CheckFault::UnknownName { line },
            Rule::NameTwice => CheckFault::NameTwice { line },
            Rule::TypeMismatch => CheckFault::TypeMismatch { line },
            Rule::OutOfRange => CheckFault::OutOfRange { line },
            Rule::NotAssignable => CheckFault::NotAssignable { line },
            Rule::Recursion => CheckFault::Recursion { line },
            Rule::CallMismatch => CheckFault::CallMismatch { line },
            Rule::MalformedChart => CheckFault::MalformedChart { line },
            Rule::LimitPassed => CheckFault::LimitPassed { line },
            Rule::NoProgram => CheckFault::NoProgram,
        }
    }
}

impl From<AllocError> for CheckFault {
    ghost from_gives = { λ _ fault. fault ≡ Memory };

    fn from(_: AllocError) -> CheckFault {
        CheckFault::Memory
    }
}

impl From<Unordered> for CheckFault {
    ghost from_gives = { λ unordered fault. fault ≡ answer_of unordered };

    fn from(unordered: Unordered) -> CheckFault {
        match unordered {
            Unordered::Memory => CheckFault::Memory,
            Unordered::Fault(fault) => CheckFault::of(fault),
        }
    }
}
