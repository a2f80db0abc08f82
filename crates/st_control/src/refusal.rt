//! Why a command is refused.
ghost use Rattle.std.specs.Prelude.{◌≡◌};
ghost use Rattle.st_control.specs.Causes.{refusal_of_plan};
ghost use Rattle.st_control.specs.Texts.{refusal_of, refusal_of_rules};
ghost use Rattle.st_control.specs.declared.refusal.Refusal.TheVariants as refusals;

use st_check::CheckFault;
use st_layout::PlanFault;
use st_tokens::SyntaxFault;
use std::alloc::AllocError;

/// There is no leaf with this path.
pub const NO_SUCH_PATH: u8 = 1;

/// An operator may not write or force the leaf.
pub const NOT_OPEN: u8 = 2;

/// The value isn't one of the leaf's type.
pub const NOT_OF_TYPE: u8 = 3;

/// The leaf is forced.
pub const IS_FORCED: u8 = 4;

/// The leaf isn't forced.
pub const NOT_FORCED: u8 = 5;

/// As many commands can be undone as may be.
pub const UNDO_FULL: u8 = 6;

/// There is nothing to undo.
pub const NOTHING_TO_UNDO: u8 = 7;

/// A chart that both programs have would keep no active step.
pub const NO_ACTIVE_STEP: u8 = 8;

/// The moment of a scan is before the last one, or above the greatest.
pub const MOMENT_PAST: u8 = 9;

/// The program was halted by a fault.
pub const HALTED: u8 = 10;

/// A session has no such line.
pub const NO_SUCH_LINE: u8 = 11;

/// A scan has a value for a leaf that isn't a process input.
pub const NOT_AN_INPUT: u8 = 12;

/// The renames of an online change give no pairs.
pub const NOT_PAIRED: u8 = 13;

/// Why a command is refused. Of several causes the one with the lowest number is named; of those of an online change the
/// renames (13) come before the charts (8).
#[derive(Clone, Copy, Debug, PartialEq, Eq)]
pub enum Refusal {
    /// The text isn't in the grammar: the number of the cause, from 1 to 4, and a line.
    S { number: u8, line: u32 },
    /// The program breaks a rule: the rule's number, from 1 to 10, and a line, which is 0 where there is no such program.
    C { number: u8, line: u32 },
    /// An operator's command can't be done: the number of the cause, which is one of the constants above.
    O(u8),
    /// There is no memory.
    M,
}

impl From<SyntaxFault> for Refusal {
    ghost from_gives = { λ fault refusal. refusal ≡ refusal_of fault };

    fn from(fault: SyntaxFault) -> Refusal {
        match fault {
            SyntaxFault::Memory => Refusal::M,
            SyntaxFault::NoToken { line } => Refusal::S { number: 1, line },
            SyntaxFault::NotInGrammar { line } => Refusal::S { number: 2, line },
            SyntaxFault::TooDeep { line } => Refusal::S { number: 3, line },
            SyntaxFault::TooLong => Refusal::S { number: 4, line: 1 },
        }
    }
}

impl From<CheckFault> for Refusal {
    ghost from_gives = { λ fault refusal. refusal ≡ refusal_of_rules fault };

    fn from(fault: CheckFault) -> Refusal {
        match fault.rule() {
            Some(rule) => Refusal::C {
                number: rule.number(),
                line: fault.line(),
            },
            None => Refusal::M,
        }
    }
}

impl From<PlanFault> for Refusal {
    ghost from_gives = { λ fault refusal. refusal ≡ refusal_of_plan fault };

    fn from(fault: PlanFault) -> Refusal {
        match fault {
            PlanFault::Memory => Refusal::M,
            PlanFault::NotPaired => Refusal::O(NOT_PAIRED),
        }
    }
}

impl From<AllocError> for Refusal {
    ghost from_gives = { λ _ refusal. refusal ≡ refusals.M };

    fn from(_: AllocError) -> Refusal {
        Refusal::M
    }
}
