//! What stops a run.
use st_tree::Name;

/// What stops a scan.
#[derive(Clone, Copy, Debug, PartialEq, Eq)]
pub enum RunFaultKind {
    /// More steps than the limit.
    StepLimit,
    /// A division by zero.
    ZeroDivisor,
    /// An index outside its array.
    IndexOutOfRange,
}

/// Where and why a scan stopped.
#[derive(Clone, Copy)]
pub struct RunFault {
    /// Why.
    pub kind: RunFaultKind,
    /// The unit whose body ran, spelled as it is declared.
    pub unit: Name,
    /// The line in the program's text, from 1.
    pub line: u32,
}
