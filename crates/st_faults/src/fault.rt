//! Faults.
ghost use Rattle.std.specs.Prelude.{◌≡◌};
ghost use Rattle.st_faults.specs.Faults.{is_before, number_of};

use st_tree::tree::Position;

/// A rule of the language that a text can break, though it is in the grammar.
#[derive(Clone, Copy, Debug, PartialEq, Eq)]
pub enum Rule {
    /// C1: a name that isn't there.
    UnknownName,
    /// C2: a name that is there already.
    NameTwice,
    /// C3: a type that doesn't fit.
    TypeMismatch,
    /// C4: a literal or a bound that is out of range.
    OutOfRange,
    /// C5: something that may not be assigned.
    NotAssignable,
    /// C6: a unit that contains or calls itself.
    Recursion,
    /// C7: a call, or an EXIT, that doesn't fit.
    CallMismatch,
    /// C8: a malformed chart.
    MalformedChart,
    /// C9: a limit that is passed.
    LimitPassed,
    /// C10: no program of this name.
    NoProgram,
}

impl Rule {
    /// Its number, from 1 to 10.
    pub fn number(self) -> u8
        ensures { result ≡ number_of self }
    {
        match self {
            Rule::UnknownName => 1,
            Rule::NameTwice => 2,
            Rule::TypeMismatch => 3,
            Rule::OutOfRange => 4,
            Rule::NotAssignable => 5,
            Rule::Recursion => 6,
            Rule::CallMismatch => 7,
            Rule::MalformedChart => 8,
            Rule::LimitPassed => 9,
            Rule::NoProgram => 10,
        }
    }
}

/// A rule that is broken at a token.
#[derive(Clone, Copy, Debug, PartialEq, Eq)]
pub struct Fault {
    /// Where the token stands that is named as the place of the fault.
    pub position: Position,
    /// The rule that is broken there.
    pub rule: Rule,
}

impl Fault {
    /// Whether it comes before another: by token, and at one token by the rule's number.
    pub fn is_before(self, other: Fault) -> bool
        ensures { result ≡ is_before self other }
    {
        self.position.number < other.position.number
            || (self.position.number == other.position.number
                && self.rule.number() < other.rule.number())
    }
}
