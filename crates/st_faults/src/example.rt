//! Texts that are refused, an example for each number of a text's faults but the length of the text.
ghost use Rattle.std.specs.Prelude.{◌≡◌};
ghost use Rattle.st_faults.specs.Causes.{family_of, number_behind};

use crate::explanation::Family;
use crate::fault::Rule;

/// Why a text is refused.
#[derive(Clone, Copy, Debug, PartialEq, Eq)]
pub enum Cause {
    /// It isn't in the grammar: the number behind the S.
    Syntax(u8),
    /// It breaks this rule.
    Rule(Rule),
}

impl Cause {
    /// The family of the number that is answered.
    pub fn family(self) -> Family
        ensures { result ≡ family_of self }
    {
        match self {
            Cause::Syntax(_) => Family::Syntax,
            Cause::Rule(_) => Family::Check,
        }
    }

    /// The number that is answered.
    pub fn number(self) -> u8
        ensures { result ≡ number_behind self }
    {
        match self {
            Cause::Syntax(number) => number,
            Cause::Rule(rule) => rule.number(),
        }
    }
}

/// A text that is refused.
#[derive(Clone, Copy, Debug)]
pub struct Example {
    /// Why it is refused.
    pub cause: Cause,
    /// The line that is answered, from 1, or 0 where no line is at fault.
    pub line: u32,
    /// The text, whose main program is called `Main`.
    pub text: &'static str,
}

/// The examples, by family and number.
pub static EXAMPLES: [Example; 13] = [
    Example {
        cause: Cause::Syntax(1),
        line: 3,
        text: "\
PROGRAM Main
VAR Level : INT; END_VAR
Level := 5; (* the level to hold
END_PROGRAM
",
    },
    Example {
        cause: Cause::Syntax(2),
        line: 4,
        text: "\
PROGRAM Main
VAR Level : INT; END_VAR
Level := 5
END_PROGRAM
",
    },
    Example {
        cause: Cause::Syntax(3),
        line: 3,
        text: "\
PROGRAM Main
VAR Level : INT; END_VAR
Level := (((((((((((((((((((((((((((((((((((((((((((((((((((((((((((((((((5)))))))))))))))))))))))))))))))))))))))))))))))))))))))))))))))));
END_PROGRAM
",
    },
    Example {
        cause: Cause::Rule(Rule::UnknownName),
        line: 3,
        text: "\
PROGRAM Main
VAR Level : INT; END_VAR
Levle := 5;
END_PROGRAM
",
    },
    Example {
        cause: Cause::Rule(Rule::NameTwice),
        line: 3,
        text: "\
PROGRAM Main
VAR Level : INT;
LEVEL : BOOL; END_VAR
END_PROGRAM
",
    },
    Example {
        cause: Cause::Rule(Rule::TypeMismatch),
        line: 3,
        text: "\
PROGRAM Main
VAR Level : INT; Full : BOOL; END_VAR
Full := Level;
END_PROGRAM
",
    },
    Example {
        cause: Cause::Rule(Rule::OutOfRange),
        line: 3,
        text: "\
PROGRAM Main
VAR Level : INT; END_VAR
Level := 40000;
END_PROGRAM
",
    },
    Example {
        cause: Cause::Rule(Rule::NotAssignable),
        line: 3,
        text: "\
PROGRAM Main
VAR CONSTANT Limit : INT := 90; END_VAR
Limit := 95;
END_PROGRAM
",
    },
    Example {
        cause: Cause::Rule(Rule::Recursion),
        line: 1,
        text: "\
FUNCTION Half : INT
VAR_INPUT X : INT; END_VAR
Half := Half(X) / 2;
END_FUNCTION
PROGRAM Main
END_PROGRAM
",
    },
    Example {
        cause: Cause::Rule(Rule::CallMismatch),
        line: 3,
        text: "\
PROGRAM Main
VAR Level : INT; END_VAR
Level := MAX(5);
END_PROGRAM
",
    },
    Example {
        cause: Cause::Rule(Rule::MalformedChart),
        line: 4,
        text: "\
PROGRAM Main
VAR Go : BOOL; END_VAR
INITIAL_STEP Wait: END_STEP
TRANSITION FROM Wait TO Fill := Go; END_TRANSITION
END_PROGRAM
",
    },
    Example {
        cause: Cause::Rule(Rule::LimitPassed),
        line: 1,
        text: "\
PROGRAM Main
VAR Seen : ARRAY [1..70000] OF BOOL; END_VAR
END_PROGRAM
",
    },
    Example {
        cause: Cause::Rule(Rule::NoProgram),
        line: 0,
        text: "\
PROGRAM Plant
VAR Level : INT; END_VAR
END_PROGRAM
",
    },
];
