//! What a number means.
ghost use Rattle.std.specs.Prelude.{◌≡◌};
ghost use Rattle.st_faults.specs.Meanings.{letter_of};

/// A family of numbers, which are told apart by a letter.
#[derive(Clone, Copy, Debug, PartialEq, Eq)]
pub enum Family {
    /// `S`: the text isn't in the grammar.
    Syntax,
    /// `C`: the text breaks a rule of the language.
    Check,
    /// `O`: a line of a session can't be done.
    Operator,
    /// `F`: a scan ended early.
    Fault,
}

impl Family {
    /// The letter that stands before its numbers.
    pub fn letter(self) -> char
        ensures { result ≡ letter_of self }
    {
        match self {
            Family::Syntax => 'S',
            Family::Check => 'C',
            Family::Operator => 'O',
            Family::Fault => 'F',
        }
    }
}

/// What a number of a family means to people.
#[derive(Clone, Copy, Debug)]
pub struct Explanation {
    /// The number, from 1.
    pub number: u8,
    /// What is wrong in a few words, as the heading of a message says it where no more is known.
    pub title: &'static str,
    /// What is wrong, in one sentence.
    pub sentence: &'static str,
    /// What to do about it, in one sentence.
    pub advice: &'static str,
}
