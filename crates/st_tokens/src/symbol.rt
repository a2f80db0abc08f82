//! The symbols of the language.
ghost use Rattle.std.specs.Prelude.{◌≡◌};
ghost use Rattle.st_tokens.specs.Scanning.{double, single};

/// A symbol: an operator or a mark between other tokens.
#[derive(Clone, Copy, PartialEq, Eq)]
pub enum Symbol {
    /// `:=`
    Assign,
    /// `=>`
    Output,
    /// `<=`
    LessEqual,
    /// `>=`
    GreaterEqual,
    /// `<>`
    NotEqual,
    /// `..`
    Range,
    /// `(`
    Open,
    /// `)`
    Close,
    /// `[`
    OpenBracket,
    /// `]`
    CloseBracket,
    /// `,`
    Comma,
    /// `;`
    Semicolon,
    /// `:`
    Colon,
    /// `.`
    Dot,
    /// `+`
    Plus,
    /// `-`
    Minus,
    /// `*`
    Times,
    /// `/`
    Divide,
    /// `=`
    Equal,
    /// `<`
    Less,
    /// `>`
    Greater,
    /// `&`
    Ampersand,
    /// `%`
    Percent,
}

impl Symbol {
    /// The symbol that these two bytes are.
    pub(crate) fn of_two(first: u8, second: u8) -> Option<Symbol>
        ensures { result ≡ double first second }
    {
        match (first, second) {
            (b':', b'=') => Some(Symbol::Assign),
            (b'<', b'=') => Some(Symbol::LessEqual),
            (b'>', b'=') => Some(Symbol::GreaterEqual),
            (b'<', b'>') => Some(Symbol::NotEqual),
            (b'=', b'>') => Some(Symbol::Output),
            (b'.', b'.') => Some(Symbol::Range),
            _ => None,
        }
    }

    /// The symbol that this byte is.
    pub(crate) fn of_one(byte: u8) -> Option<Symbol>
        ensures { result ≡ single byte }
    {
        match byte {
            b'(' => Some(Symbol::Open),
            b')' => Some(Symbol::Close),
            b'[' => Some(Symbol::OpenBracket),
            b']' => Some(Symbol::CloseBracket),
            b',' => Some(Symbol::Comma),
            b';' => Some(Symbol::Semicolon),
            b':' => Some(Symbol::Colon),
            b'.' => Some(Symbol::Dot),
            b'+' => Some(Symbol::Plus),
            b'-' => Some(Symbol::Minus),
            b'*' => Some(Symbol::Times),
            b'/' => Some(Symbol::Divide),
            b'=' => Some(Symbol::Equal),
            b'<' => Some(Symbol::Less),
            b'>' => Some(Symbol::Greater),
            b'&' => Some(Symbol::Ampersand),
            b'%' => Some(Symbol::Percent),
            _ => None,
        }
    }
}
