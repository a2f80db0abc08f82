//! Why a text isn't in the grammar, where a row of a table says it.

/// Why a text isn't in the grammar.
#[derive(Clone, Copy, Debug, PartialEq, Eq)]
pub enum Cause {
    /// A comment isn't closed.
    OpenComment,
    /// The text begins with a byte order mark.
    FirstMark,
    /// A byte order mark stands in the text.
    LaterMark,
    /// A number with a base isn't well formed.
    BasedNumber,
    /// A number without a base isn't well formed.
    PlainNumber,
    /// A word isn't well formed.
    BadName,
    /// A duration isn't well formed.
    BadDuration,
    /// A literal is of a type that this profile leaves out.
    LeftOutLiteral,
    /// A literal that names a type isn't well formed.
    BadLiteral,
    /// A quote.
    CharacterString,
    /// A brace.
    Pragma,
    /// `!`
    Exclamation,
    /// `|`
    Bar,
    /// `~`
    Tilde,
    /// `^`
    Caret,
    /// `?`
    QuestionMark,
    /// `#`
    Hash,
    /// `$`
    Dollar,
    /// A character of ASCII that other languages have as a symbol.
    OtherSign,
    /// A character that isn't in ASCII.
    Accented,
    /// A character of ASCII that is none of the above.
    OtherCharacter,
    /// There are no bytes.
    Nothing,
    /// `//`
    LineComment,
    /// `/*`
    BlockComment,
    /// `**`
    Power,
    /// `&&`
    DoubleAmpersand,
    /// `%`
    Percent,
    /// A number with a fraction.
    Fraction,
    /// An enumeration is declared.
    Enumeration,
    /// A structure or an instance has an initial value.
    InitialStructure,
    /// A subrange is declared.
    Subrange,
    /// A character string is declared.
    StringLength,
    /// `=` stands before an initial value.
    EqualInitial,
    /// `==`
    DoubleEqual,
    /// A statement begins with a comparison.
    Comparison,
    /// `:=` stands where nothing can be assigned.
    Assignment,
    /// A variable is assigned as other languages count it on.
    Counting,
    /// A token stands outside of all units.
    Outside,
    /// A token closes nothing that is open.
    Unopened,
    /// A token opens one level too many.
    Depth,
    /// The text is too long.
    TooLong,
    /// A statement stands among declarations.
    Statement,
    /// A reserved word, or a type, stands for a name.
    ReservedName,
    /// A `;` is missing before the token.
    Semicolon,
    /// The token ends, or stands outside of, what isn't closed.
    Unclosed,
    /// That, where `ELSE IF` opened it.
    UnclosedElseIf,
    /// The token can't stand here, for no reason above.
    Elsewhere,
    /// That, where it is known what could stand here.
    ElsewhereKnown,
    /// The text ends, and something isn't closed.
    EndUnclosed,
    /// That, where `ELSE IF` opened it.
    EndElseIf,
    /// The text ends too early.
    EndEarly,
    /// No token begins on a line.
    NoToken,
}
