//! The reserved words of the language.
ghost use Rattle.std.specs.Prelude.{◌≡◌, ◌≤◌, ℕ, length, map, slice_range, List};
ghost use Rattle.st_tokens.specs.Words.{keyword_in, keyword_of, keywords_with, spellings};

use std::ops::Range;

/// A reserved word that isn't the name of an elementary type (IEC 61131-3:2003, 2.1.3 and annex C).
#[derive(Clone, Copy, PartialEq, Eq)]
pub enum Keyword {
    Action,
    And,
    Array,
    At,
    By,
    Case,
    Configuration,
    Constant,
    Do,
    Else,
    Elsif,
    En,
    EndAction,
    EndCase,
    EndConfiguration,
    EndFor,
    EndFunction,
    EndFunctionBlock,
    EndIf,
    EndProgram,
    EndRepeat,
    EndResource,
    EndStep,
    EndStruct,
    EndTransition,
    EndType,
    EndVar,
    EndWhile,
    Eno,
    Exit,
    False,
    For,
    From,
    Function,
    FunctionBlock,
    FEdge,
    If,
    InitialStep,
    Mod,
    NonRetain,
    Not,
    Of,
    Or,
    Program,
    Repeat,
    Resource,
    Retain,
    Return,
    REdge,
    Step,
    Struct,
    Task,
    Then,
    To,
    Transition,
    True,
    Type,
    Until,
    Var,
    VarAccess,
    VarExternal,
    VarGlobal,
    VarInput,
    VarInOut,
    VarOutput,
    VarTemp,
    While,
    Xor,
}

/// The reserved words, each with its text in upper case.
static KEYWORDS: [(Keyword, &[u8]); 68] = [
    (Keyword::Action, b"ACTION"),
    (Keyword::And, b"AND"),
    (Keyword::Array, b"ARRAY"),
    (Keyword::At, b"AT"),
    (Keyword::By, b"BY"),
    (Keyword::Case, b"CASE"),
    (Keyword::Configuration, b"CONFIGURATION"),
    (Keyword::Constant, b"CONSTANT"),
    (Keyword::Do, b"DO"),
    (Keyword::Else, b"ELSE"),
    (Keyword::Elsif, b"ELSIF"),
    (Keyword::En, b"EN"),
    (Keyword::EndAction, b"END_ACTION"),
    (Keyword::EndCase, b"END_CASE"),
    (Keyword::EndConfiguration, b"END_CONFIGURATION"),
    (Keyword::EndFor, b"END_FOR"),
    (Keyword::EndFunction, b"END_FUNCTION"),
    (Keyword::EndFunctionBlock, b"END_FUNCTION_BLOCK"),
    (Keyword::EndIf, b"END_IF"),
    (Keyword::EndProgram, b"END_PROGRAM"),
    (Keyword::EndRepeat, b"END_REPEAT"),
    (Keyword::EndResource, b"END_RESOURCE"),
    (Keyword::EndStep, b"END_STEP"),
    (Keyword::EndStruct, b"END_STRUCT"),
    (Keyword::EndTransition, b"END_TRANSITION"),
    (Keyword::EndType, b"END_TYPE"),
    (Keyword::EndVar, b"END_VAR"),
    (Keyword::EndWhile, b"END_WHILE"),
    (Keyword::Eno, b"ENO"),
    (Keyword::Exit, b"EXIT"),
    (Keyword::False, b"FALSE"),
    (Keyword::For, b"FOR"),
    (Keyword::From, b"FROM"),
    (Keyword::Function, b"FUNCTION"),
    (Keyword::FunctionBlock, b"FUNCTION_BLOCK"),
    (Keyword::FEdge, b"F_EDGE"),
    (Keyword::If, b"IF"),
    (Keyword::InitialStep, b"INITIAL_STEP"),
    (Keyword::Mod, b"MOD"),
    (Keyword::NonRetain, b"NON_RETAIN"),
    (Keyword::Not, b"NOT"),
    (Keyword::Of, b"OF"),
    (Keyword::Or, b"OR"),
    (Keyword::Program, b"PROGRAM"),
    (Keyword::Repeat, b"REPEAT"),
    (Keyword::Resource, b"RESOURCE"),
    (Keyword::Retain, b"RETAIN"),
    (Keyword::Return, b"RETURN"),
    (Keyword::REdge, b"R_EDGE"),
    (Keyword::Step, b"STEP"),
    (Keyword::Struct, b"STRUCT"),
    (Keyword::Task, b"TASK"),
    (Keyword::Then, b"THEN"),
    (Keyword::To, b"TO"),
    (Keyword::Transition, b"TRANSITION"),
    (Keyword::True, b"TRUE"),
    (Keyword::Type, b"TYPE"),
    (Keyword::Until, b"UNTIL"),
    (Keyword::Var, b"VAR"),
    (Keyword::VarAccess, b"VAR_ACCESS"),
    (Keyword::VarExternal, b"VAR_EXTERNAL"),
    (Keyword::VarGlobal, b"VAR_GLOBAL"),
    (Keyword::VarInput, b"VAR_INPUT"),
    (Keyword::VarInOut, b"VAR_IN_OUT"),
    (Keyword::VarOutput, b"VAR_OUTPUT"),
    (Keyword::VarTemp, b"VAR_TEMP"),
    (Keyword::While, b"WHILE"),
    (Keyword::Xor, b"XOR"),
];

impl Keyword {
    /// The reserved word that this is, ignoring case.
    pub(crate) fn of(word: &[u8]) -> Option<Keyword>
        ensures { result ≡ keyword_of word.now }
    {
        let first = word.first()?;
        keyword_in(keywords_with(first.to_ascii_lowercase()), word)
    }
}

/// Which rows of the table are those of the words that begin with this letter, which is in lower case.
fn rows_with(letter: u8) -> Range<usize>
    ensures in_table { (result.start ≤ result.end) × (result.end ≤ 68) }
    ensures all_with { keywords_with letter ≡ slice_range spellings result.start result.end }
{
    match letter {
        b'a' => 0..4,
        b'b' => 4..5,
        b'c' => 5..8,
        b'd' => 8..9,
        b'e' => 9..30,
        b'f' => 30..36,
        b'i' => 36..38,
        b'm' => 38..39,
        b'n' => 39..41,
        b'o' => 41..43,
        b'p' => 43..44,
        b'r' => 44..49,
        b's' => 49..51,
        b't' => 51..57,
        b'u' => 57..58,
        b'v' => 58..66,
        b'w' => 66..67,
        b'x' => 67..68,
        _ => 0..0,
    }
}

/// These rows of a table.
fn part<'a>(table: &'a [(Keyword, &'a [u8])], rows: Range<usize>) -> &'a [(Keyword, &'a [u8])]
    requires { (rows.start ≤ rows.end) × (rows.end ≤ length table.now) }
    ensures { map (λ row. (row.0, row.1.now)) result.now
        ≡ slice_range {X = Keyword × List ℕ} (map (λ row. (row.0, row.1.now)) table.now)
        rows.start rows.end }
{
    &table[rows]
}

/// The rows of the words that begin with this letter, which is in lower case.
fn keywords_with(letter: u8) -> &'static [(Keyword, &'static [u8])]
    ensures { keywords_with letter ≡ map (λ row. (row.0, row.1.now)) result.now }
{
    part(&KEYWORDS, rows_with(letter))
}

/// The keyword of the first row whose text is this word, ignoring case.
fn keyword_in(rows: &[(Keyword, &[u8])], word: &[u8]) -> Option<Keyword>
    ensures { result ≡ keyword_in (map (λ row. (row.0, row.1.now)) rows.now) word.now }
{
    let row = rows.iter().find(|row| word.eq_ignore_ascii_case(row.1))?;
    Some(row.0)
}
