//! What tokens of these kinds may stand before and behind.
ghost use Rattle.std.specs.Option.{option_copied};
ghost use Rattle.std.specs.Prelude.{◌≡◌};
ghost use Rattle.st_syntax_messages.specs.Kinds.{begins_outside, begins_statement, is_comma, is_else, is_if, is_plain, is_reserved, may_follow_semicolon, names_before, wants_name};

use st_tokens::{Keyword, Kind, Symbol};

/// Whether it is a reserved word or a type, which could be taken for a name. ELSE isn't, since a label may stand behind it.
pub fn is_reserved(kind: Option<&Kind<'_>>) -> bool
    ensures { result ≡ is_reserved (option_copied kind.entry) }
{
    match kind {
        Some(Kind::Keyword(Keyword::Else)) => false,
        Some(Kind::Keyword(_) | Kind::Type(_)) => true,
        _ => false,
    }
}

/// Whether it is a type, or a reserved word that neither ends nor divides anything.
pub fn is_plain(kind: Option<&Kind<'_>>) -> bool
    ensures { result ≡ is_plain (option_copied kind.entry) }
{
    matches!(
        kind,
        Some(
            Kind::Type(_)
                | Kind::Keyword(
                    Keyword::Step
                        | Keyword::Action
                        | Keyword::Transition
                        | Keyword::By
                        | Keyword::From
                        | Keyword::Constant
                        | Keyword::Retain
                        | Keyword::NonRetain
                        | Keyword::Type
                        | Keyword::Program
                        | Keyword::Function
                        | Keyword::Exit
                        | Keyword::Return
                        | Keyword::Array
                        | Keyword::Struct
                )
        )
    )
}

/// Whether a name, or an operand, is due behind it.
pub fn wants_name(kind: Option<&Kind<'_>>) -> bool
    ensures { result ≡ wants_name (option_copied kind.entry) }
{
    matches!(
        kind,
        Some(
            Kind::Keyword(
                Keyword::Program
                    | Keyword::Function
                    | Keyword::FunctionBlock
                    | Keyword::Step
                    | Keyword::InitialStep
                    | Keyword::Action
                    | Keyword::For
                    | Keyword::From
                    | Keyword::And
                    | Keyword::Or
                    | Keyword::Xor
                    | Keyword::Not
                    | Keyword::Mod
                    | Keyword::If
                    | Keyword::Elsif
                    | Keyword::While
                    | Keyword::Until
                    | Keyword::Case
            ) | Kind::Symbol(
                Symbol::Dot
                    | Symbol::Assign
                    | Symbol::Plus
                    | Symbol::Minus
                    | Symbol::Times
                    | Symbol::Divide
                    | Symbol::Equal
                    | Symbol::NotEqual
                    | Symbol::Less
                    | Symbol::LessEqual
                    | Symbol::Greater
                    | Symbol::GreaterEqual
                    | Symbol::Open
                    | Symbol::OpenBracket
                    | Symbol::Comma
                    | Symbol::Ampersand
            )
        )
    )
}

/// Whether what stands before it can only be a name.
pub fn names_before(kind: Option<&Kind<'_>>) -> bool
    ensures { result ≡ names_before (option_copied kind.entry) }
{
    matches!(
        kind,
        Some(Kind::Symbol(
            Symbol::Colon | Symbol::Assign | Symbol::Dot | Symbol::OpenBracket | Symbol::Output
        ))
    )
}

/// Whether it is `,`.
pub fn is_comma(kind: Option<&Kind<'_>>) -> bool
    ensures { result ≡ is_comma (option_copied kind.entry) }
{
    matches!(kind, Some(Kind::Symbol(Symbol::Comma)))
}

/// Whether a `;` may be missing before it.
pub fn may_follow_semicolon(kind: Option<&Kind<'_>>) -> bool
    ensures { result ≡ may_follow_semicolon (option_copied kind.entry) }
{
    matches!(
        kind,
        Some(Kind::Word(_) | Kind::Keyword(_) | Kind::Type(_) | Kind::Symbol(Symbol::Semicolon))
    )
}

/// Whether a statement, also an empty one, may begin behind it, since none goes on before it.
pub fn begins_statement(kind: Option<&Kind<'_>>) -> bool
    ensures { result ≡ begins_statement (option_copied kind.entry) }
{
    match kind {
        Some(Kind::Symbol(Symbol::Semicolon | Symbol::Colon)) => true,
        Some(Kind::Keyword(keyword)) => !matches!(
            keyword,
            Keyword::EndIf
                | Keyword::EndCase
                | Keyword::EndFor
                | Keyword::EndWhile
                | Keyword::EndRepeat
                | Keyword::EndStruct
                | Keyword::Exit
                | Keyword::Return
                | Keyword::True
                | Keyword::False
        ),
        _ => false,
    }
}

/// Whether it divides what is open, or begins what can't stand inside everything. What closes something isn't meant.
pub fn begins_outside(kind: Option<&Kind<'_>>) -> bool
    ensures { result ≡ begins_outside (option_copied kind.entry) }
{
    matches!(
        kind,
        Some(
            Kind::Keyword(
                Keyword::Until
                    | Keyword::Program
                    | Keyword::Function
                    | Keyword::FunctionBlock
                    | Keyword::Type
                    | Keyword::Var
                    | Keyword::VarInput
                    | Keyword::VarOutput
                    | Keyword::Step
                    | Keyword::InitialStep
                    | Keyword::Transition
                    | Keyword::Action
                    | Keyword::If
                    | Keyword::Case
                    | Keyword::For
                    | Keyword::While
                    | Keyword::Repeat
                    | Keyword::Then
                    | Keyword::Do
            ) | Kind::Symbol(Symbol::Semicolon)
        )
    )
}

/// Whether it is IF.
pub fn is_if(kind: Option<&Kind<'_>>) -> bool
    ensures { result ≡ is_if (option_copied kind.entry) }
{
    matches!(kind, Some(Kind::Keyword(Keyword::If)))
}

/// Whether it is ELSE.
pub fn is_else(kind: Option<&Kind<'_>>) -> bool
    ensures { result ≡ is_else (option_copied kind.entry) }
{
    matches!(kind, Some(Kind::Keyword(Keyword::Else)))
}
