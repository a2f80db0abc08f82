//! What is open at a place of a text: statements, declarations, units, parentheses and brackets.
ghost use Rattle.std.specs.Prelude.{◌≡◌, IfOk, OnOk};
ghost use Rattle.st_syntax_messages.specs.Open.{after, closed_by, closes, closes_last, declares, end_of, last_of, number_of, open_before, opened_by};

use st_tokens::{Keyword, Kind, Symbol, Token};
use std::alloc::{AllocError, Global};

/// What can be open, by what opens it.
#[derive(Clone, Copy)]
pub enum Group {
    Action,
    Case,
    For,
    Function,
    FunctionBlock,
    If,
    Program,
    Repeat,
    Step,
    Struct,
    Transition,
    Type,
    Var,
    While,
    Parenthesis,
    Bracket,
}

/// What is open: the number of its first token, and what it is.
#[derive(Clone, Copy)]
pub struct Open {
    /// The number of its first token.
    pub number: usize,
    /// What it is.
    pub group: Group,
}

impl Group {
    /// Its place among the groups, from 0.
    fn number(self) -> u8
        ensures { result ≡ number_of self }
    {
        self as u8
    }

    /// How the end of it is written.
    pub fn end(self) -> &'static str
        ensures { result.now ≡ end_of self }
    {
        match self {
            Group::Action => "END_ACTION",
            Group::Case => "END_CASE;",
            Group::For => "END_FOR;",
            Group::Function => "END_FUNCTION",
            Group::FunctionBlock => "END_FUNCTION_BLOCK",
            Group::If => "END_IF;",
            Group::Program => "END_PROGRAM",
            Group::Repeat => "END_REPEAT;",
            Group::Step => "END_STEP",
            Group::Struct => "END_STRUCT;",
            Group::Transition => "END_TRANSITION",
            Group::Type => "END_TYPE",
            Group::Var => "END_VAR",
            Group::While => "END_WHILE;",
            Group::Parenthesis => ")",
            Group::Bracket => "]",
        }
    }
}

/// What a token opens.
fn opened_by(kind: &Kind<'_>) -> Option<Group>
    ensures { result ≡ opened_by kind.now }
{
    match kind {
        Kind::Keyword(Keyword::Action) => Some(Group::Action),
        Kind::Keyword(Keyword::Case) => Some(Group::Case),
        Kind::Keyword(Keyword::For) => Some(Group::For),
        Kind::Keyword(Keyword::Function) => Some(Group::Function),
        Kind::Keyword(Keyword::FunctionBlock) => Some(Group::FunctionBlock),
        Kind::Keyword(Keyword::If) => Some(Group::If),
        Kind::Keyword(Keyword::InitialStep | Keyword::Step) => Some(Group::Step),
        Kind::Keyword(Keyword::Program) => Some(Group::Program),
        Kind::Keyword(Keyword::Repeat) => Some(Group::Repeat),
        Kind::Keyword(Keyword::Struct) => Some(Group::Struct),
        Kind::Keyword(Keyword::Transition) => Some(Group::Transition),
        Kind::Keyword(Keyword::Type) => Some(Group::Type),
        Kind::Keyword(Keyword::Var | Keyword::VarInput | Keyword::VarOutput) => Some(Group::Var),
        Kind::Keyword(Keyword::While) => Some(Group::While),
        Kind::Symbol(Symbol::Open) => Some(Group::Parenthesis),
        Kind::Symbol(Symbol::OpenBracket) => Some(Group::Bracket),
        _ => None,
    }
}

/// What a token closes.
pub fn closed_by(kind: &Kind<'_>) -> Option<Group>
    ensures { result ≡ closed_by kind.now }
{
    match kind {
        Kind::Keyword(Keyword::EndAction) => Some(Group::Action),
        Kind::Keyword(Keyword::EndCase) => Some(Group::Case),
        Kind::Keyword(Keyword::EndFor) => Some(Group::For),
        Kind::Keyword(Keyword::EndFunction) => Some(Group::Function),
        Kind::Keyword(Keyword::EndFunctionBlock) => Some(Group::FunctionBlock),
        Kind::Keyword(Keyword::EndIf) => Some(Group::If),
        Kind::Keyword(Keyword::EndProgram) => Some(Group::Program),
        Kind::Keyword(Keyword::EndRepeat) => Some(Group::Repeat),
        Kind::Keyword(Keyword::EndStep) => Some(Group::Step),
        Kind::Keyword(Keyword::EndStruct) => Some(Group::Struct),
        Kind::Keyword(Keyword::EndTransition) => Some(Group::Transition),
        Kind::Keyword(Keyword::EndType) => Some(Group::Type),
        Kind::Keyword(Keyword::EndVar) => Some(Group::Var),
        Kind::Keyword(Keyword::EndWhile) => Some(Group::While),
        Kind::Symbol(Symbol::Close) => Some(Group::Parenthesis),
        Kind::Symbol(Symbol::CloseBracket) => Some(Group::Bracket),
        _ => None,
    }
}

/// Whether the token closes this.
pub fn closes(kind: &Kind<'_>, group: Group) -> bool
    ensures { result ≡ closes kind.now group }
{
    match closed_by(kind) {
        Some(closed) => closed.number() == group.number(),
        None => false,
    }
}

/// Whether declarations are open last.
pub fn declares(last: Option<Open>) -> bool
    ensures { result ≡ declares last }
{
    match last {
        Some(last) => matches!(last.group, Group::Var | Group::Struct | Group::Type),
        None => false,
    }
}

/// What is open before the token of this number, from the outside in.
pub fn open_before(
    alloc: Global,
    tokens: &[Token<'_>],
    number: usize,
) -> Result<Vec<Open>, AllocError>
    ensures { IfOk result (λ opened. opened.items ≡ open_before tokens.now number) }
{
    let mut opened: Vec<Open> = Vec::new(alloc);
    for at in 0..number {
        if let Some(token) = tokens.get(at) {
            pass(&mut opened, at, &token.kind)?;
        }
    }
    Ok(opened)
}

/// Passes the token of this number: it closes what is open last, or opens something, or neither.
fn pass(opened: &mut Vec<Open>, number: usize, kind: &Kind<'_>) -> Result<(), AllocError>
    ensures { OnOk result (opened.new.items ≡ after opened.old.items number kind.now) }
{
    if closes_last(opened, kind) {
        let _closed = opened.pop();
    } else if let Some(group) = opened_by(kind) {
        opened.push(Open { number, group })?;
    }
    Ok(())
}

/// What is open last.
pub fn last_of(opened: &[Open]) -> Option<Open>
    ensures { result ≡ last_of opened.now }
{
    opened.last().copied()
}

/// Whether the token closes what was opened last.
fn closes_last(opened: &[Open], kind: &Kind<'_>) -> bool
    ensures { result ≡ closes_last opened.now kind.now }
{
    match last_of(opened) {
        Some(last) => closes(kind, last.group),
        None => false,
    }
}
