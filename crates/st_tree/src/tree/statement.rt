//! Statements (3.3.2).
use crate::boxed::Boxed;
use crate::list::List;
use crate::tree::constant::Constant;
use crate::tree::expression::{Call, Expression, Variable};
use crate::tree::position::{Identifier, Position};

/// A statement. What it holds stands in boxes, since there may be as many statements as bytes of a text.
#[cycle(statement)]
#[derive(Drop)]
pub enum Statement {
    /// `;` alone. The position is its own.
    Empty(Position),
    /// The variable takes the value.
    Assignment(Boxed<Variable>, Boxed<Expression>),
    /// An invocation.
    Call(Boxed<Call>),
    /// `RETURN`
    Return(Position),
    /// `EXIT`
    Exit(Position),
    /// `IF`
    If(Boxed<IfStatement>),
    /// `CASE`
    Case(Boxed<CaseStatement>),
    /// `FOR`
    For(Boxed<ForStatement>),
    /// `WHILE`
    While(Boxed<WhileStatement>),
    /// `REPEAT`
    Repeat(Boxed<RepeatStatement>),
}

/// The first part whose condition is TRUE runs, or else the statements of ELSE (3.3.2.3).
#[cycle(statement)]
#[derive(Drop)]
pub struct IfStatement {
    /// Where it begins.
    pub position: Position,
    /// Those of IF and of each ELSIF, in order.
    pub parts: List<ConditionalPart>,
    /// After ELSE. Without ELSE there are none.
    pub otherwise: List<Statement>,
}

/// The first case that has the selector's value runs, or else the statements of ELSE (3.3.2.3).
#[cycle(statement)]
#[derive(Drop)]
pub struct CaseStatement {
    /// Where it begins.
    pub position: Position,
    /// After CASE.
    pub selector: Boxed<Expression>,
    /// After OF, in order.
    pub cases: List<CaseElement>,
    /// After ELSE. Without ELSE there are none.
    pub otherwise: List<Statement>,
}

/// The statements run once for each value of a variable (3.3.2.4).
#[cycle(statement)]
#[derive(Drop)]
pub struct ForStatement {
    /// Where it begins.
    pub position: Position,
    /// After FOR.
    pub variable: Identifier,
    /// Its first value, after `:=`.
    pub first: Boxed<Expression>,
    /// Its last value, after TO.
    pub last: Boxed<Expression>,
    /// How far apart two values are. Without BY it is 1.
    pub step: Option<Boxed<Expression>>,
    /// After DO.
    pub statements: List<Statement>,
}

/// The statements run as long as the condition is TRUE, which may be never (3.3.2.4).
#[cycle(statement)]
#[derive(Drop)]
pub struct WhileStatement {
    /// Where it begins.
    pub position: Position,
    /// After WHILE.
    pub condition: Boxed<Expression>,
    /// After DO.
    pub statements: List<Statement>,
}

/// The statements run once, and again until the condition is TRUE (3.3.2.4).
#[cycle(statement)]
#[derive(Drop)]
pub struct RepeatStatement {
    /// Where it begins.
    pub position: Position,
    /// After REPEAT.
    pub statements: List<Statement>,
    /// After UNTIL.
    pub condition: Boxed<Expression>,
}

/// A condition, and what runs where it is the first that is TRUE.
#[cycle(statement)]
#[derive(Drop)]
pub struct ConditionalPart {
    /// After IF or ELSIF.
    pub condition: Expression,
    /// After THEN.
    pub statements: List<Statement>,
}

/// A case: its labels, and what runs where the selector has one of them.
#[cycle(statement)]
#[derive(Drop)]
pub struct CaseElement {
    /// The labels, as they are written.
    pub labels: List<Label>,
    /// After the colon.
    pub statements: List<Statement>,
}

/// A label of a case.
#[derive(Drop)]
pub enum Label {
    /// One value.
    Value(Constant),
    /// All values from the first to the second.
    Range(Boxed<Constant>, Boxed<Constant>),
}
