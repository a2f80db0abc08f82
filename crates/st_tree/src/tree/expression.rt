//! Expressions (3.3.1).
use crate::boxed::Boxed;
use crate::list::List;
use crate::operator::BinOp;
use crate::tree::constant::Constant;
use crate::tree::position::{Identifier, Position};

/// An expression.
#[cycle(expression)]
#[derive(Drop)]
pub enum Expression {
    Constant(Constant),
    /// The value of a variable.
    Variable(Variable),
    Call(Call),
    /// An expression in parentheses.
    Parenthesized(Position, Boxed<Expression>),
    /// `-` and its operand, which isn't a number.
    Negate(Position, Boxed<Expression>),
    /// `NOT` and its operand.
    Not(Position, Boxed<Expression>),
    /// Two or more operands of one level: the first, and each further one with the operator before it.
    /// They are taken from left to right.
    Chain(Position, Boxed<Expression>, List<Operation>),
}

/// An operator and its right operand.
#[cycle(expression)]
#[derive(Drop)]
pub struct Operation {
    /// Where the operator stands.
    pub position: Position,
    pub operator: BinOp,
    /// The operand after it.
    pub operand: Expression,
}

/// A variable, or a part of one (2.4.1).
#[cycle(expression)]
#[derive(Drop)]
pub struct Variable {
    /// The name that is declared.
    pub name: Identifier,
    /// Which part of it, from the outside in.
    pub parts: List<Part>,
}

/// What selects a part of a structured or array variable.
#[cycle(expression)]
#[derive(Drop)]
pub enum Part {
    /// A member, by its name.
    Field(Identifier),
    /// An element, by its subscripts. The position is that of the `[`.
    Subscripts(Position, List<Expression>),
}

/// A call of a function, or an invocation of an instance of a function block (2.5.1.4, 3.3.2.2).
#[cycle(expression)]
#[derive(Drop)]
pub struct Call {
    /// What is called.
    pub name: Identifier,
    /// The arguments, as they are written.
    pub arguments: List<Argument>,
}

/// An argument of a call.
#[cycle(expression)]
#[derive(Drop)]
pub enum Argument {
    /// A value for the parameter at this position.
    Positional(Expression),
    /// A value for an input, by name.
    Input(Identifier, Boxed<Expression>),
    /// An output, by name, and the variable that takes it.
    Output(Identifier, Boxed<Variable>),
}
