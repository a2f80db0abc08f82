//! What stands at a token of a tree, and what is due there.

use st_check_expressions::literal_position;
use st_tree::tree::{
    Association, Call, Constant, Expression, Identifier, Position, SignedInteger, Variable,
};
use st_types::Due;
use std::alloc::AllocError;

/// What stands at a token that is named as the place of a fault.
#[derive(Clone, Copy)]
pub enum Site<'t> {
    /// An expression that begins there, where this is due.
    Expression(&'t Expression, Due),
    /// A variable that takes a value.
    Target(&'t Variable),
    /// The part of this number of a variable, from 0: a member or subscripts.
    Part(&'t Variable, usize),
    /// What a statement calls.
    Call(&'t Call),
    /// The variable that FOR counts.
    Counter(&'t Identifier),
    /// EXIT.
    Exit,
    /// A label, where the selector has this type.
    Label(&'t Constant, Due),
    /// An initial value, where this is due.
    Initial(&'t Constant, Due),
    /// A bound of a subscript: the lower one, or the upper one with the lower one before it.
    Bound(&'t SignedInteger, Option<&'t SignedInteger>),
    /// A name of a type.
    Type(&'t Identifier),
    /// A name that is declared.
    Declared(&'t Identifier),
    /// What a step is associated with.
    Association(&'t Association),
    /// A step that is declared.
    Step(&'t Identifier),
    /// A step that a transition names.
    StepName(&'t Identifier),
    /// The name of a unit.
    Unit,
}

/// Why a search for what stands at a token ends.
#[derive(Clone, Copy)]
pub enum Stop<'t> {
    /// This stands there.
    At(Site<'t>),
    /// There is no memory to go on.
    Memory,
}

impl<'t> From<AllocError> for Stop<'t> {
    fn from(_: AllocError) -> Stop<'t> {
        Stop::Memory
    }
}

/// What comes of a search: it goes on where the token isn't here, and else it ends.
pub type Search<'t> = Result<(), Stop<'t>>;

/// Ends a search with this, where it stands at the token of this number.
pub fn stop_at<'t>(at: u32, position: Position, site: Site<'t>) -> Search<'t> {
    if position.number == at {
        Err(Stop::At(site))
    } else {
        Ok(())
    }
}

/// Where an expression begins.
pub fn position_of(expression: &Expression) -> Position {
    match expression {
        Expression::Constant(constant) => literal_position(constant),
        Expression::Variable(variable) => variable.name.position,
        Expression::Call(call) => call.name.position,
        Expression::Parenthesized(position, _)
        | Expression::Negate(position, _)
        | Expression::Not(position, _)
        | Expression::Chain(position, _, _) => *position,
    }
}
