//! The trees of programs, in the terms of the standard's grammar (IEC 61131-3:2003, annex B).
//!
//! A node keeps the position of its first token, unless a part that begins there does. Names are spelled as in the text.
mod constant;
mod declaration;
mod expression;
mod position;
mod search;
mod statement;
mod unit;

pub use constant::{Constant, Duration, SignedInteger};
pub use declaration::{
    ArrayElement, Declaration, DeclaredType, Initial, Specification, Subrange, TypeName, VarBlock,
    VarKind,
};
pub use expression::{Argument, Call, Expression, Operation, Part, Variable};
pub use position::{Identifier, Position};
pub use search::{has_call, has_exit};
pub use statement::{
    CaseElement, CaseStatement, ConditionalPart, ForStatement, IfStatement, Label, RepeatStatement,
    Statement, WhileStatement,
};
pub use unit::{
    Action, ActionQualifier, Association, Body, ChartElement, Function, Pou, Step, Transition,
    TypeDeclaration, Unit,
};
