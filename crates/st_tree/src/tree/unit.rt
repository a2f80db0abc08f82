//! Units: types, functions, function blocks and programs (2.5), and charts (2.6).
use crate::list::List;
use crate::tree::constant::Duration;
use crate::tree::declaration::{DeclaredType, VarBlock};
use crate::tree::expression::Expression;
use crate::tree::position::{Identifier, Position};
use crate::tree::statement::Statement;
use st_values::Elem;

/// A unit of a text.
#[derive(Drop)]
pub enum Unit {
    /// `TYPE`: the types that it declares.
    Types(Position, List<TypeDeclaration>),
    Function(Function),
    FunctionBlock(Pou),
    Program(Pou),
}

/// A declared type.
#[derive(Drop)]
pub struct TypeDeclaration {
    pub name: Identifier,
    /// What it stands for.
    pub declared: DeclaredType,
}

/// A function (2.5.1).
#[derive(Drop)]
pub struct Function {
    /// Where it begins.
    pub position: Position,
    /// Its name, which is also that of its result.
    pub name: Identifier,
    /// The type of its result.
    pub result: Elem,
    pub variables: List<VarBlock>,
    /// What it does.
    pub statements: List<Statement>,
}

/// A function block or a program: an organization unit with variables that last (2.5.2, 2.5.3).
#[derive(Drop)]
pub struct Pou {
    /// Where it begins.
    pub position: Position,
    pub name: Identifier,
    pub variables: List<VarBlock>,
    /// What it does.
    pub body: Body,
}

/// What a function block or a program does.
#[derive(Drop)]
pub enum Body {
    /// Statements, or nothing.
    Statements(List<Statement>),
    /// A chart, of at least one element.
    Chart(List<ChartElement>),
}

/// An element of a sequential function chart (2.6).
#[derive(Drop)]
pub enum ChartElement {
    Step(Step),
    Transition(Transition),
    Action(Action),
}

/// A step (2.6.2).
#[derive(Drop)]
pub struct Step {
    /// Where it begins.
    pub position: Position,
    /// Whether it is an initial step.
    pub is_initial: bool,
    pub name: Identifier,
    /// The actions that it is associated with.
    pub associations: List<Association>,
}

/// An association of a step with an action, or with a BOOL variable (2.6.4.3).
#[derive(Drop)]
pub struct Association {
    /// The action or the variable.
    pub name: Identifier,
    /// How the step controls it. Without a qualifier it is N.
    pub qualifier: Option<ActionQualifier>,
}

/// A qualifier, as `N` (2.6.4.4).
#[derive(Drop)]
pub struct ActionQualifier {
    /// Its letter.
    pub name: Identifier,
    /// Its duration, where one is written.
    pub duration: Option<Duration>,
}

/// A transition (2.6.3).
#[derive(Drop)]
pub struct Transition {
    /// Where it begins.
    pub position: Position,
    /// Its name, where it has one.
    pub name: Option<Identifier>,
    /// Its priority, where one is written. Lower numbers go first.
    pub priority: Option<u128>,
    /// The steps that precede it.
    pub from: List<Identifier>,
    /// The steps that follow it.
    pub to: List<Identifier>,
    /// Whether it may be cleared.
    pub condition: Expression,
}

/// An action (2.6.4).
#[derive(Drop)]
pub struct Action {
    /// Where it begins.
    pub position: Position,
    pub name: Identifier,
    /// What it does.
    pub statements: List<Statement>,
}
