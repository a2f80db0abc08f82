//! How many cells of the stack a body needs at most, by its structure. `inputs` is how many inputs a function of the text takes at most.
ghost use Rattle.std.specs.Prelude.{◌≡◌, None, Some, length, map, min, true};
ghost use Rattle.std.specs.List.{flat_map};
ghost use Rattle.st_code.specs.Depths.{action_depth, argument_depths, branch_depth, call_depth, called_cells, case_depth, chart_depth, condition_depths, element_depth, expression_depth, for_depth, if_depth, in_turn, invocation_depth, is_choice, most, move_depth, operation_depth, part_depth, place_depth, repeat_depth, statement_depth, statements_depth, step_depth, unit_depth, unnamed_cells, while_depth};
ghost use Rattle.st_leaves.specs.Charts.{associations_of};
ghost use Rattle.st_types.specs.Names.{actions_in, steps_in};
ghost use Rattle.st_types.specs.Standard.{standard_of};

use st_tree::Boxed;
use st_tree::tree::{
    Argument, Body, Call, CaseElement, CaseStatement, ChartElement, ConditionalPart, Expression,
    ForStatement, IfStatement, Operation, Part, RepeatStatement, Statement, Variable,
    WhileStatement,
};
use st_types::{Standard, StandardFunction, standard_of};

/// How many cells the body of a unit needs, be it statements or a chart. The number stops at the greatest `usize`.
pub fn body_depth(body: &Body, inputs: usize) -> usize
    ensures { result ≡ min (unit_depth inputs body.now) usize.MAX }
{
    match body {
        Body::Statements(statements) => statements_depth(statements.as_slice(), inputs),
        Body::Chart(elements) => chart_depth(elements.as_slice(), inputs),
    }
}

/// Of a chart of these elements: its conditions, or a number for each action and what stands above those.
fn chart_depth(elements: &[ChartElement], inputs: usize) -> usize
    ensures { result ≡ min (chart_depth inputs elements.now) usize.MAX }
{
    let above = count_associations(elements).max(actions_depth(elements, inputs));
    conditions_depth(elements, inputs).max(above.saturating_add(count_actions(elements)))
}

/// Of the conditions of transitions, which all stay on the stack, one above the other.
fn conditions_depth(elements: &[ChartElement], inputs: usize) -> usize
    ensures { result ≡ min (in_turn true 0 (flat_map (condition_depths inputs) elements.now))
        usize.MAX }
{
    let mut depth = 0;
    let mut below = 0;
    'items: for item in elements {
        if let ChartElement::Transition(transition) = item {
            depth = expression_depth(&transition.condition, inputs)
                .saturating_add(below)
                .max(depth);
            below += 1;
        }
    }
    depth
}

/// Of the action that needs the most.
fn actions_depth(elements: &[ChartElement], inputs: usize) -> usize
    ensures { result ≡ min (most (map (action_depth inputs) (flat_map actions_in elements.now)))
        usize.MAX }
{
    let mut depth = 0;
    'items: for item in elements {
        if let ChartElement::Action(action) = item {
            depth = statements_depth(action.statements.as_slice(), inputs).max(depth);
        }
    }
    depth
}

/// How many actions there are.
fn count_actions(elements: &[ChartElement]) -> usize
    ensures { result ≡ length (flat_map actions_in elements.now) }
{
    let mut count = 0;
    'items: for item in elements {
        if let ChartElement::Action(_) = item {
            count += 1;
        }
    }
    count
}

/// How many associations the steps have.
fn count_associations(elements: &[ChartElement]) -> usize
    ensures { result ≡ min (length (associations_of (flat_map steps_in elements.now))) usize.MAX }
{
    let mut count: usize = 0;
    'items: for item in elements {
        if let ChartElement::Step(step) = item {
            count = count.saturating_add(step.associations.len());
        }
    }
    count
}

/// How many cells statements need. The number stops at the greatest `usize`.
#[cycle(statement_depth)]
pub fn statements_depth(statements: &[Statement], inputs: usize) -> usize
    ensures { result ≡ min (statements_depth inputs statements.now) usize.MAX }
{
    let mut depth = 0;
    'items: for item in statements {
        depth = statement_depth(item, inputs).max(depth);
    }
    depth
}

#[cycle(statement_depth)]
fn statement_depth(statement: &Statement, inputs: usize) -> usize
    ensures { result ≡ min (statement_depth inputs statement.now) usize.MAX }
{
    match statement {
        Statement::Empty(_) | Statement::Return(_) | Statement::Exit(_) => 0,
        Statement::Assignment(variable, value) => {
            expression_depth(value.get(), inputs).max(place_depth(
                variable.get(),
                inputs,
            ).saturating_add(1))
        }
        Statement::Call(call) => invocation_depth(call.get(), inputs),
        Statement::If(found) => if_depth(found.get(), inputs),
        Statement::Case(found) => case_depth(found.get(), inputs),
        Statement::For(found) => for_depth(found.get(), inputs),
        Statement::While(found) => while_depth(found.get(), inputs),
        Statement::Repeat(found) => repeat_depth(found.get(), inputs),
    }
}

#[cycle(statement_depth)]
fn if_depth(statement: &IfStatement, inputs: usize) -> usize
    ensures { result ≡ min (if_depth inputs statement.now) usize.MAX }
{
    branches_depth(statement.parts.as_slice(), inputs).max(statements_depth(
        statement.otherwise.as_slice(),
        inputs,
    ))
}

#[cycle(statement_depth)]
fn branches_depth(branches: &[ConditionalPart], inputs: usize) -> usize
    ensures { result ≡ min (most (map (branch_depth inputs) branches.now)) usize.MAX }
{
    let mut depth = 0;
    'items: for item in branches {
        depth = branch_depth(item, inputs).max(depth);
    }
    depth
}

#[cycle(statement_depth)]
fn branch_depth(branch: &ConditionalPart, inputs: usize) -> usize
    ensures { result ≡ min (branch_depth inputs branch.now) usize.MAX }
{
    expression_depth(&branch.condition, inputs).max(statements_depth(
        branch.statements.as_slice(),
        inputs,
    ))
}

#[cycle(statement_depth)]
fn case_depth(statement: &CaseStatement, inputs: usize) -> usize
    ensures { result ≡ min (case_depth inputs statement.now) usize.MAX }
{
    expression_depth(statement.selector.get(), inputs)
        .max(elements_depth(statement.cases.as_slice(), inputs))
        .max(statements_depth(statement.otherwise.as_slice(), inputs))
}

#[cycle(statement_depth)]
fn elements_depth(elements: &[CaseElement], inputs: usize) -> usize
    ensures { result ≡ min (most (map (element_depth inputs) elements.now)) usize.MAX }
{
    let mut depth = 0;
    'items: for item in elements {
        depth = element_depth(item, inputs).max(depth);
    }
    depth
}

#[cycle(statement_depth)]
fn element_depth(element: &CaseElement, inputs: usize) -> usize
    ensures { result ≡ min (element_depth inputs element.now) usize.MAX }
{
    statements_depth(element.statements.as_slice(), inputs).max(4)
}

#[cycle(statement_depth)]
fn for_depth(statement: &ForStatement, inputs: usize) -> usize
    ensures { result ≡ min (for_depth inputs statement.now) usize.MAX }
{
    expression_depth(statement.first.get(), inputs)
        .max(expression_depth(statement.last.get(), inputs).saturating_add(1))
        .max(step_depth(&statement.step, inputs).saturating_add(2))
        .max(statements_depth(statement.statements.as_slice(), inputs).saturating_add(3))
}

#[cycle(statement_depth)]
fn while_depth(statement: &WhileStatement, inputs: usize) -> usize
    ensures { result ≡ min (while_depth inputs statement.now) usize.MAX }
{
    expression_depth(statement.condition.get(), inputs).max(statements_depth(
        statement.statements.as_slice(),
        inputs,
    ))
}

#[cycle(statement_depth)]
fn repeat_depth(statement: &RepeatStatement, inputs: usize) -> usize
    ensures { result ≡ min (repeat_depth inputs statement.now) usize.MAX }
{
    expression_depth(statement.condition.get(), inputs).max(statements_depth(
        statement.statements.as_slice(),
        inputs,
    ))
}

fn invocation_depth(call: &Call, inputs: usize) -> usize
    ensures { result ≡ min (invocation_depth inputs call.now) usize.MAX }
{
    let mut depth = 0;
    'items: for item in call.arguments.as_slice() {
        depth = move_depth(item, inputs).max(depth);
    }
    depth
}

/// Of an input that is stored, or an output that is assigned.
fn move_depth(argument: &Argument, inputs: usize) -> usize
    ensures { result ≡ min (move_depth inputs argument.now) usize.MAX }
{
    match argument {
        Argument::Positional(_) => 0,
        Argument::Input(_, value) => expression_depth(value.get(), inputs).max(1),
        Argument::Output(_, variable) => place_depth(variable.get(), inputs).saturating_add(1),
    }
}

fn step_depth(step: &Option<Boxed<Expression>>, inputs: usize) -> usize
    ensures { result ≡ min (step_depth inputs step.now) usize.MAX }
{
    match step {
        None => 1,
        Some(value) => expression_depth(value.get(), inputs),
    }
}

#[cycle(expression_depth)]
fn expression_depth(expression: &Expression, inputs: usize) -> usize
    ensures { result ≡ min (expression_depth inputs expression.now) usize.MAX }
{
    match expression {
        Expression::Constant(_) => 1,
        Expression::Variable(variable) => place_depth(variable, inputs).max(1),
        Expression::Call(call) => call_depth(call, inputs),
        Expression::Parenthesized(_, operand)
        | Expression::Negate(_, operand)
        | Expression::Not(_, operand) => expression_depth(operand.get(), inputs),
        Expression::Chain(_, first, operations) => {
            expression_depth(first.get(), inputs).max(operations_depth(
                operations.as_slice(),
                inputs,
            ))
        }
    }
}

#[cycle(expression_depth)]
fn operations_depth(operations: &[Operation], inputs: usize) -> usize
    ensures { result ≡ min (most (map (operation_depth inputs) operations.now)) usize.MAX }
{
    let mut depth = 0;
    'items: for item in operations {
        depth = operation_depth(item, inputs).max(depth);
    }
    depth
}

#[cycle(expression_depth)]
fn operation_depth(operation: &Operation, inputs: usize) -> usize
    ensures { result ≡ min (operation_depth inputs operation.now) usize.MAX }
{
    expression_depth(&operation.operand, inputs).saturating_add(1)
}

/// Of the place of a variable.
#[cycle(expression_depth)]
fn place_depth(variable: &Variable, inputs: usize) -> usize
    ensures { result ≡ min (place_depth inputs variable.now) usize.MAX }
{
    parts_depth(variable.parts.as_slice(), inputs)
}

#[cycle(expression_depth)]
fn parts_depth(parts: &[Part], inputs: usize) -> usize
    ensures { result ≡ min (most (map (part_depth inputs) parts.now)) usize.MAX }
{
    let mut depth = 0;
    'items: for item in parts {
        depth = part_depth(item, inputs).max(depth);
    }
    depth
}

#[cycle(expression_depth)]
fn part_depth(part: &Part, inputs: usize) -> usize
    ensures { result ≡ min (part_depth inputs part.now) usize.MAX }
{
    match part {
        Part::Field(_) => 0,
        Part::Subscripts(_, subscripts) => subscripts_depth(subscripts.as_slice(), inputs)
            .saturating_add(1)
            .max(2),
    }
}

/// Of values that stay on the stack, one above the other.
#[cycle(expression_depth)]
fn subscripts_depth(subscripts: &[Expression], inputs: usize) -> usize
    ensures { result ≡ min (in_turn true 0 (map (expression_depth inputs) subscripts.now))
        usize.MAX }
{
    let mut depth = 0;
    'items: for (below, item) in subscripts.iter().enumerate() {
        depth = expression_depth(item, inputs)
            .saturating_add(below)
            .max(depth);
    }
    depth
}

#[cycle(expression_depth)]
fn call_depth(call: &Call, inputs: usize) -> usize
    ensures { result ≡ min (call_depth inputs call.now) usize.MAX }
{
    let arguments = call.arguments.as_slice();
    match standard_of(call.name.spelling.as_slice()) {
        Some(standard) => unnamed_depth(arguments, is_choice(standard), inputs).max(1),
        None => passed_depth(arguments, inputs),
    }
}

/// Of the arguments of a standard function, those that are written without a name. They all stay on the stack, or only what one
/// number is made of.
#[cycle(expression_depth)]
fn unnamed_depth(arguments: &[Argument], stay: bool, inputs: usize) -> usize
    ensures { result ≡ min (in_turn stay 0 (unnamed_cells
        (flat_map (λ a. a) (map (argument_depths inputs) arguments.now)))) usize.MAX }
{
    let mut depth = 0;
    let mut below = 0;
    'items: for item in arguments {
        if let Argument::Positional(value) = item {
            depth = expression_depth(value, inputs)
                .saturating_add(below)
                .max(depth);
            below = if stay { below + 1 } else { 1 };
        }
    }
    depth
}

/// Of the arguments of a function of the text, which all stay on the stack, and of the inputs above them.
#[cycle(expression_depth)]
fn passed_depth(arguments: &[Argument], inputs: usize) -> usize
    ensures { result ≡ min (called_cells inputs None
        (flat_map (λ a. a) (map (argument_depths inputs) arguments.now))) usize.MAX }
{
    let mut depth = 0;
    let mut below = 0;
    'items: for item in arguments {
        match item {
            Argument::Positional(value) => {
                depth = expression_depth(value, inputs)
                    .saturating_add(below)
                    .max(depth);
                below += 1;
            }
            Argument::Input(_, value) => {
                depth = expression_depth(value.get(), inputs)
                    .saturating_add(below)
                    .max(depth);
                below += 1;
            }
            Argument::Output(_, _) => {}
        }
    }
    depth.max(below.saturating_add(inputs).saturating_add(1))
}

/// Whether the values of the call are all known before one of them is taken.
fn is_choice(standard: Standard) -> bool
    ensures { result ≡ is_choice (Some standard) }
{
    matches!(standard, Standard::Function(StandardFunction::Sel))
}
