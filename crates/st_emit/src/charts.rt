//! The code of charts (2.6), from the last instruction to the first.
ghost use Rattle.std.specs.Prelude.{◌≡◌, ◌++◌, [], IfOk, OnOk, length, map, option_map, reverse};
ghost use Rattle.std.specs.List.{flat_map};
ghost use Rattle.st_meaning.specs.Offsets.{IsSmall};
ghost use Rattle.st_meaning.specs.Sketched.{transitions_in, variable_named};
ghost use Rattle.st_meaning.specs.Steps.{chart_within};
ghost use Rattle.st_meaning.specs.Terms.{field_part, whole};
ghost use Rattle.st_meaning.specs.Typing.{body_in};
ghost use Rattle.st_code.specs.Code.{actions_code, base_of, code_of, tests_code, variables_code};
ghost use Rattle.st_places.specs.Parts.{whole_in};
ghost use Rattle.st_meaning.specs.Views.{names_of};
ghost use Rattle.st_emit.specs.Charts.{action_code, acts_in, test_code, tests_in};
ghost use Rattle.st_emit_expressions.specs.Trees.{whole_of};

use crate::statements::emit_statements;
use st_code::{Code, Instr};
use st_emit_expressions::{Scope, emit_expression, narrow, place_named};
use st_leaves::AssociatedNames;
use st_places::Tables;
use st_tree::tree::{Action, ChartElement, Transition};
use st_values::Elem;
use std::alloc::{AllocError, Global};

/// The code of the chart of the unit of this number, which has these elements, and whose steps are associated with these names. It is
/// refused for want of memory alone, as which a number counts that an instruction has no room for.
pub fn emit_chart(
    alloc: Global,
    tables: &Tables<'_>,
    unit: usize,
    elements: &[ChartElement],
    names: &AssociatedNames<'_>,
) -> Result<Code, AllocError>
    requires small { IsSmall (whole_in tables.now unit).variables }
    requires elements { elements.now ≡ chart_within (whole_in tables.now unit).variables }
    requires names { names.now ≡ names_of elements.now }
    ensures { IfOk result (λ code. code ≡ code_of (whole_in tables.now unit).variables
        (body_in (whole_in tables.now unit) unit [])) }
{
    let mut code = Code::new(alloc);
    if elements.is_empty() {
        return Ok(code);
    }
    let scope = Scope::new(alloc, tables, unit);
    let number = narrow(unit)?;
    let leaf = scope.chart_leaf();
    emit_actions(&mut code, &scope, elements)?;
    emit_variables(&mut code, &scope, names)?;
    code.push(Instr::Chart(number, leaf), 0)?;
    emit_tests(&mut code, &scope, number, leaf, elements)?;
    code.push(Instr::Times(number, leaf), 0)?;
    code.reverse();
    Ok(code)
}

/// The actions among elements, each of which is skipped where it isn't on.
fn emit_actions(
    code: &mut Code,
    scope: &Scope<'_>,
    elements: &[ChartElement],
) -> Result<(), AllocError>
    ensures { OnOk result (code.new ≡ code.old ++ reverse
        (actions_code (whole_of scope.now).variables (acts_in (whole_of scope.now) elements.now))) }
{
    let mut left = 0;
    let mut i = elements.len();
    while i > 0 {
        i -= 1;
        match &elements[i] {
            ChartElement::Action(action) => {
                left += 1;
                emit_action(code, scope, narrow(left)?, action)?;
            }
            ChartElement::Step(_) | ChartElement::Transition(_) => {}
        }
    }
    Ok(())
}

/// An action, where so many are left with it. RETURN goes to its end.
fn emit_action(
    code: &mut Code,
    scope: &Scope<'_>,
    left: u32,
    action: &Action,
) -> Result<(), AllocError>
    ensures { OnOk result (code.new ≡ code.old ++ reverse
        (action_code (whole_of scope.now) left action.now)) }
{
    let end = code.len();
    emit_statements(code, scope, action.statements.as_slice(), end, end)?;
    let distance = code.len() - end;
    code.push(Instr::SkipUnless(distance), 0)?;
    code.push(Instr::Cut(left), 0)
}

/// Stores whether each of the names is on that is a BOOL variable.
fn emit_variables(
    code: &mut Code,
    scope: &Scope<'_>,
    names: &AssociatedNames<'_>,
) -> Result<(), AllocError>
    ensures { OnOk result (code.new ≡ code.old ++ reverse
        (variables_code (whole_of scope.now).variables
        (map (variable_named (whole_of scope.now).variables) names.now))) }
{
    let mut number = names.len();
    while number > 0 {
        number -= 1;
        let Some(leaf) = bool_named(scope, names.name(number)) else {
            continue;
        };
        code.push(Instr::Put(Elem::Bool, leaf), 0)?;
    }
    Ok(())
}

/// The leaf of the BOOL variable of this name.
fn bool_named(scope: &Scope<'_>, name: &[u8]) -> Option<u32>
    ensures { result ≡ option_map (λ n. base_of (whole_of scope.now).variables (field_part n whole))
        (variable_named (whole_of scope.now).variables name.now) }
{
    let (elem, leaf) = place_named(scope, name)?;
    if elem.is(Elem::Bool) {
        Some(leaf)
    } else {
        None
    }
}

/// The conditions of the transitions among elements, in the chart of this unit, the first leaf of which is this one.
fn emit_tests(
    code: &mut Code,
    scope: &Scope<'_>,
    unit: u32,
    leaf: u32,
    elements: &[ChartElement],
) -> Result<(), AllocError>
    ensures { OnOk result (code.new ≡ code.old ++ reverse
        (tests_code (whole_of scope.now).variables unit leaf 0
        (tests_in (whole_of scope.now) elements.now))) }
{
    let mut number = narrow(transition_count(elements))?;
    let mut i = elements.len();
    while i > 0 {
        i -= 1;
        match &elements[i] {
            ChartElement::Transition(transition) => {
                number -= 1;
                emit_test(code, scope, unit, leaf, number, transition)?;
            }
            ChartElement::Step(_) | ChartElement::Action(_) => {}
        }
    }
    Ok(())
}

/// How many transitions there are among elements.
fn transition_count(elements: &[ChartElement]) -> usize
    ensures { result ≡ length (flat_map transitions_in elements.now) }
{
    let mut count = 0;
    for element in elements {
        match element {
            ChartElement::Transition(_) => count += 1,
            ChartElement::Step(_) | ChartElement::Action(_) => {}
        }
    }
    count
}

/// The condition of the transition of this number, which is evaluated where the chart asks for it.
fn emit_test(
    code: &mut Code,
    scope: &Scope<'_>,
    unit: u32,
    leaf: u32,
    number: u32,
    transition: &Transition,
) -> Result<(), AllocError>
    ensures { OnOk result (code.new ≡ code.old ++ reverse
        (test_code (whole_of scope.now) unit leaf number transition.now)) }
{
    code.push(Instr::Push(0), 0)?;
    let start = code.len();
    code.push(Instr::GoOn(1), 0)?;
    emit_expression(code, scope, &transition.condition, Elem::Bool)?;
    code.push(Instr::Step, transition.position.line)?;
    let distance = code.len() - start;
    code.push(Instr::SkipUnless(distance), 0)?;
    code.push(Instr::Ask(unit, leaf, number), 0)
}
