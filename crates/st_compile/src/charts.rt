//! The charts of a program as the numbers that a machine runs.
ghost use Rattle.std.specs.Option.{is_some};
ghost use Rattle.std.specs.Prelude.{[], ◌≡◌, ◌==◌, ◌||◌, IfOk, None, if◌then◌else◌, length, map};
ghost use Rattle.st_check.specs.Programs.{text_of};
ghost use Rattle.st_leaves.specs.Bounds.{HasBounds};
ghost use Rattle.st_meaning.specs.Offsets.{IsSmall};
ghost use Rattle.st_meaning.specs.Sketched.{variable_named};
ghost use Rattle.st_meaning.specs.Typing.{body_in};
ghost use Rattle.st_places.specs.Parts.{is_small_block_in, whole_in};
ghost use Rattle.st_types.specs.Names.{units_of};
ghost use Rattle.st_compile.specs.Programs.{chart_view, program_charts};

use st_check::{Program, checked_program_is_small};
use st_leaves::AssociatedNames;
use st_meaning::{Sketch, sketch_of};
use st_places::{Tables, units_are_sound};
use st_values::Elem;
use std::alloc::{AllocError, Global};

/// The charts of a program's own body and of its function blocks, by the numbers of its units, of which there are so many. They are
/// refused for want of memory alone.
pub(crate) fn charts_of(
    alloc: Global,
    program: &Program,
    tables: &Tables<'_>,
    units: usize,
) -> Result<Vec<Option<Sketch>>, AllocError>
    requires tables { tables.now.text ≡ text_of program.now }
    requires units { units ≡ length (units_of (text_of program.now)) }
    ensures { IfOk result (λ charts. charts.items ≡ program_charts program.now) }
{
    checked_program_is_small();
    units_are_sound();
    let main = program.main();
    let mut charts = Vec::with_capacity(alloc, units)?;
    'units: for number in 0..units {
        charts.push(chart_of(alloc, tables, number, main)?)?;
    }
    Ok(charts)
}

/// The chart of the unit of this number, where the unit is the main one or a function block that a program has room for, and its body
/// is a chart.
fn chart_of(
    alloc: Global,
    tables: &Tables<'_>,
    number: usize,
    main: usize,
) -> Result<Option<Sketch>, AllocError>
    requires bounds { HasBounds (whole_in tables.now number).variables }
    requires small { number ≡ main → IsSmall (whole_in tables.now number).variables }
    ensures { IfOk result (λ chart. chart ≡ (if number == main
        || is_small_block_in tables.now number
        then chart_view (body_in (whole_in tables.now number) number []) else None)) }
{
    if number == main || tables.is_small_block(number) {
        body_chart(alloc, tables, number)
    } else {
        Ok(None)
    }
}

/// The chart of the unit of this number, where its body is one.
fn body_chart(
    alloc: Global,
    tables: &Tables<'_>,
    number: usize,
) -> Result<Option<Sketch>, AllocError>
    requires { IsSmall (whole_in tables.now number).variables }
    ensures { IfOk result (λ chart. chart ≡ chart_view
        (body_in (whole_in tables.now number) number [])) }
{
    let elements = tables.chart(number);
    if elements.is_empty() {
        return Ok(None);
    }
    let names = AssociatedNames::of(alloc, elements)?;
    let variables = bool_variables(alloc, tables, number, &names)?;
    let sketch = sketch_of(alloc, elements, &names, variables)?;
    Ok(Some(sketch))
}

/// Of each of these names, whether it is a BOOL variable of the unit of this number.
fn bool_variables(
    alloc: Global,
    tables: &Tables<'_>,
    unit: usize,
    names: &AssociatedNames<'_>,
) -> Result<Vec<bool>, AllocError>
    requires { IsSmall (whole_in tables.now unit).variables }
    ensures { IfOk result (λ variables. variables.items
        ≡ map (λ n. is_some (variable_named (whole_in tables.now unit).variables n)) names.now) }
{
    let mut variables = Vec::with_capacity(alloc, names.len())?;
    'names: for number in 0..names.len() {
        variables.push(is_bool_variable(tables, unit, names.name(number)))?;
    }
    Ok(variables)
}

/// Whether the name is a BOOL variable of the unit of this number.
fn is_bool_variable(tables: &Tables<'_>, unit: usize, name: &[u8]) -> bool
    requires { IsSmall (whole_in tables.now unit).variables }
    ensures { result ≡ is_some (variable_named (whole_in tables.now unit).variables name.now) }
{
    let root = tables.root(unit);
    match tables.select(root, name) {
        Some((_, node)) => matches!(tables.value(node), Some(Elem::Bool)),
        None => false,
    }
}
