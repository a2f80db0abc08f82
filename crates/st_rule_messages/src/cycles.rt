//! What is said of units that contain or call themselves.

use crate::cause::Cause;
use crate::rows::tell;
use st_messages::{Draft, Slot, push_quoted};
use st_references::references;
use st_scopes::Tables;
use st_tree::List;
use st_types::UnitKind;
use std::alloc::{AllocError, Global};

/// The most units of a cycle that are named.
const MAX_NAMED: usize = 8;

/// Names a shortest way on which the unit of this number contains or calls itself.
pub fn explain_recursion(
    alloc: Global,
    draft: &mut Draft,
    tables: &Tables<'_>,
    unit: usize,
) -> Result<(), AllocError> {
    let graph = references(alloc, tables)?;
    let way = way_back(alloc, &graph, unit)?;
    let name = Slot::Name(unit_name(tables, unit));
    if let [_] = way.as_slice() {
        tell(draft, own_cause(is_function(tables, unit)), &[name]);
    } else {
        let text = way_text(alloc, tables, unit, &way)?;
        let slots = [name, Slot::Words(text.as_str())];
        tell(draft, way_cause(tables, &way), &slots);
    }
    Ok(())
}

/// How a unit leads back to itself, behind its name.
fn way_text(
    alloc: Global,
    tables: &Tables<'_>,
    unit: usize,
    way: &[usize],
) -> Result<String, AllocError> {
    let mut text = String::new(alloc);
    for (place, next) in way.iter().take(MAX_NAMED).enumerate() {
        text.push_str(if place == 0 { "" } else { ", which" })?;
        text.push_str(verb(tables, *next))?;
        push_quoted(&mut text, unit_name(tables, *next))?;
        if *next != unit {
            push_line_of(&mut text, tables, *next)?;
        }
    }
    if way.len() > MAX_NAMED {
        text.push_str(", and so on back to itself")?;
    }
    Ok(text)
}

/// How a unit is used, between what uses it and its name.
fn verb(tables: &Tables<'_>, unit: usize) -> &'static str {
    if is_function(tables, unit) {
        " calls "
    } else {
        " contains "
    }
}

/// What is wrong with a unit that leads to itself at once.
fn own_cause(is_function: bool) -> Cause {
    if is_function {
        Cause::CallsItself
    } else {
        Cause::ContainsItself
    }
}

/// What is wrong with a way on which a unit leads back to itself.
fn way_cause(tables: &Tables<'_>, way: &[usize]) -> Cause {
    if way.iter().all(|next| is_function(tables, *next)) {
        Cause::WayOfCalls
    } else {
        Cause::WayOfUnits
    }
}

/// Puts in which line a unit has its name at the end of a text.
fn push_line_of(text: &mut String, tables: &Tables<'_>, unit: usize) -> Result<(), AllocError> {
    match tables.units().get(unit) {
        Some(found) => {
            let line = found.name.position.line;
            write!(text, " (line {line})")
        }
        None => Ok(()),
    }
}

/// The name of a unit.
fn unit_name<'b>(tables: &'b Tables<'_>, unit: usize) -> &'b [u8] {
    match tables.units().get(unit) {
        Some(found) => found.name.spelling.as_slice(),
        None => b"",
    }
}

/// Whether a unit is a function.
fn is_function(tables: &Tables<'_>, unit: usize) -> bool {
    match tables.units().get(unit) {
        Some(found) => matches!(found.kind, UnitKind::Function(_)),
        None => false,
    }
}

/// A shortest way from a row back to itself: the rows behind it, itself last. There is none where it doesn't reach itself.
fn way_back(alloc: Global, graph: &[List<usize>], row: usize) -> Result<Vec<usize>, AllocError> {
    let mut met = Vec::new(alloc);
    let mut from = Vec::from_elem(alloc, None, graph.len())?;
    meet(graph, row, &mut met, &mut from)?;
    for place in 0..graph.len() {
        if let Some(next) = met.get(place).copied() {
            meet(graph, next, &mut met, &mut from)?;
        }
    }
    way_to(alloc, &from, row)
}

/// Meets the rows that a row refers to, but those that were met before.
fn meet(
    graph: &[List<usize>],
    row: usize,
    met: &mut Vec<usize>,
    from: &mut Vec<Option<usize>>,
) -> Result<(), AllocError> {
    let Some(references) = graph.get(row) else {
        return Ok(());
    };
    for next in references.as_slice() {
        if let Some(before) = from.get_mut(*next)
            && before.is_none()
        {
            *before = Some(row);
            met.push(*next)?;
        }
    }
    Ok(())
}

/// The way on which a row was met from itself, where each row was met from this one.
fn way_to(alloc: Global, from: &[Option<usize>], row: usize) -> Result<Vec<usize>, AllocError> {
    let mut way = Vec::new(alloc);
    let mut at = row;
    for _ in 0..from.len() {
        let Some(before) = from.get(at).copied().flatten() else {
            return Ok(way);
        };
        way.push(at)?;
        if before == row {
            way.reverse();
            return Ok(way);
        }
        at = before;
    }
    Ok(way)
}
