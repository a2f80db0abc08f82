//! What is said of a rule that is broken.
ghost use Rattle.std.specs.Prelude.{◌<◌, length};
ghost use Rattle.st_types.specs.Names.{units_of};

use crate::calls::explain_call;
use crate::cause::Cause;
use crate::charts::explain_chart;
use crate::cycles::explain_recursion;
use crate::limits::explain_limit;
use crate::names::{explain_repeated, explain_unknown, push_listed, tell_near};
use crate::rows::tell;
use st_faults::{Fault, Rule, explanation_of_rule};
use st_messages::{Draft, Lexed, Nearest, Slot, Words};
use st_scopes::Tables;
use st_sites::{in_unit, unit_at};
use st_type_messages::{explain_assigned, explain_range, explain_type};
use st_types::UnitKind;
use std::alloc::{AllocError, Global};

/// What is said of a rule that is broken at a token of a text that is these units.
pub fn explain_rule(
    alloc: Global,
    lexed: Lexed<'_>,
    tables: &Tables<'_>,
    fault: Fault,
) -> Result<Words, AllocError> {
    let mut draft = Draft::new(alloc);
    match unit_at(tables, fault.position.number) {
        Some(number) if number < tables.len() => {
            explain_in(alloc, &mut draft, lexed, tables, number, fault)?;
        }
        _ => {}
    }
    if draft.is_empty() {
        draft.say(explanation_of_rule(fault.rule).title);
    }
    draft.finish()
}

/// Says what there is to say of a rule that is broken at a token of the unit of this number.
fn explain_in(
    alloc: Global,
    draft: &mut Draft,
    lexed: Lexed<'_>,
    tables: &Tables<'_>,
    number: usize,
    fault: Fault,
) -> Result<(), AllocError>
    requires { number < length (units_of tables.now) }
{
    let at = fault.position.number;
    let scope = tables.scope(number);
    let unit = tables.unit(number);
    let site = in_unit(alloc, tables, &scope, at, unit)?;
    match fault.rule {
        Rule::UnknownName => {
            explain_unknown(alloc, draft, lexed, tables, &scope, number, at, site)?;
        }
        Rule::NameTwice => explain_repeated(draft, lexed, tables, number, at),
        Rule::TypeMismatch => {
            explain_type(alloc, draft, lexed, tables, &scope, number, at, site)?;
        }
        Rule::OutOfRange => explain_range(draft, lexed, at, site),
        Rule::NotAssignable => explain_assigned(draft, &scope, site),
        Rule::CallMismatch => explain_call(alloc, draft, lexed, tables, &scope, at, site)?,
        Rule::MalformedChart => explain_chart(alloc, draft, lexed, unit, at, site),
        Rule::Recursion => explain_recursion(alloc, draft, tables, number)?,
        Rule::LimitPassed => explain_limit(alloc, draft, lexed, number, at)?,
        Rule::NoProgram => {}
    }
    Ok(())
}

/// What is said of a text that breaks no rule and has no program of a name.
pub fn explain_no_program(
    alloc: Global,
    tables: &Tables<'_>,
    main: &[u8],
) -> Result<Words, AllocError> {
    let mut draft = Draft::new(alloc);
    let mut nearest = Nearest::new(alloc, main);
    let mut programs = String::new(alloc);
    for unit in tables.units() {
        if let UnitKind::Program(_) = unit.kind {
            push_listed(&mut programs, unit.name.spelling.as_slice())?;
            nearest.offer(unit.name.spelling.as_slice());
        }
    }
    let cause = if programs.is_empty() {
        Cause::NoProgramAtAll
    } else {
        Cause::NoProgram
    };
    let slots = [Slot::Name(main), Slot::Words(programs.as_str())];
    tell(&mut draft, cause, &slots);
    tell_near(&mut draft, Cause::NearProgram, &nearest);
    draft.finish()
}
