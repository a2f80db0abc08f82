//! What is said of malformed charts.

use crate::cause::Cause;
use crate::names::{offer_steps, tell_near};
use crate::rows::tell;
use st_messages::{Draft, Lexed, Nearest, Slot};
use st_sites::Site;
use st_tree::tree::Association;
use st_types::NamedUnit;
use std::alloc::Global;

/// Says how a chart is malformed.
pub fn explain_chart(
    alloc: Global,
    draft: &mut Draft,
    lexed: Lexed<'_>,
    unit: NamedUnit<'_>,
    at: u32,
    site: Option<Site<'_>>,
) {
    match site {
        Some(Site::Unit) => tell(
            draft,
            Cause::NoInitialStep,
            &[Slot::Name(lexed.spelling(at))],
        ),
        Some(Site::Step(name)) => {
            let name = name.spelling.as_slice();
            tell(draft, Cause::SecondInitialStep, &[Slot::Name(name)]);
        }
        Some(Site::StepName(name)) => say_no_step(alloc, draft, unit, name.spelling.as_slice()),
        Some(Site::Association(association)) => say_qualifier(draft, association),
        _ => {}
    }
}

/// Says that a unit has no step of this name, and which one is near.
fn say_no_step(alloc: Global, draft: &mut Draft, unit: NamedUnit<'_>, name: &[u8]) {
    let mut nearest = Nearest::new(alloc, name);
    offer_steps(&mut nearest, unit, false);
    tell(draft, Cause::NoStep, &[Slot::Name(name)]);
    tell_near(draft, Cause::Near, &nearest);
}

/// Says what is wrong with a qualifier.
fn say_qualifier(draft: &mut Draft, association: &Association) {
    if let Some(qualifier) = &association.qualifier {
        let letter = qualifier.name.spelling.as_slice();
        tell(draft, qualifier_cause(letter), &[Slot::Name(letter)]);
    }
}

/// What is wrong with a qualifier that is written so.
fn qualifier_cause(letter: &[u8]) -> Cause {
    match letter {
        b"L" | b"l" | b"D" | b"d" => Cause::WantsDuration,
        b"N" | b"n" | b"S" | b"s" | b"R" | b"r" | b"P" | b"p" => Cause::NoDuration,
        _ => Cause::NoQualifier,
    }
}
