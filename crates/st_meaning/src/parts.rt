//! The parts of a chart as numbers, apart from its transitions: pulses, associations, stored names and actions (2.6.4).
ghost use Rattle.std.specs.Prelude.{◌≡◌, ◌<◌, ◌^◌, ◌++◌, IfOk, OnOk, length, map};
ghost use Rattle.std.specs.List.{flat_map, list_any};
ghost use Rattle.st_leaves.specs.Charts.{associations_in, is_pulse, spelled, stored_names};
ghost use Rattle.st_meaning.specs.Sketched.{link_in, links_from, number_among};
ghost use Rattle.st_types.specs.Names.{actions_in, steps_in};

use crate::qualifiers::{qualifier_of, time_of};
use st_charts::Link;
use st_leaves::{AssociatedNames, has_pulse, stored_names};
use st_tree::Word;
use st_tree::tree::{Association, ChartElement};
use std::alloc::{AllocError, Global};

/// Of each step among these elements, whether it is associated with the qualifier P.
pub(crate) fn pulses_of(alloc: Global, elements: &[ChartElement]) -> Result<Vec<bool>, AllocError>
    ensures { IfOk result (λ pulses. pulses.items
        ≡ map (λ s. list_any is_pulse s.associations) (flat_map steps_in elements.now)) }
{
    let mut pulses = Vec::new(alloc);
    'elements: for element in elements {
        let ChartElement::Step(step) = element else {
            continue;
        };
        pulses.push(has_pulse(step.associations.as_slice()))?;
    }
    Ok(pulses)
}

/// The associations of the steps among these elements.
pub(crate) fn links_of(
    alloc: Global,
    names: &AssociatedNames<'_>,
    elements: &[ChartElement],
) -> Result<Vec<Link>, AllocError>
    requires names { length names.now < 2 ^ 32 }
    requires steps { length (flat_map steps_in elements.now) < 2 ^ 32 }
    ensures { IfOk result (λ links. links.items ≡ links_from names.now 0
        (flat_map steps_in elements.now)) }
{
    let mut links = Vec::new(alloc);
    let mut number = 0;
    'elements: for element in elements {
        let ChartElement::Step(step) = element else {
            continue;
        };
        add_links(names, number, step.associations.as_slice(), &mut links)?;
        number += 1;
    }
    Ok(links)
}

/// Adds the associations of a step.
fn add_links(
    names: &AssociatedNames<'_>,
    step: u32,
    associations: &[Association],
    links: &mut Vec<Link>,
) -> Result<(), AllocError>
    requires { length names.now < 2 ^ 32 }
    ensures { OnOk result (links.new.items ≡ links.old.items
        ++ flat_map (link_in names.now step) associations.now) }
{
    'associations: for association in associations {
        let Some(name) = names.find(association.name.spelling.as_slice()) else {
            continue;
        };
        links.push(Link {
            step,
            name: name as u32,
            qualifier: qualifier_of(&association.qualifier),
            time: time_of(&association.qualifier),
        })?;
    }
    Ok(())
}

/// The numbers of the names that the steps among these elements store.
pub(crate) fn stored_of(
    alloc: Global,
    names: &AssociatedNames<'_>,
    elements: &[ChartElement],
) -> Result<Vec<u32>, AllocError>
    requires { length names.now < 2 ^ 32 }
    ensures { IfOk result (λ numbers. numbers.items
        ≡ map (number_among names.now) (stored_names (associations_in elements.now))) }
{
    let stored = stored_names(alloc, elements)?;
    numbers_of(alloc, names, stored.as_slice())
}

/// The numbers of these words.
fn numbers_of(
    alloc: Global,
    names: &AssociatedNames<'_>,
    words: &[&Word],
) -> Result<Vec<u32>, AllocError>
    requires { length names.now < 2 ^ 32 }
    ensures { IfOk result (λ numbers. numbers.items
        ≡ map (number_among names.now) (spelled words.now)) }
{
    let mut numbers = Vec::with_capacity(alloc, words.len())?;
    'words: for word in words {
        numbers.push(number_among(names, word.as_slice()))?;
    }
    Ok(numbers)
}

/// The numbers of the names of the actions among these elements.
pub(crate) fn actions_of(
    alloc: Global,
    names: &AssociatedNames<'_>,
    elements: &[ChartElement],
) -> Result<Vec<u32>, AllocError>
    requires { length names.now < 2 ^ 32 }
    ensures { IfOk result (λ numbers. numbers.items
        ≡ map (λ a. number_among names.now a.name.spelling) (flat_map actions_in elements.now)) }
{
    let mut numbers = Vec::new(alloc);
    'elements: for element in elements {
        let ChartElement::Action(action) = element else {
            continue;
        };
        numbers.push(number_among(names, action.name.spelling.as_slice()))?;
    }
    Ok(numbers)
}

/// The number of this name, or how many there are where it is none of them.
fn number_among(names: &AssociatedNames<'_>, name: &[u8]) -> u32
    requires { length names.now < 2 ^ 32 }
    ensures { result ≡ number_among names.now name.now }
{
    match names.find(name) {
        Some(number) => number as u32,
        None => names.len() as u32,
    }
}
