//! Names that are declared together (2.1.2, 2.4.2).
ghost use Rattle.std.specs.Prelude.{◌≡◌, ◌++◌, ◌∷◌, [], OnOk};
ghost use Rattle.st_faults.specs.Faults.{offer_all, when, fault};
ghost use Rattle.st_check_units.specs.Declarations.{declared_names};
ghost use Rattle.st_check_units.specs.Repeats.{is_there, repeated, spellings};
ghost use Rattle.st_check_units.specs.Units.{chart_names, element_names, variable_names};

use st_faults::{FirstFault, Rule};
use st_tree::tree::{ChartElement, Declaration, Identifier, VarBlock};
use st_types::NameTable;
use std::alloc::AllocError;

/// Whether a name stands in the table.
pub fn is_there(seen: &NameTable<'_>, name: &[u8]) -> bool
    ensures { result ≡ is_there seen.now name.now }
{
    seen.find(name).is_some()
}

/// Offers a fault where the name stands in the table, and adds it to the table.
fn check_name<'a>(
    seen: &mut NameTable<'a>,
    name: &'a Identifier,
    first: &mut FirstFault,
) -> Result<(), AllocError>
    ensures first { first.new ≡ offer_all first.old
        (when (is_there seen.old name.now.spelling) (fault name.now.position Rule.NameTwice)) }
    ensures seen { OnOk result (seen.new ≡ seen.old ++ name.now.spelling ∷ []) }
{
    let spelling = name.spelling.as_slice();
    // Typing rests on this rule in its cases `place`, where no constant has the name, and `action_then`, where no variable has it.
    // No case rests on it for two variables, two steps or two actions.
    first.offer_when(is_there(seen, spelling), name.position, Rule::NameTwice);
    seen.push(spelling)?;
    Ok(())
}

/// Offers a fault for each of these names that stands before it already, or in the table, and adds them to the table.
#[tactic(auto, unfolding(st_faults::specs::Faults::offer_all))]
fn check_names<'a>(
    seen: &mut NameTable<'a>,
    names: &'a [Identifier],
    first: &mut FirstFault,
) -> Result<(), AllocError>
    ensures first { OnOk result (first.new ≡ offer_all first.old (repeated seen.old names.now)) }
    ensures seen { OnOk result (seen.new ≡ seen.old ++ spellings names.now) }
{
    for name in names {
        check_name(seen, name, first)?;
    }
    Ok(())
}

/// Offers the faults of the names in some declarations, and adds them to the table.
#[tactic(auto, unfolding(st_faults::specs::Faults::offer_all))]
pub fn check_declared_names<'a>(
    seen: &mut NameTable<'a>,
    declarations: &'a [Declaration],
    first: &mut FirstFault,
) -> Result<(), AllocError>
    ensures first { OnOk result
        (first.new ≡ offer_all first.old (repeated seen.old (declared_names declarations.now))) }
    ensures seen { OnOk result (seen.new ≡ seen.old
        ++ spellings (declared_names declarations.now)) }
{
    for declaration in declarations {
        check_names(seen, declaration.names.as_slice(), first)?;
    }
    Ok(())
}

/// Offers the faults of the names in some blocks of variables, and adds them to the table.
#[tactic(auto, unfolding(st_faults::specs::Faults::offer_all))]
pub fn check_variable_names<'a>(
    seen: &mut NameTable<'a>,
    blocks: &'a [VarBlock],
    first: &mut FirstFault,
) -> Result<(), AllocError>
    ensures first { OnOk result
        (first.new ≡ offer_all first.old (repeated seen.old (variable_names blocks.now))) }
    ensures seen { OnOk result (seen.new ≡ seen.old ++ spellings (variable_names blocks.now)) }
{
    for block in blocks {
        check_declared_names(seen, block.declarations.as_slice(), first)?;
    }
    Ok(())
}

/// Offers the fault of the name of an element of a chart, and adds it to the table.
#[tactic(auto, unfolding(st_faults::specs::Faults::offer_all))]
fn check_element_name<'a>(
    seen: &mut NameTable<'a>,
    element: &'a ChartElement,
    first: &mut FirstFault,
) -> Result<(), AllocError>
    ensures first { OnOk result
        (first.new ≡ offer_all first.old (repeated seen.old (element_names element.now))) }
    ensures seen { OnOk result (seen.new ≡ seen.old ++ spellings (element_names element.now)) }
{
    match element {
        ChartElement::Step(step) => check_name(seen, &step.name, first),
        ChartElement::Action(action) => check_name(seen, &action.name, first),
        ChartElement::Transition(transition) => match &transition.name {
            Some(name) => check_name(seen, name, first),
            None => Ok(()),
        },
    }
}

/// Offers the faults of the names of a chart's elements, and adds them to the table.
#[tactic(auto, unfolding(st_faults::specs::Faults::offer_all))]
pub fn check_chart_names<'a>(
    seen: &mut NameTable<'a>,
    elements: &'a [ChartElement],
    first: &mut FirstFault,
) -> Result<(), AllocError>
    ensures first { OnOk result
        (first.new ≡ offer_all first.old (repeated seen.old (chart_names elements.now))) }
    ensures seen { OnOk result (seen.new ≡ seen.old ++ spellings (chart_names elements.now)) }
{
    for element in elements {
        check_element_name(seen, element, first)?;
    }
    Ok(())
}
