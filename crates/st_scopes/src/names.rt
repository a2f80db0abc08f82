//! What is declared in a unit, by name.
ghost use Rattle.std.specs.Prelude.{◌≡◌, ◌++◌, IfOk, OnOk, map};
ghost use Rattle.std.specs.List.{flat_map};
ghost use Rattle.st_scopes.specs.Declarations.{seen};
ghost use Rattle.st_types.specs.Inside.{declared_by};
ghost use Rattle.st_types.specs.Scopes.{input_of};
ghost use Rattle.st_scopes.specs.UnitNames.{unit_names};

use crate::chart::ChartNames;
use crate::declaration::{Declarations, Declared};
use crate::variable::{shape_due, variable_shape};
use st_tree::tree::VarKind;
use st_types::{Inputs, NamedUnit, TypeTable, UnitKind};
use std::alloc::{AllocError, Global};

/// What is declared in a unit, by name.
#[derive(Drop)]
pub struct UnitNames<'a> {
    /// Its variables, or the members of a structure.
    pub declarations: Declarations<'a>,
    pub chart: ChartNames<'a>,
    /// The inputs of a function.
    pub inputs: Inputs<'a>,
}

/// What is declared in each unit of a text.
pub fn names_of<'a>(alloc: Global, types: &TypeTable<'a>) -> Result<Vec<UnitNames<'a>>, AllocError>
    ensures { IfOk result (λ names. names.items ≡ map (λ u. unit_names types.now u.declares)
        types.now) }
{
    let units: &[NamedUnit<'a>] = types.units();
    let mut names = Vec::new(alloc);
    for unit in units {
        names.push(UnitNames::of_unit(alloc, types, unit.kind)?)?;
    }
    Ok(names)
}

impl<'a> UnitNames<'a> {
    /// What is declared in a unit.
    fn of_unit(
        alloc: Global,
        types: &TypeTable,
        unit: UnitKind<'a>,
    ) -> Result<UnitNames<'a>, AllocError>
        ensures { IfOk result (λ names. names ≡ unit_names types.now (declared_by unit.entry)) }
    {
        let declarations = Declarations::of_unit(alloc, unit)?;
        let chart = ChartNames::of_unit(alloc, unit)?;
        let inputs = match unit {
            UnitKind::Function(_) => inputs_of(alloc, types, unit, declarations.as_slice())?,
            _ => Inputs::new(alloc),
        };
        Ok(UnitNames {
            declarations,
            chart,
            inputs,
        })
    }
}

/// The inputs among the variables of a function.
fn inputs_of<'a>(
    alloc: Global,
    types: &TypeTable,
    unit: UnitKind<'a>,
    variables: &[Declared<'a>],
) -> Result<Inputs<'a>, AllocError>
    ensures { IfOk result (λ inputs. inputs ≡ flat_map (input_of types.now (declared_by unit.entry))
        (map seen variables.now)) }
{
    let mut inputs = Inputs::new(alloc);
    for variable in variables {
        add_input(types, unit, *variable, &mut inputs)?;
    }
    Ok(inputs)
}

/// Adds a variable of the unit, where it is an input.
fn add_input<'a>(
    types: &TypeTable,
    unit: UnitKind<'a>,
    variable: Declared<'a>,
    inputs: &mut Inputs<'a>,
) -> Result<(), AllocError>
    ensures { OnOk result (inputs.new ≡ inputs.old
        ++ input_of types.now (declared_by unit.entry) (seen variable.entry)) }
{
    if !matches!(variable.kind, VarKind::Input) {
        return Ok(());
    }
    let due = shape_due(&variable_shape(types, unit, variable));
    inputs.push(variable.name.spelling.as_slice(), due)
}
