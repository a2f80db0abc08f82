//! The units of a text, in order.
ghost use Rattle.std.specs.Prelude.{◌≡◌, ◌++◌, IfOk, OnOk, map};
ghost use Rattle.st_types.specs.Names.{units_in, units_of};
ghost use Rattle.st_types.specs.Inside.{named_by, type_unit};

use st_tree::tree::{DeclaredType, Function, Identifier, Pou, TypeDeclaration, Unit};
use std::alloc::{AllocError, Global};

/// What the name of a unit declares.
#[derive(Clone, Copy)]
pub enum UnitKind<'a> {
    Type(&'a DeclaredType),
    Function(&'a Function),
    Block(&'a Pou),
    Program(&'a Pou),
}

/// A unit: each name of TYPE .. END_TYPE is one.
#[derive(Clone, Copy)]
pub struct NamedUnit<'a> {
    pub name: &'a Identifier,
    pub kind: UnitKind<'a>,
}

/// The units of a text, in order.
pub fn units_of<'a>(alloc: Global, text: &'a [Unit]) -> Result<Vec<NamedUnit<'a>>, AllocError>
    ensures { IfOk result (λ units. map named_by units.items ≡ units_of text.now) }
{
    let mut units = Vec::new(alloc);
    for unit in text {
        add_units(unit, &mut units)?;
    }
    Ok(units)
}

/// Adds the units that one section of a text has.
fn add_units<'a>(section: &'a Unit, units: &mut Vec<NamedUnit<'a>>) -> Result<(), AllocError>
    ensures { OnOk result (map named_by units.new.items
        ≡ map named_by units.old.items ++ units_in section.now) }
{
    let (name, kind) = match section {
        Unit::Types(_, declarations) => return add_types(declarations.as_slice(), units),
        Unit::Function(function) => (&function.name, UnitKind::Function(function)),
        Unit::FunctionBlock(block) => (&block.name, UnitKind::Block(block)),
        Unit::Program(program) => (&program.name, UnitKind::Program(program)),
    };
    units.push(NamedUnit { name, kind })?;
    Ok(())
}

/// Adds declared types.
fn add_types<'a>(
    declarations: &'a [TypeDeclaration],
    units: &mut Vec<NamedUnit<'a>>,
) -> Result<(), AllocError>
    ensures { OnOk result (map named_by units.new.items
        ≡ map named_by units.old.items ++ map type_unit declarations.now) }
{
    for declaration in declarations {
        units.push(NamedUnit {
            name: &declaration.name,
            kind: UnitKind::Type(&declaration.declared),
        })?;
    }
    Ok(())
}
