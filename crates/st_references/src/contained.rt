//! The types and function blocks that are named in declarations.
ghost use Rattle.std.specs.Prelude.{◌≡◌, ◌++◌, OnOk};
ghost use Rattle.std.specs.List.{flat_map};
ghost use Rattle.st_types.specs.Inside.{declared_by};
ghost use Rattle.st_types.specs.Names.{type, units_of};
ghost use Rattle.st_references.specs.Contained.{block_names, declaration_names};
ghost use Rattle.st_references.specs.References.{contained, listed, specified_names, type_names_in, unit_types};

use crate::row::add_found;
use st_scopes::Tables;
use st_tree::List;
use st_tree::tree::{Declaration, DeclaredType, Specification, TypeName, VarBlock};
use st_types::{UnitKind, standard_of};
use std::alloc::AllocError;

/// Adds the types and function blocks that are named in the declarations of a unit.
#[tactic(auto, using(crate::proofs::Names::block_names_are))]
pub fn add_contained(
    tables: &Tables<'_>,
    kind: &UnitKind<'_>,
    row: &mut List<usize>,
) -> Result<(), AllocError>
    ensures { OnOk result (row.new ≡ row.old ++ flat_map (contained (units_of tables.now))
        (unit_types (declared_by kind.now))) }
{
    match kind {
        UnitKind::Type(declared) => add_declared(tables, declared, row),
        UnitKind::Function(function) => add_blocks(tables, function.variables.as_slice(), row),
        UnitKind::Block(unit) => add_blocks(tables, unit.variables.as_slice(), row),
        UnitKind::Program(unit) => add_blocks(tables, unit.variables.as_slice(), row),
    }
}

/// Adds the types and function blocks that are named in a declared type.
#[tactic(auto, using(crate::proofs::Names::members_names_are))]
fn add_declared(
    tables: &Tables<'_>,
    declared: &DeclaredType,
    row: &mut List<usize>,
) -> Result<(), AllocError>
    ensures { OnOk result (row.new ≡ row.old ++ flat_map (contained (units_of tables.now))
        (unit_types (type declared.now))) }
{
    match declared {
        DeclaredType::Derived(specification, _) => add_found(specified(tables, specification), row),
        DeclaredType::Structure(_, members) => add_declarations(tables, members.as_slice(), row),
    }
}

/// Adds the types and function blocks that are named in blocks of declarations.
fn add_blocks(
    tables: &Tables<'_>,
    blocks: &[VarBlock],
    row: &mut List<usize>,
) -> Result<(), AllocError>
    ensures { OnOk result (row.new ≡ row.old ++ flat_map (contained (units_of tables.now))
        (flat_map block_names blocks.now)) }
{
    'items: for block in blocks {
        add_declarations(tables, block.declarations.as_slice(), row)?;
    }
    Ok(())
}

/// Adds the types and function blocks that are named in declarations.
fn add_declarations(
    tables: &Tables<'_>,
    declarations: &[Declaration],
    row: &mut List<usize>,
) -> Result<(), AllocError>
    ensures { OnOk result (row.new ≡ row.old ++ flat_map (contained (units_of tables.now))
        (flat_map declaration_names declarations.now)) }
{
    'items: for declaration in declarations {
        add_declaration(tables, declaration, row)?;
    }
    Ok(())
}

/// Adds the type or function block that is named in a declaration, once for each name that is declared.
fn add_declaration(
    tables: &Tables<'_>,
    declaration: &Declaration,
    row: &mut List<usize>,
) -> Result<(), AllocError>
    ensures { OnOk result (row.new ≡ row.old ++ flat_map (contained (units_of tables.now))
        (declaration_names declaration.now)) }
{
    let found = specified(tables, &declaration.specification);
    'items: for _name in declaration.names.as_slice() {
        add_found(found, row)?;
    }
    Ok(())
}

/// The number of the type or function block of the text that a specification names, where it names one.
fn specified(tables: &Tables<'_>, specification: &Specification) -> Option<usize>
    ensures { listed result ≡ flat_map (contained (units_of tables.now))
        (specified_names specification.now) }
{
    match specification {
        Specification::Simple(name) => type_named(tables, name),
        Specification::Array(_, _, name) => type_named(tables, name.get()),
    }
}

/// The number of the type or function block of the text that the name of a type stands for, where it stands for one.
fn type_named(tables: &Tables<'_>, name: &TypeName) -> Option<usize>
    ensures { listed result ≡ flat_map (contained (units_of tables.now)) (type_names_in name.now) }
{
    match name {
        TypeName::Elementary(..) => None,
        TypeName::Declared(name) => contained(tables, name.spelling.as_slice()),
    }
}

/// The number of the type or function block of the text that has this name, where it is one.
fn contained(tables: &Tables<'_>, name: &[u8]) -> Option<usize>
    ensures { listed result ≡ contained (units_of tables.now) name.now }
{
    if standard_of(name).is_some() {
        return None;
    }
    let number = tables.number_of(name)?;
    match tables.unit(number).kind {
        UnitKind::Type(_) | UnitKind::Block(_) => Some(number),
        UnitKind::Function(_) | UnitKind::Program(_) => None,
    }
}
