//! Declarations of variables, members and types (2.3.3, 2.4.3).
ghost use Rattle.std.specs.List.{flat_map};
ghost use Rattle.std.specs.Prelude.{◌≡◌, OnOk};
ghost use Rattle.st_faults.specs.Faults.{offer_all};
ghost use Rattle.st_types.specs.Names.{units_of};
ghost use Rattle.st_types.specs.Inside.{declared_by};
ghost use Rattle.st_check_units.specs.Declarations.{block_faults, declaration_faults, is_function, is_misdeclared, misdeclared_faults, permitted, specified_faults, type_declaration_faults};

use crate::permitted::Permitted;
use crate::repeats::check_declared_names;
use crate::sizes::TextTypes;
use crate::type_uses::{check_specification, is_permitted};
use crate::values::check_initial;
use st_faults::{FirstFault, Rule};
use st_scopes::{may_hold_instances, must_be_value};
use st_tree::Boxed;
use st_tree::tree::{
    Declaration, DeclaredType, Identifier, Initial, Specification, VarBlock, VarKind,
};
use st_types::{NameTable, UnitKind};
use std::alloc::{AllocError, Global};

/// Whether the unit is a function.
fn is_function(unit: UnitKind<'_>) -> bool
    ensures { result ≡ is_function (declared_by unit.entry) }
{
    matches!(unit, UnitKind::Function(_))
}

/// What variables of this kind may be in the unit.
fn permitted(unit: UnitKind<'_>, kind: VarKind) -> Permitted
    ensures { result ≡ permitted (declared_by unit.entry) kind }
{
    if is_function(unit) && kind.is_output() {
        Permitted::Nothing
    } else if must_be_value(unit, kind) {
        Permitted::Values
    } else if may_hold_instances(unit, kind) {
        Permitted::Instances
    } else {
        Permitted::Types
    }
}

/// Offers the faults of what is specified, and of its initial value. Tells whether no name may be declared so.
#[tactic(auto, using(st_faults::proofs::Least::offer_append))]
fn check_specified(
    types: &TextTypes<'_, '_>,
    permitted: Permitted,
    specification: &Specification,
    initial: &Option<Boxed<Initial>>,
    first: &mut FirstFault,
) -> bool
    ensures first { first.new ≡ offer_all first.old
        (specified_faults (units_of types.now) specification.now initial.now) }
    ensures is_misdeclared { result ≡ is_misdeclared (units_of types.now)
        permitted specification.now initial.now }
{
    let tables = types.tables();
    check_specification(tables, specification, first);
    let shape = tables.shape_of(specification);
    check_initial(tables, &shape, initial, first);
    !is_permitted(tables, permitted, specification) || types.is_misvalued(&shape, initial)
}

/// Offers a fault for each of these names, where they may not be declared so.
#[tactic(auto, unfolding(st_faults::specs::Faults::offer_all))]
fn check_misdeclared(are_wrong: bool, names: &[Identifier], first: &mut FirstFault)
    ensures { first.new ≡ offer_all first.old (misdeclared_faults are_wrong names.now) }
{
    for name in names {
        // Typing rests on this rule wherever a place is due, as in its case `place`, in `own`, since each input of a function
        // is one value, and in `literal` and `list`, since nothing else begins with a value.
        first.offer_when(are_wrong, name.position, Rule::TypeMismatch);
    }
}

/// Offers the faults of a declaration, where this may be declared.
#[tactic(auto, using(st_faults::proofs::Least::offer_append))]
fn check_declaration(
    types: &TextTypes<'_, '_>,
    permitted: Permitted,
    declaration: &Declaration,
    first: &mut FirstFault,
)
    ensures { first.new ≡ offer_all first.old (declaration_faults (units_of types.now)
        permitted declaration.now) }
{
    let specification = &declaration.specification;
    let are_wrong = check_specified(types, permitted, specification, &declaration.initial, first);
    check_misdeclared(are_wrong, declaration.names.as_slice(), first);
}

/// Offers the faults of declarations, where this may be declared.
#[tactic(auto, unfolding(st_faults::specs::Faults::offer_all))]
fn check_declarations(
    types: &TextTypes<'_, '_>,
    permitted: Permitted,
    declarations: &[Declaration],
    first: &mut FirstFault,
)
    ensures { first.new ≡ offer_all first.old (flat_map
        (declaration_faults (units_of types.now) permitted) declarations.now) }
{
    for declaration in declarations {
        check_declaration(types, permitted, declaration, first);
    }
}

/// Offers the faults of a block of variables of the unit.
fn check_block(
    types: &TextTypes<'_, '_>,
    unit: UnitKind<'_>,
    block: &VarBlock,
    first: &mut FirstFault,
)
    ensures { first.new ≡ offer_all first.old (block_faults (units_of types.now)
        (declared_by unit.entry) block.now) }
{
    let permitted = permitted(unit, block.kind);
    check_declarations(types, permitted, block.declarations.as_slice(), first);
}

/// Offers the faults of the variables of the unit.
#[tactic(auto, unfolding(st_faults::specs::Faults::offer_all))]
pub fn check_blocks(
    types: &TextTypes<'_, '_>,
    unit: UnitKind<'_>,
    blocks: &[VarBlock],
    first: &mut FirstFault,
)
    ensures { first.new ≡ offer_all first.old (flat_map
        (block_faults (units_of types.now) (declared_by unit.entry)) blocks.now) }
{
    for block in blocks {
        check_block(types, unit, block, first);
    }
}

/// Offers the faults of the type that is declared under a name.
#[tactic(auto, using(st_faults::proofs::Least::offer_append))]
pub fn check_type(
    alloc: Global,
    types: &TextTypes<'_, '_>,
    name: &Identifier,
    declared: &DeclaredType,
    first: &mut FirstFault,
) -> Result<(), AllocError>
    ensures { OnOk result (first.new ≡ offer_all first.old
        (type_declaration_faults (units_of types.now) name.now declared.now)) }
{
    match declared {
        DeclaredType::Derived(specification, initial) => {
            let permitted = Permitted::Types;
            let is_wrong = check_specified(types, permitted, specification, initial, first);
            // Typing rests on this rule wherever a place is due, as in its case `place`, and in `literal` and `list`.
            first.offer_when(is_wrong, name.position, Rule::TypeMismatch);
        }
        DeclaredType::Structure(_, members) => {
            let members = members.as_slice();
            check_declared_names(&mut NameTable::new(alloc), members, first)?;
            check_declarations(types, Permitted::Types, members, first);
        }
    }
    Ok(())
}
