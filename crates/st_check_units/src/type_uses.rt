//! Names of types in declarations (2.3.3, 2.4.3).
ghost use Rattle.std.specs.Prelude.{◌≡◌};
ghost use Rattle.st_faults.specs.Faults.{offer_all};
ghost use Rattle.st_types.specs.Names.{unit_named, units_of};
ghost use Rattle.st_types.specs.Inside.{declared_by};
ghost use Rattle.st_check_units.specs.Declarations.{as_type, is_missing, is_permitted, optional_as_type, specification_faults, specification_fits, standard_as_type, type_faults, type_fits, type_position, unit_as_type};

use crate::permitted::{Permitted, TypeUse};
use crate::subscripts::check_subranges;
use st_faults::{FirstFault, Rule};
use st_scopes::Tables;
use st_tree::tree::{Position, Specification, TypeName};
use st_types::{Standard, UnitKind, standard_of};

/// What something standard is, used as a type.
fn standard_as_type(standard: Standard) -> TypeUse
    ensures { result ≡ standard_as_type standard }
{
    match standard {
        Standard::Block(_) => TypeUse::Block,
        _ => TypeUse::Other,
    }
}

/// What a unit is, used as a type.
fn unit_as_type(unit: UnitKind<'_>) -> TypeUse
    ensures { result ≡ unit_as_type (declared_by unit.entry) }
{
    match unit {
        UnitKind::Type(_) => TypeUse::Type,
        UnitKind::Block(_) => TypeUse::Block,
        UnitKind::Function(_) | UnitKind::Program(_) => TypeUse::Other,
    }
}

/// What the first unit of a name is, used as a type.
fn named_as_type(tables: &Tables<'_>, name: &[u8]) -> TypeUse
    ensures { result ≡ optional_as_type (unit_named (units_of tables.now) name.now) }
{
    match tables.number_of(name) {
        Some(number) => unit_as_type(tables.unit(number).kind),
        None => TypeUse::Missing,
    }
}

/// What a name is, used as a type.
fn as_type(tables: &Tables<'_>, name: &TypeName) -> TypeUse
    ensures { result ≡ as_type (units_of tables.now) name.now }
{
    let TypeName::Declared(name) = name else {
        return TypeUse::Type;
    };
    let spelling = name.spelling.as_slice();
    match standard_of(spelling) {
        Some(standard) => standard_as_type(standard),
        None => named_as_type(tables, spelling),
    }
}

/// Where the name of a type stands.
fn type_position(name: &TypeName) -> Position
    ensures { result ≡ type_position name.now }
{
    match name {
        TypeName::Elementary(position, _) => *position,
        TypeName::Declared(name) => name.position,
    }
}

/// Whether nothing has the name.
fn is_missing(found: TypeUse) -> bool
    ensures { result ≡ is_missing found }
{
    matches!(found, TypeUse::Missing)
}

/// Offers a fault where nothing has the name of a type.
fn check_type(tables: &Tables<'_>, name: &TypeName, first: &mut FirstFault)
    ensures { first.new ≡ offer_all first.old (type_faults (units_of tables.now) name.now) }
{
    let is_missing = is_missing(as_type(tables, name));
    // Typing rests on this rule wherever a place is due, as in its case `place`: a variable of an unknown type has none.
    first.offer_when(is_missing, type_position(name), Rule::UnknownName);
}

/// Offers the faults of what is specified, other than those at the names that are declared.
#[tactic(auto, using(st_faults::proofs::Least::offer_append))]
pub fn check_specification(
    tables: &Tables<'_>,
    specification: &Specification,
    first: &mut FirstFault,
)
    ensures { first.new ≡ offer_all first.old (specification_faults (units_of tables.now)
        specification.now) }
{
    match specification {
        Specification::Simple(name) => check_type(tables, name, first),
        Specification::Array(_, ranges, name) => {
            check_subranges(ranges.as_slice(), first);
            check_type(tables, name.get(), first);
        }
    }
}

/// Whether such a type may stand there.
fn type_fits(instances: bool, found: TypeUse) -> bool
    ensures { result ≡ type_fits instances found }
{
    match found {
        TypeUse::Missing | TypeUse::Type => true,
        TypeUse::Block => instances,
        TypeUse::Other => false,
    }
}

/// Whether such types may stand there. An array has no instances as elements.
fn specification_fits(tables: &Tables<'_>, instances: bool, specification: &Specification) -> bool
    ensures { result ≡ specification_fits (units_of tables.now) instances specification.now }
{
    match specification {
        Specification::Simple(name) => type_fits(instances, as_type(tables, name)),
        Specification::Array(_, _, name) => type_fits(false, as_type(tables, name.get())),
    }
}

/// Whether what is specified may be declared.
pub fn is_permitted(
    tables: &Tables<'_>,
    permitted: Permitted,
    specification: &Specification,
) -> bool
    ensures { result ≡ is_permitted permitted (units_of tables.now) specification.now }
{
    match permitted {
        Permitted::Nothing => false,
        Permitted::Values => {
            let shape = tables.shape_of(specification);
            specification_fits(tables, false, specification)
                && (shape.base.is_unknown() || shape.is_value())
        }
        Permitted::Types => specification_fits(tables, false, specification),
        Permitted::Instances => specification_fits(tables, true, specification),
    }
}
