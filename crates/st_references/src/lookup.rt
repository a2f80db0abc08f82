//! By which units initial values are written, where the types of units begin with what these units write.
ghost use Rattle.std.specs.Prelude.{◌≡◌, ◌<◌, List, Option as Maybe, length, map};
ghost use Rattle.st_tree.specs.declared.tree.declaration.Initial.{Initial};
ghost use Rattle.st_types.specs.Initials.{known, name_initial, specified_initial, unit_initial};
ghost use Rattle.st_types.specs.Names.{unit_at, units_of};
ghost use Rattle.st_references.specs.Tables.{by_table, initial_in, written_at, written_by};

use st_scopes::Tables;
use st_tree::tree::{DeclaredType, Specification, TypeName};
use st_types::{UnitKind, standard_of};

/// Of what has the type of this number.
fn type_source(types: &[Option<usize>], unit: usize) -> Option<usize>
    ensures { (all : List (Maybe Initial))
        → written_at all result ≡ initial_in (map (written_at all) types.now) unit }
{
    match types.get(unit) {
        Some(source) => *source,
        None => None,
    }
}

/// Of what has a type of this name.
pub fn name_source(tables: &Tables<'_>, types: &[Option<usize>], name: &TypeName) -> Option<usize>
    ensures { (all : List (Maybe Initial))
        → written_at all result
        ≡ known (units_of tables.now)
        (name_initial (units_of tables.now) (by_table (map (written_at all) types.now)) name.now) }
{
    let TypeName::Declared(identifier) = name else {
        return None;
    };
    let spelling = identifier.spelling.as_slice();
    if standard_of(spelling).is_some() {
        return None;
    }
    match tables.number_of(spelling) {
        Some(unit) => type_source(types, unit),
        None => None,
    }
}

/// Of what is specified so. An array has none.
pub fn specified_source(
    tables: &Tables<'_>,
    types: &[Option<usize>],
    specification: &Specification,
) -> Option<usize>
    ensures { (all : List (Maybe Initial))
        → written_at all result
        ≡ known (units_of tables.now)
        (specified_initial (units_of tables.now) (by_table (map (written_at all) types.now))
        specification.now) }
{
    match specification {
        Specification::Simple(name) => name_source(tables, types, name),
        Specification::Array(..) => None,
    }
}

/// Of what has the unit of this number as its type: the unit itself, or else that of what is specified.
pub fn unit_source(tables: &Tables<'_>, types: &[Option<usize>], unit: usize) -> Option<usize>
    requires { unit < length (units_of tables.now) }
    ensures { (all : List (Maybe Initial)) → all ≡ map written_by (units_of tables.now)
        → written_at all result ≡ known (units_of tables.now) (unit_initial (units_of tables.now) (by_table (map (written_at all) types.now)) (unit_at (units_of tables.now) unit)) }
{
    match tables.unit(unit).kind {
        UnitKind::Type(DeclaredType::Derived(specification, initial)) => {
            match initial {
                Some(_) => Some(unit),
                None => specified_source(tables, types, specification),
            }
        }
        UnitKind::Type(DeclaredType::Structure(..))
        | UnitKind::Function(_)
        | UnitKind::Block(_)
        | UnitKind::Program(_) => None,
    }
}
