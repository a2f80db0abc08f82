//! The size of what a variable is made of.
ghost use Rattle.std.specs.Prelude.{List, map};
ghost use Rattle.std.specs.List.{All, flat_map};
ghost use Rattle.st_leaves.specs.Leaves.{declared_leaves, shape_leaves};
ghost use Rattle.st_leaves.specs.Limits.{sizes_of};
ghost use Rattle.st_check.specs.Sized.{IsSized, type_leaves};
ghost use Rattle.st_leaves.specs.Sizes.{IsSize};
ghost use Rattle.st_scopes.specs.Declarations.{seen};
ghost use Rattle.st_types.specs.Names.{Named, units_of};
ghost use Rattle.st_types.specs.Types.{shape_of};

use st_leaves::{Size, array_size, leaf_size, named_size, standard_size};
use st_scopes::{Declared, Tables};
use st_tree::tree::VarKind;
use st_types::{Base, Shape};

/// Of what has this type, where the table has the sizes of arrays, structures and function blocks by their units.
pub fn type_size(sizes: &[Size], base: Base) -> Size
    ensures { (units : List Named) → IsSized units sizes.now base
        → IsSize result (sizes_of (type_leaves units base)) }
{
    match base {
        Base::Unknown => Size::none(),
        Base::Elementary(elem) => leaf_size(elem),
        Base::Standard(block) => standard_size(block),
        Base::Array(unit) | Base::Structure(unit) | Base::Block(unit) => match sizes.get(unit) {
            Some(size) => *size,
            None => Size::none(),
        },
    }
}

/// Of a variable of this shape.
fn shape_size(sizes: &[Size], shape: &Shape<'_>) -> Size
    ensures { (units : List Named) → IsSized units sizes.now shape.now.base
        → IsSize result (sizes_of (shape_leaves (type_leaves units) shape.now.subscripts shape.now.base)) }
{
    let inside = type_size(sizes, shape.base);
    match shape.subscripts {
        Some(subscripts) => array_size(subscripts, inside),
        None => inside,
    }
}

/// Of a declared name. A constant has no leaves.
fn declared_size(tables: &Tables<'_>, sizes: &[Size], declared: &Declared<'_>) -> Size
    requires { IsSized (units_of tables.now)
        sizes.now (shape_of (units_of tables.now) (seen declared.now).specification).base }
    ensures { IsSize result (sizes_of (declared_leaves (units_of tables.now)
        (type_leaves (units_of tables.now)) (seen declared.now))) }
{
    if declared.kind == VarKind::Constant {
        return Size::none();
    }
    let shape = tables.shape_of(&declared.declaration.specification);
    named_size(declared.name.spelling.as_slice(), shape_size(sizes, &shape))
}

/// Of declared names, one after the other.
pub fn variables_size(tables: &Tables<'_>, sizes: &[Size], variables: &[Declared<'_>]) -> Size
    requires { All (λ v. IsSized (units_of tables.now)
        sizes.now (shape_of (units_of tables.now) v.specification).base) (map seen variables.now) }
    ensures { IsSize result (sizes_of (flat_map (declared_leaves (units_of tables.now)
        (type_leaves (units_of tables.now))) (map seen variables.now))) }
{
    let mut size = Size::none();
    'variables: for variable in variables {
        size = size.beside(declared_size(tables, sizes, variable));
    }
    size
}
