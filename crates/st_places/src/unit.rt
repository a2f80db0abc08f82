//! What is declared in a unit: its variables, its constants, its chart, and of an array type its elements.
ghost use Rattle.std.specs.Prelude.{◌≡◌, ◌<◌, ◌++◌, ◌∷◌, [], ℕ, IfOk, List as Items, OnOk, length};
ghost use Rattle.st_references.specs.Tables.{AreInitials};
ghost use Rattle.st_places.specs.Members.{AreElements, HasMembers, HasNames, IsUnit, is_small_type};
ghost use Rattle.st_places.specs.Parts.{result_names};
ghost use Rattle.st_check.specs.Sized.{IsSized};
ghost use Rattle.st_scopes.specs.Declarations.{seen};
ghost use Rattle.st_types.specs.Inside.{named_by};
ghost use Rattle.st_types.specs.Names.{Declared as Name, Named, units_of};
ghost use Rattle.st_types.specs.Types.{elements_in, type_at};
ghost use Rattle.st_types.specs.declared.base.Base.TheVariants as bases;

use crate::chart::Chart;
use crate::constant::Constants;
use crate::count::leaves_of;
use crate::dimension::dimensions_of;
use crate::member::Members;
use crate::node::Dimension;
use st_leaves::Size;
use st_references::Initials;
use st_scopes::{Declared, Tables};
use st_tree::List;
use st_tree::tree::VarKind;
use st_types::{Base, NamedUnit, UnitKind};
use std::alloc::{AllocError, Global};

/// The elements of an array type.
#[derive(Drop)]
pub(crate) struct ArrayParts {
    /// What each of them is.
    pub base: Base,
    pub dimensions: List<Dimension>,
}

/// What is declared in a unit.
#[derive(Drop)]
pub(crate) struct UnitParts<'a> {
    pub members: Members<'a>,
    pub constants: Constants<'a>,
    pub chart: Chart<'a>,
    /// What its elements are, where it is an array type.
    pub elements: Option<ArrayParts>,
    /// Whether it is a function block whose instances have at most 65,536 leaves.
    pub is_small_block: bool,
}

impl<'a> UnitParts<'a> {
    /// Of the unit of this number, where the table has the sizes of types by the numbers of the units.
    pub fn of(
        alloc: Global,
        tables: &Tables<'a>,
        initials: &Initials<'_>,
        sizes: &[Size],
        unit: usize,
    ) -> Result<UnitParts<'a>, AllocError>
        requires unit { unit < length (units_of tables.now) }
        requires initials { AreInitials (units_of tables.now) initials.now }
        requires sizes { (i : ℕ) → IsSized (units_of tables.now)
            sizes.now (type_at (units_of tables.now) i) }
        ensures { IfOk result (λ parts. IsUnit (units_of tables.now) unit parts) }
    {
        let named = tables.unit(unit);
        let mut parts = UnitParts {
            members: results_of(alloc, &named)?,
            constants: Constants::new(alloc),
            chart: Chart::of(alloc, named.kind)?,
            elements: elements_of(alloc, tables, sizes, unit)?,
            is_small_block: is_small(sizes, tables.type_at(unit)),
        };
        'names: for declared in tables.declared(unit) {
            parts.add(alloc, tables, initials, sizes, declared)?;
        }
        Ok(parts)
    }

    /// Adds a declared name.
    fn add(
        &mut self,
        alloc: Global,
        tables: &Tables<'_>,
        initials: &Initials<'_>,
        sizes: &[Size],
        declared: &Declared<'a>,
    ) -> Result<(), AllocError>
        requires initials { AreInitials (units_of tables.now) initials.now }
        requires sizes { (i : ℕ) → IsSized (units_of tables.now)
            sizes.now (type_at (units_of tables.now) i) }
        ensures names { OnOk result
            ((vs : Items Name) → HasNames (units_of tables.now) vs self.old
            → HasNames (units_of tables.now) (vs ++ seen declared.now ∷ []) self.new) }
        ensures chart { OnOk result (self.new.chart ≡ self.old.chart) }
        ensures elements { OnOk result (self.new.elements ≡ self.old.elements) }
        ensures small { OnOk result (self.new.is_small_block ≡ self.old.is_small_block) }
    {
        if declared.kind.is_constant() {
            self.constants.add(tables, initials, declared)
        } else {
            self.members.add(alloc, tables, sizes, declared)
        }
    }
}

/// The result of a unit that is a function, which stands before its variables.
fn results_of<'a>(alloc: Global, unit: &NamedUnit<'a>) -> Result<Members<'a>, AllocError>
    ensures { IfOk result (λ members. (units : Items Named)
        → HasMembers units (result_names (named_by unit.now).declares) members) }
{
    let mut members = Members::new(alloc);
    match unit.kind {
        UnitKind::Function(function) => {
            members.add_result(function)?;
            Ok(members)
        }
        UnitKind::Type(_) | UnitKind::Block(_) | UnitKind::Program(_) => Ok(members),
    }
}

/// Whether what has this type is an instance of a function block of the text, and has at most 65,536 leaves.
fn is_small(sizes: &[Size], base: Base) -> bool
    ensures { (units : Items Named) → IsSized units sizes.now base
        → result ≡ is_small_type units base }
{
    match base {
        Base::Block(_) => leaves_of(sizes, base) <= 65_536,
        Base::Unknown
        | Base::Elementary(_)
        | Base::Array(_)
        | Base::Structure(_)
        | Base::Standard(_) => false,
    }
}

/// The elements of the array type of the unit of this number.
fn elements_of(
    alloc: Global,
    tables: &Tables<'_>,
    sizes: &[Size],
    unit: usize,
) -> Result<Option<ArrayParts>, AllocError>
    requires { (i : ℕ) → IsSized (units_of tables.now) sizes.now (type_at (units_of tables.now) i) }
    ensures { IfOk result (λ parts. AreElements (units_of tables.now)
        (elements_in (units_of tables.now) (bases.Array unit)) parts) }
{
    let Some(elements) = tables.elements(Base::Array(unit)) else {
        return Ok(None);
    };
    let base = elements.element;
    let all = dimensions_of(alloc, elements.subscripts, leaves_of(sizes, base))?;
    Ok(Some(ArrayParts {
        base,
        dimensions: all.items,
    }))
}
