//! The variables of a unit, or the members of a structure, with where their leaves stand (2.4.1).
ghost use Rattle.std.specs.Prelude.{◌≡◌, ◌++◌, ◌∷◌, [], IfOk, List as Items, OnOk, min};
ghost use Rattle.st_leaves.specs.Places.{count};
ghost use Rattle.st_meaning.specs.Units.{result_declared};
ghost use Rattle.st_places.specs.Members.{AreOwn, AreParts, HasMembers, shape_count};
ghost use Rattle.st_places.specs.Parts.{inside};
ghost use Rattle.st_check.specs.Sized.{IsSized};
ghost use Rattle.st_scopes.specs.Declarations.{seen};
ghost use Rattle.st_types.specs.Names.{Declared as Name, Named, units_of};
ghost use Rattle.st_types.specs.Types.{shape_of};

use crate::count::leaves_of;
use crate::dimension::dimensions_of;
use crate::node::Dimension;
use st_leaves::{MAX_COUNT, Size};
use st_scopes::{Declared, Tables};
use st_tree::List;
use st_tree::tree::{Function, Specification};
use st_types::{Base, NameTable};
use std::alloc::{AllocError, Global};

/// A variable, or a member of a structure.
#[derive(Drop)]
pub(crate) struct Member {
    /// How many leaves of the whole stand before its own. The number stops at 1,000,000.
    pub offset: u32,
    /// What it is, or each of its elements where it is declared as an array.
    pub base: Base,
    /// Where it is declared as an array.
    pub dimensions: Option<List<Dimension>>,
}

/// Variables in order, and a table of their names.
#[derive(Drop)]
pub(crate) struct Members<'a> {
    pub names: NameTable<'a>,
    pub items: List<Member>,
    /// How many leaves they have. The number stops at 1,000,000.
    pub count: u64,
}

impl<'a> Members<'a> {
    /// None. They take no memory.
    pub fn new(alloc: Global) -> Members<'a>
        ensures { (units : Items Named) → HasMembers units [] result }
    {
        Members {
            names: NameTable::new(alloc),
            items: List::new(alloc),
            count: 0,
        }
    }

    /// Adds a declared name, where the table has the sizes of types by the numbers of the units.
    pub fn add(
        &mut self,
        alloc: Global,
        tables: &Tables<'_>,
        sizes: &[Size],
        declared: &Declared<'a>,
    ) -> Result<(), AllocError>
        requires { IsSized (units_of tables.now)
            sizes.now (shape_of (units_of tables.now) (seen declared.now).specification).base }
        ensures { OnOk result ((vs : Items Name) → HasMembers (units_of tables.now) vs self.old
            → HasMembers (units_of tables.now) (vs ++ seen declared.now ∷ []) self.new) }
    {
        let parts = Parts::of(alloc, tables, sizes, &declared.declaration.specification)?;
        self.put(declared.name.spelling.as_slice(), parts)
    }

    /// Adds the result of a function, which has the function's name.
    pub fn add_result(&mut self, function: &'a Function) -> Result<(), AllocError>
        ensures { OnOk result ((units : Items Named) (vs : Items Name)
            → HasMembers units vs self.old
            → HasMembers units (vs ++ result_declared function.now ∷ []) self.new) }
    {
        let parts = Parts {
            base: Base::Elementary(function.result),
            dimensions: None,
            count: 1,
        };
        self.put(function.name.spelling.as_slice(), parts)
    }

    /// Puts what has this name and is made of this behind the others.
    fn put(&mut self, name: &'a [u8], parts: Parts) -> Result<(), AllocError>
        ensures { OnOk result ((units : Items Named) (vs : Items Name) (v : Name)
            → v.name.spelling ≡ name.now → AreParts units v parts → HasMembers units vs self.old
            → HasMembers units (vs ++ v ∷ []) self.new) }
    {
        self.names.push(name)?;
        self.items.push(Member {
            offset: self.count.min(MAX_COUNT) as u32,
            base: parts.base,
            dimensions: parts.dimensions,
        })?;
        self.count = self.count.saturating_add(parts.count).min(MAX_COUNT);
        Ok(())
    }
}

/// What a declared name is made of.
#[derive(Drop)]
struct Parts {
    base: Base,
    dimensions: Option<List<Dimension>>,
    /// How many leaves it has. The number stops at 1,000,000.
    count: u64,
}

impl Parts {
    /// Of what is specified so.
    fn of(
        alloc: Global,
        tables: &Tables<'_>,
        sizes: &[Size],
        specification: &Specification,
    ) -> Result<Parts, AllocError>
        requires { IsSized (units_of tables.now)
            sizes.now (shape_of (units_of tables.now) specification.now).base }
        ensures base { IfOk result (λ parts. parts.base
            ≡ (shape_of (units_of tables.now) specification.now).base) }
        ensures dimensions { IfOk result
            (λ parts. AreOwn (count (inside (units_of tables.now)
            (shape_of (units_of tables.now) specification.now).base))
            (shape_of (units_of tables.now) specification.now).subscripts parts.dimensions) }
        ensures count { IfOk result
            (λ parts. parts.count ≡ min (shape_count
            (shape_of (units_of tables.now) specification.now).subscripts
            (count (inside (units_of tables.now)
            (shape_of (units_of tables.now) specification.now).base))) 1000000) }
    {
        let shape = tables.shape_of(specification);
        let base = shape.base;
        let element = leaves_of(sizes, base);
        let Some(ranges) = shape.subscripts else {
            return Ok(Parts {
                base,
                dimensions: None,
                count: element,
            });
        };
        let all = dimensions_of(alloc, ranges, element)?;
        Ok(Parts {
            base,
            dimensions: Some(all.items),
            count: all.count,
        })
    }
}
