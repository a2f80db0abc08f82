//! How many elements arrays have, and how many values a list of initial values has (2.3.3.1, 2.4.2).
ghost use Rattle.std.specs.List.{sum_by};
ghost use Rattle.std.specs.Prelude.{◌≡◌, ◌≤◌, ◌^◌, IfOk};
ghost use Rattle.st_types.specs.Names.{units_of};
ghost use Rattle.st_types.specs.Inside.{declared_by};
ghost use Rattle.st_check_units.specs.Counted.{counted, declared_size, elements_size};
ghost use Rattle.st_check_units.specs.Declarations.{elements_of, is_excessive, is_misvalued, item_size};
ghost use Rattle.st_check_units.specs.Subscripts.{is_more};

use crate::subscripts::array_size;
use crate::values::{element_of, is_composed};
use st_scopes::Tables;
use st_tree::Boxed;
use st_tree::tree::{ArrayElement, DeclaredType, Initial, Specification};
use st_types::{Base, Shape, UnitKind};
use std::alloc::{AllocError, Global};
use std::marker::Model;

/// The types of a text: its tables, and how many elements each array type has.
#[derive(Drop)]
pub struct TextTypes<'t, 'a> {
    tables: &'t Tables<'a>,
    /// How many elements the unit of each number has, where it is an array type, all its subscripts are right and there are
    /// fewer than 2^128.
    sizes: Vec<Option<u128>>,
}

impl<'t, 'a> Model for TextTypes<'t, 'a> {
    ghost use Rattle.std.proofs.Common.{◌≡◌};
    ghost use Rattle.std.specs.Coded.{codes};
    ghost use Rattle.std.specs.Prelude.{List};
    ghost use Rattle.st_tree.specs.declared.tree.unit.Unit.{Unit as Section};
    ghost use Rattle.st_tree.specs.contracts.tree.expression.Expression as expression;
    ghost use Rattle.st_tree.specs.contracts.tree.statement.Statement as statement;

    ghost Value = { List Section };

    ghost coded = { Prim.hlevel (codes, statement.the_row.coded, expression.the_row.coded) };

    ghost use Rattle.st_types.specs.Names.{units_of};
    ghost use Rattle.st_check_units.specs.Counted.{counted_sizes};

    ghost view = { λ t. t.tables.now };

    ghost invariant = { λ t. t.sizes.items ≡ counted_sizes (units_of t.tables.now) };
}

impl<'t, 'a> TextTypes<'t, 'a> {
    /// The types of a text. It takes a number for each unit.
    pub fn new(alloc: Global, tables: &'t Tables<'a>) -> Result<TextTypes<'t, 'a>, AllocError>
        ensures { IfOk result (λ types. types ≡ tables.now) }
    {
        let units = tables.units();
        let mut sizes = Vec::with_capacity(alloc, units.len())?;
        for unit in units {
            sizes.push(declared_size(unit.kind))?;
        }
        Ok(TextTypes { tables, sizes })
    }

    /// The tables of the text.
    pub fn tables(&self) -> &'t Tables<'a>
        ensures { result.now ≡ self.now }
    {
        self.tables
    }

    /// How many elements an array has, where all its subscripts are right and there are fewer than 2^128.
    fn size_of(&self, shape: &Shape<'_>) -> Option<u128>
        ensures { result ≡ counted (elements_size (elements_of (units_of self.now) shape.now)) }
    {
        if let Some(subscripts) = shape.subscripts {
            return array_size(subscripts);
        }
        let Base::Array(number) = shape.base else {
            return None;
        };
        self.sizes.get(number).copied().flatten()
    }

    /// Whether an initial value is a list for structures, or one of more values than the array has elements.
    fn is_excessive(&self, shape: &Shape<'_>, initial: &Initial) -> bool
        ensures { result ≡ is_excessive (units_of self.now) shape.now initial.now }
    {
        let Initial::Array(_, items) = initial else {
            return false;
        };
        if matches!(element_of(self.tables, shape), Some(Base::Structure(_))) {
            return true;
        }
        is_more(values_in(items.as_slice()), self.size_of(shape))
    }

    /// Whether no name takes the initial value.
    pub fn is_misvalued(&self, shape: &Shape<'_>, initial: &Option<Boxed<Initial>>) -> bool
        ensures { result ≡ is_misvalued (units_of self.now) shape.now initial.now }
    {
        match initial {
            None => false,
            Some(initial) => is_composed(shape) || self.is_excessive(shape, initial.get()),
        }
    }
}

/// How many elements an array type has, where all its subscripts are right and there are fewer than 2^128.
fn declared_size(unit: UnitKind<'_>) -> Option<u128>
    ensures { result ≡ counted (declared_size (declared_by unit.entry)) }
{
    match unit {
        UnitKind::Type(DeclaredType::Derived(Specification::Array(_, ranges, _), _)) => {
            array_size(ranges.as_slice())
        }
        _ => None,
    }
}

/// Whether there are more than so many, where that is known.
fn is_more(count: u128, most: Option<u128>) -> bool
    ensures { result ≡ is_more count most }
{
    match most {
        Some(most) => most < count,
        None => false,
    }
}

/// How many values an item of a list gives.
fn item_size(item: &ArrayElement) -> u128
    ensures value { result ≡ item_size item.now }
    ensures small { result ≤ 2 ^ 64 }
{
    match item {
        ArrayElement::Single(_) => 1,
        ArrayElement::Repeated(_, count, _) => count.get().min(1 << 64),
    }
}

/// How many values a list gives.
fn values_in(items: &[ArrayElement]) -> u128
    ensures { result ≡ sum_by item_size items.now }
{
    let mut count: u128 = 0;
    for item in items {
        count += item_size(item);
    }
    count
}
