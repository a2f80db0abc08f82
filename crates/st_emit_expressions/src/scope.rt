//! What the names in the statements of a unit stand for.
ghost use Rattle.std.specs.Prelude.{◌≡◌, ◌<◌, IfSome, None, [], false, length, option_map, true};
ghost use Rattle.st_values.specs.Values.{IsValue};
ghost use Rattle.st_types.specs.Compositions.{unknown};
ghost use Rattle.st_leaves.specs.Places.{count};
ghost use Rattle.st_leaves.specs.Selected.{element_of, selected_by, subscripts_of, value_type};
ghost use Rattle.st_meaning.specs.Offsets.{IsSmall, chart_offset, offset_of};
ghost use Rattle.st_meaning.specs.Wholes.{Input, block_of};
ghost use Rattle.std.specs.List.{All};
ghost use Rattle.st_places.specs.Charts.{leaf_of_step};
ghost use Rattle.st_places.specs.Parts.{IsNodeOf, is_array, part_in, whole_in};
ghost use Rattle.st_places.specs.Dimensions.{dimensions_in};
ghost use Rattle.st_emit_expressions.specs.Trees.{whole_of};

use st_places::{Dimension, Function, Node, Tables};
use st_types::StandardBlock;
use st_values::{Elem, Value};
use std::alloc::Global;
use std::marker::Model;

/// What the names in the statements of a unit stand for.
#[derive(Drop)]
pub struct Scope<'a> {
    alloc: Global,
    tables: &'a Tables<'a>,
    /// The number of the unit.
    unit: usize,
}

impl<'a> Model for Scope<'a> {
    ghost use Rattle.std.specs.Coded.{codes};
    ghost use Rattle.std.specs.Prelude.{ℕ};
    ghost use Rattle.st_tree.specs.contracts.tree.expression.Expression as expression;
    ghost use Rattle.st_tree.specs.contracts.tree.statement.Statement as statement;
    ghost use Rattle.st_meaning.specs.Offsets.{IsSmall};
    ghost use Rattle.st_places.specs.Parts.{TablesView, whole_in};

    ghost Value = { TablesView × ℕ };

    ghost coded = { Prim.hlevel (codes, statement.the_row.coded, expression.the_row.coded) };

    ghost view = { λ s. (s.tables.now, s.unit) };

    ghost invariant = { λ s. IsSmall (whole_in s.tables.now s.unit).variables };
}

impl<'a> Scope<'a> {
    /// That of the unit of this number.
    pub fn new(alloc: Global, tables: &'a Tables<'a>, unit: usize) -> Scope<'a>
        requires { IsSmall (whole_in tables.now unit).variables }
        ensures { result ≡ (tables.now, unit) }
    {
        Scope {
            alloc,
            tables,
            unit,
        }
    }

    /// A list with nothing in it. It takes no memory.
    pub(crate) fn list<T>(&self) -> Vec<T>
        ensures { result.items ≡ [] }
    {
        Vec::new(self.alloc)
    }

    /// What the path of a variable of this unit begins with: the unit's variables.
    pub fn root(&self) -> Node
        ensures part { part_in self.now.0 result ≡ (whole_of self.now).variables }
        ensures node { IsNodeOf self.now.0 result }
        ensures small { IsSmall (whole_of self.now).variables }
    {
        self.tables.root(self.unit)
    }

    /// The value of a constant.
    pub(crate) fn constant(&self, name: &[u8]) -> Option<Value>
        ensures value { result ≡ (whole_of self.now).constants name.now }
        ensures in_range { IfSome result (λ value. IsValue value) }
    {
        self.tables.constant(self.unit, name)
    }

    /// What a name selects, and how many leaves stand before it.
    pub fn select(&self, node: Node, name: &[u8]) -> Option<(u32, Node)>
        requires node { IsNodeOf self.now.0 node }
        requires small { IsSmall (part_in self.now.0 node) }
        ensures offset { IfSome result
            (λ found. found.0 ≡ offset_of (part_in self.now.0 node) name.now) }
        ensures part { IfSome result
            (λ found. part_in self.now.0 found.1 ≡ selected_by (part_in self.now.0 node) name.now) }
        ensures node { IfSome result (λ found. IsNodeOf self.now.0 found.1) }
        ensures none { result ≡ None → selected_by (part_in self.now.0 node) name.now ≡ unknown }
    {
        self.tables.select(node, name)
    }

    /// The subscripts of an array, and its elements.
    pub(crate) fn elements(&self, node: Node) -> Option<(&'a [Dimension], Node)>
        requires node { IsNodeOf self.now.0 node }
        requires small { IsSmall (part_in self.now.0 node) }
        ensures array { IfSome result (λ found. is_array (part_in self.now.0 node) ≡ true) }
        ensures number { IfSome result
            (λ found. length found.0.now ≡ length (subscripts_of (part_in self.now.0 node))) }
        ensures dimensions { IfSome result
            (λ found. 0 < count (element_of (part_in self.now.0 node))
            → found.0.now ≡ dimensions_in (subscripts_of (part_in self.now.0 node))
            (count (element_of (part_in self.now.0 node)))) }
        ensures part { IfSome result
            (λ found. part_in self.now.0 found.1 ≡ element_of (part_in self.now.0 node)) }
        ensures node { IfSome result (λ found. IsNodeOf self.now.0 found.1) }
        ensures none { result ≡ None → is_array (part_in self.now.0 node) ≡ false }
    {
        self.tables.elements(node)
    }

    /// The type of the one value, where there is one.
    pub fn value(&self, node: Node) -> Option<Elem>
        requires node { IsNodeOf self.now.0 node }
        ensures { result ≡ value_type (part_in self.now.0 node) }
    {
        self.tables.value(node)
    }

    /// The standard function block that the part is an instance of.
    pub fn block(&self, node: Node) -> Option<StandardBlock>
        requires node { IsNodeOf self.now.0 node }
        ensures { result ≡ block_of (part_in self.now.0 node) }
    {
        self.tables.block(node)
    }

    /// The number of the function block of the text that a name is an instance of.
    pub fn instance(&self, name: &[u8]) -> Option<usize>
        ensures { result ≡ option_map (λ unit. unit.number) ((whole_of self.now).invoked name.now) }
    {
        self.tables.instance(self.unit, name)
    }

    /// The leaf that says of the step of this name for how long it has been active, where `is_time`, else whether it is.
    pub(crate) fn step(&self, is_time: bool, name: &[u8]) -> Option<u32>
        ensures { result ≡ leaf_of_step (whole_of self.now).variables is_time name.now }
    {
        self.tables.step(self.unit, is_time, name)
    }

    /// The first leaf of the chart.
    pub fn chart_leaf(&self) -> u32
        ensures { result ≡ chart_offset (whole_of self.now).variables }
    {
        self.tables.chart_leaf(self.unit)
    }

    /// The function of the text of this name.
    pub(crate) fn function(&self, name: &[u8]) -> Option<&'a Function<'a>>
        ensures some { IfSome result
            (λ function. (whole_of self.now).functions name.now ≡ Some function.now) }
        ensures none { result ≡ None → (whole_of self.now).functions name.now ≡ None }
        ensures in_range { IfSome result
            (λ function. All (λ (input : Input). IsValue input.initial) function.now.inputs) }
    {
        self.tables.function(name)
    }
}
