//! Tables of what names stand for in the statements of a text.
ghost use Rattle.std.specs.Prelude.{◌≡◌, ◌<◌, IfOk, IfSome, None, false, length, true, ℕ};
ghost use Rattle.std.specs.List.{All};
ghost use Rattle.std.specs.Option.{option_copied, option_map};
ghost use Rattle.st_references.specs.Tables.{AreInitials};
ghost use Rattle.st_check.specs.Programs.{text_of};
ghost use Rattle.st_leaves.specs.Places.{count};
ghost use Rattle.st_leaves.specs.Selected.{element_of, selected_by, subscripts_of, value_type};
ghost use Rattle.st_meaning.specs.Offsets.{IsSmall, chart_offset, offset_of};
ghost use Rattle.st_meaning.specs.Steps.{chart_within};
ghost use Rattle.st_meaning.specs.Units.{function_at};
ghost use Rattle.st_meaning.specs.Wholes.{Input, Invoked, block_of};
ghost use Rattle.st_references.specs.Graphs.{IsOrder};
ghost use Rattle.st_places.specs.Callables.{AreFunctions};
ghost use Rattle.st_places.specs.Charts.{leaf_of_step};
ghost use Rattle.st_places.specs.Dimensions.{dimensions_in};
ghost use Rattle.st_places.specs.Functions.{starts_at};
ghost use Rattle.st_places.specs.Members.{AreUnits};
ghost use Rattle.st_places.specs.Parts.{IsNodeOf, is_array, is_small_block_in, is_small_function_in, part_in, whole_in};
ghost use Rattle.st_check.specs.Sized.{IsSized};
ghost use Rattle.st_references.specs.References.{graph_of};
ghost use Rattle.st_types.specs.Compositions.{unknown};
ghost use Rattle.st_types.specs.Names.{units_of};
ghost use Rattle.st_types.specs.Types.{type_at};
ghost use Rattle.st_values.specs.Values.{IsValue};

use crate::content::{
    block_of, constant_named, elements, instance_named, is_small_block, selected, value_type,
};
use crate::function::Function;
use crate::functions::Functions;
use crate::node::{Dimension, Node};
use crate::step::{chart_leaf, chart_of, step};
use crate::unit::UnitParts;
use st_check::{Program, type_sizes};
use st_leaves::Size;
use st_meaning::Start;
use st_references::{Initials, types_written};
use st_scopes::Tables as Scopes;
use st_tree::tree::{ChartElement, Unit};
use st_types::StandardBlock;
use st_values::{Elem, Value};
use std::alloc::{AllocError, Global};
use std::marker::Model;

/// What the names in the statements of a text's units stand for. Names are compared without regard to case, and each look-up
/// takes constant time.
#[derive(Drop)]
pub struct Tables<'a> {
    text: &'a [Unit],
    units: Vec<UnitParts<'a>>,
    functions: Functions<'a>,
}

impl<'a> Model for Tables<'a> {
    ghost use Rattle.std.specs.Coded.{codes};
    ghost use Rattle.st_tree.specs.contracts.tree.expression.Expression as expression;
    ghost use Rattle.st_tree.specs.contracts.tree.statement.Statement as statement;
    ghost use Rattle.st_places.specs.Parts.{TablesView};

    ghost Value = { TablesView };

    ghost coded = { Prim.hlevel (codes, statement.the_row.coded, expression.the_row.coded) };

    ghost use Rattle.st_places.specs.Tables.{AreTables};

    ghost view = { λ t. record { text = t.text.now } };

    ghost invariant = { AreTables };
}

impl<'a> Tables<'a> {
    /// The tables of a checked program, in time linear in its text.
    pub fn of(alloc: Global, program: &'a Program) -> Result<Tables<'a>, AllocError>
        ensures { IfOk result (λ tables. tables.text ≡ text_of program.now) }
    {
        let text = program.units();
        let scopes = Scopes::new(alloc, text)?;
        let (units, functions) = parts_of(alloc, &scopes, program.order())?;
        Ok(Tables {
            text,
            units,
            functions,
        })
    }

    /// The variables of the unit of this number.
    pub fn root(&self, unit: usize) -> Node
        ensures part { part_in self.now result ≡ (whole_in self.now unit).variables }
        ensures node { IsNodeOf self.now result }
    {
        Node::Whole(unit)
    }

    /// The value of the constant of this name in the unit of this number.
    pub fn constant(&self, unit: usize, name: &[u8]) -> Option<Value>
        ensures value { result ≡ (whole_in self.now unit).constants name.now }
        ensures in_range { IfSome result (λ value. IsValue value) }
    {
        constant_named(&self.units, unit, name)
    }

    /// The number of the function block that the variable of this name in the unit of this number is an instance of.
    pub fn instance(&self, unit: usize, name: &[u8]) -> Option<usize>
        ensures { result ≡ option_map (λ (found : Invoked). found.number)
            ((whole_in self.now unit).invoked name.now) }
    {
        instance_named(&self.units, unit, name)
    }

    /// Whether the unit of this number is a function block whose instances have at most 65,536 leaves.
    pub fn is_small_block(&self, unit: usize) -> bool
        ensures { result ≡ is_small_block_in self.now unit }
    {
        is_small_block(&self.units, unit)
    }

    /// The function of this name, in whichever unit it is called.
    pub fn function(&self, name: &[u8]) -> Option<&Function<'a>>
        ensures function { (unit : ℕ)
            → option_copied result ≡ (whole_in self.now unit).functions name.now }
        ensures in_range { IfSome result
            (λ function. All (λ (i : Input). IsValue i.initial) function.now.inputs) }
    {
        self.functions.named(name)
    }

    /// The function that the unit of this number is.
    pub fn function_at(&self, number: usize) -> Option<&Function<'a>>
        ensures { option_copied result ≡ function_at (units_of self.now.text) number }
    {
        self.functions.at(number)
    }

    /// With which values the variables of the function begin that the unit of this number is, its result first. What is no function
    /// has none.
    pub fn starts(&self, unit: usize) -> &[Start]
        ensures { result.now ≡ starts_at self.now unit }
    {
        self.functions.starts(unit)
    }

    /// Whether the unit of this number is a function that has at most 999,999 variables.
    pub fn is_small_function(&self, unit: usize) -> bool
        ensures { result ≡ is_small_function_in self.now unit }
    {
        self.functions.is_small(unit)
    }

    /// The elements of the chart of the unit of this number. A unit without a chart has none.
    pub fn chart(&self, unit: usize) -> &'a [ChartElement]
        ensures { result.now ≡ chart_within (whole_in self.now unit).variables }
    {
        chart_of(&self.units, unit)
    }

    /// The first leaf of the chart of the unit of this number, which says whether the chart has begun.
    pub fn chart_leaf(&self, unit: usize) -> u32
        requires { IsSmall (whole_in self.now unit).variables }
        ensures { result ≡ chart_offset (whole_in self.now unit).variables }
    {
        chart_leaf(&self.units, unit)
    }

    /// The leaf of the step of this name in the unit of this number: the one that says for how long it has been active, or else
    /// the one that says whether it is.
    pub fn step(&self, unit: usize, is_time: bool, name: &[u8]) -> Option<u32>
        requires { IsSmall (whole_in self.now unit).variables }
        ensures { result ≡ leaf_of_step (whole_in self.now unit).variables is_time name.now }
    {
        step(&self.units, unit, is_time, name)
    }

    /// What a name selects, and how many leaves stand before it.
    pub fn select(&self, node: Node, name: &[u8]) -> Option<(u32, Node)>
        requires node { IsNodeOf self.now node }
        requires small { IsSmall (part_in self.now node) }
        ensures offset { IfSome result
            (λ found. found.0 ≡ offset_of (part_in self.now node) name.now) }
        ensures part { IfSome result
            (λ found. part_in self.now found.1 ≡ selected_by (part_in self.now node) name.now) }
        ensures node { IfSome result (λ found. IsNodeOf self.now found.1) }
        ensures none { result ≡ None → selected_by (part_in self.now node) name.now ≡ unknown }
    {
        selected(&self.units, node, name)
    }

    /// The subscripts of an array, and its elements.
    pub fn elements(&self, node: Node) -> Option<(&[Dimension], Node)>
        requires node { IsNodeOf self.now node }
        requires small { IsSmall (part_in self.now node) }
        ensures array { IfSome result (λ found. is_array (part_in self.now node) ≡ true) }
        ensures number { IfSome result
            (λ found. length found.0.now ≡ length (subscripts_of (part_in self.now node))) }
        ensures dimensions { IfSome result
            (λ found. 0 < count (element_of (part_in self.now node))
            → found.0.now ≡ dimensions_in (subscripts_of (part_in self.now node))
            (count (element_of (part_in self.now node)))) }
        ensures part { IfSome result
            (λ found. part_in self.now found.1 ≡ element_of (part_in self.now node)) }
        ensures node { IfSome result (λ found. IsNodeOf self.now found.1) }
        ensures none { result ≡ None → is_array (part_in self.now node) ≡ false }
    {
        elements(&self.units, node)
    }

    /// The type of the one value, where there is one.
    pub fn value(&self, node: Node) -> Option<Elem>
        requires node { IsNodeOf self.now node }
        ensures { result ≡ value_type (part_in self.now node) }
    {
        value_type(&self.units, node)
    }

    /// The standard function block that the part is an instance of.
    pub fn block(&self, node: Node) -> Option<StandardBlock>
        requires node { IsNodeOf self.now node }
        ensures { result ≡ block_of (part_in self.now node) }
    {
        block_of(&self.units, node)
    }
}

/// What names stand for in each unit, and the units as what can be called.
fn parts_of<'a>(
    alloc: Global,
    scopes: &Scopes<'a>,
    order: &[usize],
) -> Result<(Vec<UnitParts<'a>>, Functions<'a>), AllocError>
    requires { IsOrder (graph_of (units_of scopes.now)) order.now }
    ensures len { IfOk result (λ parts. length parts.0.items ≡ length (units_of scopes.now)) }
    ensures units { IfOk result (λ parts. AreUnits (units_of scopes.now) parts.0.items) }
    ensures functions { IfOk result (λ parts. AreFunctions (units_of scopes.now) parts.1) }
{
    let written = types_written(alloc, scopes)?;
    let initials = Initials::new(alloc, scopes, &written, order)?;
    let units = sized_units(alloc, scopes, &initials, order)?;
    let functions = Functions::of(alloc, scopes, &initials)?;
    Ok((units, functions))
}

/// The tables of all units, whose types are sized in this order.
fn sized_units<'a>(
    alloc: Global,
    scopes: &Scopes<'a>,
    initials: &Initials<'_>,
    order: &[usize],
) -> Result<Vec<UnitParts<'a>>, AllocError>
    requires initials { AreInitials (units_of scopes.now) initials.now }
    requires order { IsOrder (graph_of (units_of scopes.now)) order.now }
    ensures len { IfOk result (λ units. length units.items ≡ length (units_of scopes.now)) }
    ensures units { IfOk result (λ units. AreUnits (units_of scopes.now) units.items) }
{
    let sizes = type_sizes(alloc, scopes, order)?;
    all_units(alloc, scopes, initials, &sizes)
}

/// The tables of all units.
fn all_units<'a>(
    alloc: Global,
    scopes: &Scopes<'a>,
    initials: &Initials<'_>,
    sizes: &[Size],
) -> Result<Vec<UnitParts<'a>>, AllocError>
    requires initials { AreInitials (units_of scopes.now) initials.now }
    requires sizes { (i : ℕ) → IsSized (units_of scopes.now)
        sizes.now (type_at (units_of scopes.now) i) }
    ensures len { IfOk result (λ units. length units.items ≡ length (units_of scopes.now)) }
    ensures units { IfOk result (λ units. AreUnits (units_of scopes.now) units.items) }
{
    let mut units = Vec::with_capacity(alloc, scopes.len())?;
    'units: for unit in 0..scopes.len() {
        units.push(UnitParts::of(alloc, scopes, initials, sizes, unit)?)?;
    }
    Ok(units)
}
