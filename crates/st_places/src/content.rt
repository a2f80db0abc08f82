//! What names and subscripts select of parts.
ghost use Rattle.std.specs.Prelude.{◌≡◌, List as Items};
ghost use Rattle.std.specs.List.{position, slice_get};
ghost use Rattle.std.specs.Option.{option_copied, option_map};
ghost use Rattle.st_leaves.specs.Selected.{value_type};
ghost use Rattle.st_meaning.specs.Wholes.{Invoked, block_of};
ghost use Rattle.st_places.specs.Contents.{AreElementsOf, AreOf, IsContent, IsSelected, IsType, contents_of, elements_of, member_block, member_in};
ghost use Rattle.st_places.specs.Parts.{inside, node_part, optional_small_block, optional_whole};
ghost use Rattle.st_places.specs.declared.node.Node.TheVariants as nodes;
ghost use Rattle.st_types.specs.Compositions.{standard};
ghost use Rattle.st_types.specs.Names.{Named, unit_at};
ghost use Rattle.st_values.specs.Words.{is_word};

use crate::member::Member;
use crate::node::{Dimension, Node};
use crate::unit::{ArrayParts, UnitParts};
use st_types::{Base, Pin, StandardBlock, is_same_name};
use st_values::{Elem, Value};

/// What a part consists of.
#[derive(Clone, Copy)]
enum Content<'t> {
    /// It can't be known.
    Unknown,
    Value(Elem),
    /// The names and the chart of the unit of this number.
    Whole(usize),
    Block(StandardBlock),
    /// An array, and each of its elements.
    Array(&'t [Dimension], Node),
}

/// What the part consists of.
fn content_of<'t>(units: &'t [UnitParts<'_>], node: Node) -> Content<'t>
    ensures { (text : Items Named) → AreOf text units.now
        → IsContent text (node_part text node) result }
{
    match node {
        Node::Whole(unit) => Content::Whole(unit),
        Node::Member(unit, number) => member_content(units, unit, number),
        Node::Element(unit, number) => match member_at(units, unit, number) {
            Some(member) => base_content(units, member.base),
            None => Content::Unknown,
        },
        Node::ArrayElement(unit) => match elements_at(units, unit) {
            Some(elements) => base_content(units, elements.base),
            None => Content::Unknown,
        },
        Node::Pin(elem) => Content::Value(elem),
    }
}

/// What the name selects of the part, and how many leaves stand before it.
pub(crate) fn selected(units: &[UnitParts<'_>], node: Node, name: &[u8]) -> Option<(u32, Node)>
    ensures { (text : Items Named) → AreOf text units.now
        → IsSelected text (node_part text node) name.now result }
{
    match content_of(units, node) {
        Content::Whole(unit) => member_named(units, unit, name),
        Content::Block(block) => pin_named(block, name),
        Content::Unknown | Content::Value(_) | Content::Array(..) => None,
    }
}

/// The dimensions of the part and its elements, where it is an array.
pub(crate) fn elements<'t>(
    units: &'t [UnitParts<'_>],
    node: Node,
) -> Option<(&'t [Dimension], Node)>
    ensures { (text : Items Named) → AreOf text units.now
        → AreElementsOf text (node_part text node) result }
{
    match content_of(units, node) {
        Content::Array(dimensions, element) => Some((dimensions, element)),
        Content::Unknown | Content::Value(_) | Content::Whole(_) | Content::Block(_) => None,
    }
}

/// The type of the one value that the part is.
pub(crate) fn value_type(units: &[UnitParts<'_>], node: Node) -> Option<Elem>
    ensures { (text : Items Named) → AreOf text units.now
        → result ≡ value_type (node_part text node) }
{
    match content_of(units, node) {
        Content::Value(elem) => Some(elem),
        Content::Unknown | Content::Whole(_) | Content::Block(_) | Content::Array(..) => None,
    }
}

/// The standard function block that the part is an instance of.
pub(crate) fn block_of(units: &[UnitParts<'_>], node: Node) -> Option<StandardBlock>
    ensures { (text : Items Named) → AreOf text units.now
        → result ≡ block_of (node_part text node) }
{
    match content_of(units, node) {
        Content::Block(block) => Some(block),
        Content::Unknown | Content::Value(_) | Content::Whole(_) | Content::Array(..) => None,
    }
}

/// What the member of this number consists of.
fn member_content<'t>(units: &'t [UnitParts<'_>], unit: usize, number: usize) -> Content<'t>
    ensures { (text : Items Named) → AreOf text units.now
        → IsContent text (node_part text (nodes.Member unit number)) result }
{
    let Some(member) = member_at(units, unit, number) else {
        return Content::Unknown;
    };
    match &member.dimensions {
        Some(dimensions) => Content::Array(dimensions.as_slice(), Node::Element(unit, number)),
        None => base_content(units, member.base),
    }
}

/// What has this base consists of.
fn base_content<'t>(units: &'t [UnitParts<'_>], base: Base) -> Content<'t>
    ensures { (text : Items Named) → AreOf text units.now → IsType text base
        → IsContent text (inside text base) result }
{
    match base {
        Base::Unknown => Content::Unknown,
        Base::Elementary(elem) => Content::Value(elem),
        Base::Array(unit) => match elements_at(units, unit) {
            Some(elements) => {
                Content::Array(elements.dimensions.as_slice(), Node::ArrayElement(unit))
            }
            None => Content::Unknown,
        },
        Base::Structure(unit) | Base::Block(unit) => Content::Whole(unit),
        Base::Standard(block) => Content::Block(block),
    }
}

/// The value of the constant of this name in the unit of this number.
pub(crate) fn constant_named(units: &[UnitParts<'_>], unit: usize, name: &[u8]) -> Option<Value>
    ensures { (text : Items Named) → AreOf text units.now
        → result ≡ (optional_whole text (unit_at text unit)).constants name.now }
{
    let constants = &parts_of(units, unit)?.constants;
    let number = constants.names.find(name)?;
    value_at(constants.values.as_slice(), number)?
}

/// The number of the function block that the variable of this name in the unit of this number is an instance of.
pub(crate) fn instance_named(units: &[UnitParts<'_>], unit: usize, name: &[u8]) -> Option<usize>
    ensures { (text : Items Named) → AreOf text units.now
        → result ≡ option_map (λ (found : Invoked). found.number)
        ((optional_whole text (unit_at text unit)).invoked name.now) }
{
    let number = parts_of(units, unit)?.members.names.find(name)?;
    member_block(member_at(units, unit, number)?)
}

/// The number of the function block that the member is an instance of.
fn member_block(member: &Member) -> Option<usize>
    ensures { result ≡ member_block member.now }
{
    match (&member.dimensions, member.base) {
        (None, Base::Block(unit)) => Some(unit),
        _ => None,
    }
}

/// Whether the unit of this number is a function block whose instances have at most 65,536 leaves.
pub(crate) fn is_small_block(units: &[UnitParts<'_>], unit: usize) -> bool
    ensures { (text : Items Named) → AreOf text units.now
        → result ≡ optional_small_block text (unit_at text unit) }
{
    match parts_of(units, unit) {
        Some(parts) => parts.is_small_block,
        None => false,
    }
}

/// The value of this number.
fn value_at(values: &[Option<Value>], number: usize) -> Option<Option<Value>>
    ensures { result ≡ slice_get values.now number }
{
    values.get(number).copied()
}

/// The tables of the unit of this number.
pub(crate) fn parts_of<'t, 'a>(units: &'t [UnitParts<'a>], unit: usize) -> Option<&'t UnitParts<'a>>
    ensures { option_copied result ≡ slice_get units.now unit }
{
    units.get(unit)
}

/// The member of this number of a unit.
fn member_at<'t>(units: &'t [UnitParts<'_>], unit: usize, number: usize) -> Option<&'t Member>
    ensures { option_copied result ≡ member_in units.now unit number }
{
    let members = &parts_of(units, unit)?.members;
    members.items.as_slice().get(number)
}

/// The elements of the array type of a unit.
fn elements_at<'t>(units: &'t [UnitParts<'_>], unit: usize) -> Option<&'t ArrayParts>
    ensures { option_copied result ≡ elements_of units.now unit }
{
    parts_of(units, unit)?.elements.as_ref()
}

/// What the name selects of a unit, and how many leaves stand before it.
fn member_named(units: &[UnitParts<'_>], unit: usize, name: &[u8]) -> Option<(u32, Node)>
    ensures { (text : Items Named) → AreOf text units.now
        → IsSelected text (contents_of text (unit_at text unit)) name.now result }
{
    let number = parts_of(units, unit)?.members.names.find(name)?;
    let member = member_at(units, unit, number)?;
    Some((member.offset, Node::Member(unit, number)))
}

/// What the name selects of a standard function block, and how many leaves stand before it.
fn pin_named(block: StandardBlock, name: &[u8]) -> Option<(u32, Node)>
    ensures { (text : Items Named) → IsSelected text (standard block) name.now result }
{
    let pins = block.pins();
    let number = pin_number(pins, name)?;
    Some((number as u32, Node::Pin(pins[number].elem)))
}

/// The number of the first of these pins with this name.
fn pin_number(pins: &[Pin], name: &[u8]) -> Option<usize>
    ensures { result ≡ position (λ pin. is_word pin.name.now name.now) pins.now }
{
    pins.iter().position(|pin| is_same_name(pin.name, name))
}
