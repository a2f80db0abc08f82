//! Where a place stands, as far as it is known without running (2.4.1).
ghost use Rattle.std.specs.Prelude.{◌≡◌, ◌||◌, IfOk, IfSome, IsTrue, None, not, option_map};
ghost use Rattle.std.specs.Option.{is_some};
ghost use Rattle.st_leaves.specs.Selected.{selected_by};
ghost use Rattle.st_meaning.specs.Offsets.{IsSmall};
ghost use Rattle.st_meaning.specs.Sound.{is_fixed};
ghost use Rattle.st_meaning.specs.Terms.{Parts, field_part, whole};
ghost use Rattle.st_meaning.specs.Typing.{part_typed, place_of};
ghost use Rattle.st_meaning.specs.Wholes.{type_of};
ghost use Rattle.st_code.specs.Code.{base_of};
ghost use Rattle.st_emit_expressions.specs.Places.{AreStops, IsTaken};
ghost use Rattle.st_places.specs.Parts.{IsNodeOf, part_in};
ghost use Rattle.st_emit_expressions.specs.Trees.{constant_in, whole_of};
ghost use Rattle.st_values.specs.Values.{IsValue};

use crate::scope::Scope;
use st_places::Node;
use st_tree::tree::{Part, Variable};
use st_values::{Elem, Value};
use std::alloc::AllocError;

/// A place of an elementary type.
#[derive(Clone, Copy)]
pub struct Place {
    /// Its type.
    pub elem: Elem,
    /// How many leaves stand before it, where each subscript is the least.
    pub base: u32,
    /// Whether it is found without subscripts.
    pub is_fixed: bool,
}

/// What a part selects.
#[derive(Clone, Copy)]
pub(crate) struct Taken {
    pub node: Node,
    /// How many leaves stand before it, where each subscript is the least.
    pub before: u32,
    /// Whether a name selects it.
    pub is_member: bool,
}

/// What stands before a part.
#[derive(Clone, Copy)]
pub(crate) struct Stop {
    pub node: Node,
    /// Whether subscripts stand before it.
    pub is_indexed: bool,
}

impl Stop {
    /// What stands behind a part.
    fn behind(self, taken: Taken) -> Stop
        ensures { result ≡ record {
          node = taken.node;
          is_indexed = self.is_indexed
              || not taken.is_member;
        } }
    {
        Stop {
            node: taken.node,
            is_indexed: self.is_indexed || !taken.is_member,
        }
    }
}

/// What a part selects, where it selects something.
pub(crate) fn take_part(scope: &Scope<'_>, node: Node, part: &Part) -> Option<Taken>
    requires node { IsNodeOf scope.now.0 node }
    requires small { IsSmall (part_in scope.now.0 node) }
    ensures taken { IfSome result
        (λ t. IsTaken (whole_of scope.now) scope.now.0 (part_in scope.now.0 node) part.now t) }
    ensures none { result ≡ None → (rest : Parts)
        → type_of (part_in scope.now.0 node) (part_typed (whole_of scope.now) part.now rest)
        ≡ None }
{
    match part {
        Part::Field(name) => {
            let (before, node) = scope.select(node, name.spelling.as_slice())?;
            Some(Taken {
                node,
                before,
                is_member: true,
            })
        }
        Part::Subscripts(_, subscripts) => {
            let (dimensions, node) = scope.elements(node)?;
            if dimensions.len() != subscripts.len() {
                return None;
            }
            Some(Taken {
                node,
                before: 0,
                is_member: false,
            })
        }
    }
}

/// Where the variable, or the part of one, stands, where it has an elementary type.
pub fn locate(scope: &Scope<'_>, variable: &Variable) -> Option<Place>
    ensures elem { option_map (λ p. p.elem) result
        ≡ type_of (whole_of scope.now).variables (place_of (whole_of scope.now) variable.now) }
    ensures base { IfSome result
        (λ p. p.base ≡ base_of (whole_of scope.now).variables
        (place_of (whole_of scope.now) variable.now)) }
    ensures fixed { IfSome result
        (λ p. p.is_fixed ≡ is_fixed (place_of (whole_of scope.now) variable.now)) }
{
    let (mut base, mut node) = scope.select(scope.root(), variable.name.spelling.as_slice())?;
    let mut is_fixed = true;
    for part in variable.parts.as_slice() {
        let next = take_part(scope, node, part)?;
        node = next.node;
        base += next.before;
        is_fixed = is_fixed && next.is_member;
    }
    let elem = scope.value(node)?;
    Some(Place {
        elem,
        base,
        is_fixed,
    })
}

/// The type of the variable of this name, and how many leaves stand before it.
pub fn place_named(scope: &Scope<'_>, name: &[u8]) -> Option<(Elem, u32)>
    ensures elem { option_map (λ found. found.0) result
        ≡ type_of (whole_of scope.now).variables (field_part name.now whole) }
    ensures leaf { IfSome result
        (λ found. found.1 ≡ base_of (whole_of scope.now).variables (field_part name.now whole)) }
{
    let (leaf, node) = scope.select(scope.root(), name)?;
    let elem = scope.value(node)?;
    Some((elem, leaf))
}

/// The elementary type of the variable, or of the part of one.
pub(crate) fn place_type(scope: &Scope<'_>, variable: &Variable) -> Option<Elem>
    ensures { result ≡ type_of (whole_of scope.now).variables
        (place_of (whole_of scope.now) variable.now) }
{
    let place = locate(scope, variable)?;
    Some(place.elem)
}

/// The value of the constant, where the name is that of one.
pub(crate) fn constant_named(scope: &Scope<'_>, variable: &Variable) -> Option<Value>
    ensures value { result ≡ constant_in (whole_of scope.now)
        (place_of (whole_of scope.now) variable.now) }
    ensures in_range { IfSome result (λ value. IsValue value) }
{
    if variable.parts.is_empty() {
        scope.constant(variable.name.spelling.as_slice())
    } else {
        None
    }
}

/// What stands before each part of a variable.
pub(crate) fn stops(scope: &Scope<'_>, variable: &Variable) -> Result<Vec<Stop>, AllocError>
    requires { IsTrue (is_some (type_of (whole_of scope.now).variables
        (place_of (whole_of scope.now) variable.now))) }
    ensures { IfOk result (λ all. AreStops (whole_of scope.now)
        scope.now.0 (type_of (whole_of scope.now).variables
        (place_of (whole_of scope.now) variable.now))
        (selected_by (whole_of scope.now).variables variable.now.name.spelling)
        variable.now.parts all.items) }
{
    let mut all = scope.list();
    let Some((_, node)) = scope.select(scope.root(), variable.name.spelling.as_slice()) else {
        return Ok(all);
    };
    let mut stop = Stop {
        node,
        is_indexed: false,
    };
    for part in variable.parts.as_slice() {
        all.push(stop)?;
        let Some(next) = take_part(scope, stop.node, part) else {
            return Ok(all);
        };
        stop = stop.behind(next);
    }
    Ok(all)
}
