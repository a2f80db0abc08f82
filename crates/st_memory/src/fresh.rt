//! With which values new leaves begin that take no other's place.
ghost use Rattle.std.specs.Prelude.{◌≡◌, ◌<◌, length, List as Items};
ghost use Rattle.st_layout.specs.Pairs.{AreBelow};
ghost use Rattle.st_leaves.specs.Sound.{IsValueOf};
ghost use Rattle.st_memory.specs.Memory.{value_at};
ghost use Rattle.st_memory.specs.Moves.{fresh_value, truth, was_true};
ghost use Rattle.st_tree.specs.declared.leaf.Leaf.{Leaf};
ghost use Rattle.st_values.specs.declared.value.Value.{Value};
ghost use Rattle.st_values.specs.Values.{IsValue};

use crate::pairs::source_of;
use st_layout::{Layout, Plan};
use st_tree::{Leaf, Role};
use st_values::Value;

/// The values of the old leaves, in whichever form a memory keeps them.
pub trait OldValues {
    /// The values, over the layout that they are of.
    ghost values: { Items Leaf → Self → Items Value };

    /// They are the values of this layout's leaves.
    ghost AreOver: { Items Leaf → Self → Type 0 };

    /// The value of an old leaf.
    fn at(&self, old: &Layout, leaf: u32) -> Value
        requires over { AreOver old.now self.now }
        requires below { leaf < length old.now }
        ensures { result ≡ value_at (values old.now self.now) leaf };
}

/// The first value of a new leaf that takes no other's place.
pub fn fresh_value<V: OldValues>(
    plan: &Plan,
    old: &Layout,
    new: &Layout,
    values: &V,
    leaf: &Leaf,
) -> Value
    requires count { length plan.now.sources ≡ length new.now }
    requires below { AreBelow plan.now.sources (length old.now) }
    requires over { V.AreOver old.now values.now }
    requires initial { IsValueOf leaf.now leaf.now.initial }
    ensures value { result
        ≡ fresh_value plan.now.sources (V.values old.now values.now) leaf.now leaf.now.role }
    ensures in_range { IsValue result }
{
    match leaf.role {
        Role::StepActive { begun } => {
            if source_of(plan, new, begun).is_some() {
                truth_of(leaf, false)
            } else {
                leaf.initial
            }
        }
        Role::StepPulsed { active, begun } => {
            let ran = takes_true(plan, old, new, values, active)
                && takes_true(plan, old, new, values, begun);
            truth_of(leaf, ran)
        }
        _ => leaf.initial,
    }
}

/// Tests whether a new leaf takes the place of one that was TRUE.
fn takes_true<V: OldValues>(plan: &Plan, old: &Layout, new: &Layout, values: &V, leaf: u32) -> bool
    requires count { length plan.now.sources ≡ length new.now }
    requires below { AreBelow plan.now.sources (length old.now) }
    requires over { V.AreOver old.now values.now }
    ensures { result ≡ was_true plan.now.sources (V.values old.now values.now) leaf }
{
    match source_of(plan, new, leaf) {
        Some(source) => values.at(old, source).bits == 1,
        None => false,
    }
}

/// FALSE or TRUE in the leaf's type.
fn truth_of(leaf: &Leaf, is_true: bool) -> Value
    ensures { result ≡ truth leaf.now is_true }
{
    Value {
        elem: leaf.elem,
        bits: if is_true { 1 } else { 0 },
    }
}
