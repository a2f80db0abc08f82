//! Memories: what a layout's leaves hold while the program runs.
ghost use Rattle.std.specs.Prelude.{◌≡◌, ◌<◌, IfOk, OnErr, OnOk, length, List as Items};
ghost use Rattle.std.specs.List.{All};
ghost use Rattle.st_layout.specs.Layout.{IsOpenAt, IsValueAt, leaf_at};
ghost use Rattle.st_memory.specs.Memory.{Content, Fits, ForcesAreOpen, forced_at, initial_content, value_at, with_force, with_value};
ghost use Rattle.st_memory.specs.Moves.{HoldsValues, moved, saved, unmoved};
ghost use Rattle.st_layout.specs.Pairs.{IsPairing};
ghost use Rattle.st_tree.specs.declared.leaf.Leaf.{Leaf};

use crate::saved::Saved;
use st_layout::{Layout, Plan};
use st_values::{Elem, Value};
use std::alloc::{AllocError, Global};

/// A memory: the value of each leaf of a layout, and whether the leaf is forced.
pub trait Memory: Sized + Drop {
    /// What it holds, over the layout that it was made for.
    ghost content: { Items Leaf → Self → Content };

    /// It was made for this layout.
    ghost IsOver: { Items Leaf → Self → Type 0 };

    /// A memory of the initial values, where no leaf is forced.
    fn fresh(alloc: Global, layout: &Layout) -> Result<Self, AllocError>
        ensures over { IfOk result (λ memory. IsOver layout.now memory) }
        ensures initial { IfOk result (λ memory. content layout.now memory ≡ initial_content layout.now) };

    /// The type of a leaf.
    fn elem(&self, layout: &Layout, leaf: u32) -> Elem
        requires over { IsOver layout.now self.now }
        requires below { leaf < length layout.now }
        ensures { result ≡ (leaf_at layout.now leaf).elem };

    /// The value of a leaf.
    fn get(&self, layout: &Layout, leaf: u32) -> Value
        requires over { IsOver layout.now self.now }
        requires below { leaf < length layout.now }
        ensures value { result ≡ value_at (content layout.now self.now).values leaf }
        ensures fits { IsValueAt layout.now leaf result };

    /// Sets the value of a leaf, of a forced one too.
    fn set(&mut self, layout: &Layout, leaf: u32, value: Value)
        requires over { IsOver layout.now self.old }
        requires below { leaf < length layout.now }
        requires value { IsValueAt layout.now leaf value }
        ensures over { IsOver layout.now self.new }
        ensures set { content layout.now self.new ≡ with_value (content layout.now self.old) leaf value };

    /// Whether a leaf is forced.
    fn forced(&self, layout: &Layout, leaf: u32) -> bool
        requires over { IsOver layout.now self.now }
        requires below { leaf < length layout.now }
        ensures { result ≡ forced_at (content layout.now self.now).forced leaf };

    /// Marks a leaf as forced, or as not forced.
    fn mark(&mut self, layout: &Layout, leaf: u32, on: bool)
        requires over { IsOver layout.now self.old }
        requires below { leaf < length layout.now }
        ensures over { IsOver layout.now self.new }
        ensures marked { content layout.now self.new ≡ with_force (content layout.now self.old) leaf on };

    /// Copies all values and forces from another memory over the layout.
    fn take_from(&mut self, layout: &Layout, other: &Self)
        requires over { IsOver layout.now self.old }
        requires from { IsOver layout.now other.now }
        ensures over { IsOver layout.now self.new }
        ensures same { content layout.now self.new ≡ content layout.now other.now };

    /// Goes over to the layout of a new program, and gives what it drops. It makes all that it needs before it replaces
    /// anything, so that a refusal for want of memory leaves it as it was.
    fn carry(
        &mut self,
        alloc: Global,
        plan: &Plan,
        old: &Layout,
        new: &Layout,
    ) -> Result<Saved, AllocError>
        requires over { IsOver old.now self.old }
        requires plan { IsPairing old.now new.now plan.now }
        ensures over { OnOk result (IsOver new.now self.new) }
        ensures moved { OnOk result
            (content new.now self.new ≡ moved new.now plan.now (content old.now self.old)) }
        ensures saved { IfOk result
            (λ dropped. dropped ≡ saved plan.now (content old.now self.old)) }
        ensures err { OnErr result (self.new ≡ self.old) };

    /// Goes back to the layout of the old program: kept leaves have their present values and forces, and dropped ones those
    /// that were saved. A refusal for want of memory leaves it as it was.
    fn back(
        &mut self,
        alloc: Global,
        plan: &Plan,
        old: &Layout,
        new: &Layout,
        dropped: &Saved,
    ) -> Result<(), AllocError>
        requires over { IsOver new.now self.old }
        requires plan { IsPairing old.now new.now plan.now }
        requires holds { HoldsValues old.now plan.now.targets dropped.now.bytes }
        ensures over { OnOk result (IsOver old.now self.new) }
        ensures unmoved { OnOk result
            (content old.now self.new
            ≡ unmoved old.now plan.now (content new.now self.old) dropped.now) }
        ensures err { OnErr result (self.new ≡ self.old) };

    /// What it holds is one value of the right type for each leaf, and as many marks.
    ghost fits: { (leaves : Items Leaf) (memory : Self) → IsOver leaves memory → Fits leaves (content leaves memory) };
}

/// Carries a memory over to the layout of a new program. What it gives is all that `back` needs to undo it exactly.
pub fn carry_over<M: Memory>(
    alloc: Global,
    memory: &mut M,
    plan: &Plan,
    old: &Layout,
    new: &Layout,
) -> Result<Saved, AllocError>
    requires over { M.IsOver old.now memory.old }
    requires plan { IsPairing old.now new.now plan.now }
    ensures over { OnOk result (M.IsOver new.now memory.new) }
    ensures moved { OnOk result
        (M.content new.now memory.new ≡ moved new.now plan.now (M.content old.now memory.old)) }
    ensures saved { IfOk result
        (λ dropped. dropped ≡ saved plan.now (M.content old.now memory.old)) }
    ensures back { IfOk result (λ dropped. unmoved old.now plan.now (M.content new.now memory.new)
        dropped ≡ M.content old.now memory.old) }
    ensures holds { IfOk result (λ dropped. HoldsValues old.now plan.now.targets dropped.bytes) }
    ensures open { ForcesAreOpen old.now (M.content old.now memory.old).forced
        → OnOk result (ForcesAreOpen new.now (M.content new.now memory.new).forced) }
    ensures open_saved { ForcesAreOpen old.now (M.content old.now memory.old).forced
        → IfOk result (λ dropped. All (IsOpenAt old.now) dropped.forced) }
    ensures err { OnErr result (memory.new ≡ memory.old) }
{
    memory.carry(alloc, plan, old, new)
}
