//! What the pairs of an online change say of single leaves.
ghost use Rattle.std.specs.Prelude.{◌≡◌, ◌<◌, ◌&&◌, length, nat_lt};
ghost use Rattle.std.specs.Option.{is_none};
ghost use Rattle.st_layout.specs.Pairs.{number_at};

use st_layout::{Layout, Plan};

/// The number of the old leaf whose place a new one takes. There is none past the last new leaf.
pub fn source_of(plan: &Plan, new: &Layout, leaf: u32) -> Option<u32>
    requires { length plan.now.sources ≡ length new.now }
    ensures { result ≡ number_at plan.now.sources leaf }
{
    if leaf < new.len() {
        plan.source(leaf)
    } else {
        None
    }
}

/// Tests whether no new leaf takes the place of this old one.
pub fn is_dropped(plan: &Plan, leaf: u32) -> bool
    requires { leaf < length plan.now.targets }
    ensures { result ≡ is_none (number_at plan.now.targets leaf) }
{
    plan.target(leaf).is_none()
}

/// Tests whether this is the number of a leaf that was dropped.
pub fn names_dropped(plan: &Plan, old: &Layout, number: u32) -> bool
    requires { length plan.now.targets ≡ length old.now }
    ensures { result ≡ (nat_lt number (length old.now)
        && is_none (number_at plan.now.targets number)) }
{
    number < old.len() && is_dropped(plan, number)
}
