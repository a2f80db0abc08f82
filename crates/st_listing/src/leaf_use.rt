//! What leaves are for.
ghost use Rattle.std.specs.Prelude.{◌≡◌};
ghost use Rattle.st_leaves.specs.LeavesIn.{plain};
ghost use Rattle.st_leaves.specs.Programs.{role_at};
ghost use Rattle.st_listing.specs.Listings.{use_in};
ghost use Rattle.st_listing.specs.Uses.{meant};

use st_tree::Role;

/// What a leaf of a part is for.
#[derive(Clone, Copy)]
pub(crate) enum LeafUse {
    /// A variable.
    Plain,
    /// What a block, a step or an action keeps for itself.
    Hidden,
    /// Whether a chart has begun.
    Begun,
    /// Whether a step is active. The leaf that tells whether its chart has begun stands so many leaves before.
    Active(u32),
    /// For how long a step has been active.
    Elapsed,
    /// Whether a step has given its pulses. The leaves that tell whether it is active and whether its chart has begun stand so
    /// many leaves before.
    Pulsed(u32, u32),
}

impl LeafUse {
    /// What the leaf of this number is for, in an input of the program or elsewhere.
    pub fn role(self, number: u32, is_input: bool) -> Role
        ensures { result ≡ role_at number (use_in is_input (meant self)) }
    {
        match self {
            LeafUse::Plain => plain_role(is_input),
            LeafUse::Hidden => Role::Hidden,
            LeafUse::Begun => Role::ChartBegun,
            LeafUse::Active(back) => Role::StepActive {
                begun: number.saturating_sub(back),
            },
            LeafUse::Elapsed => Role::StepTime,
            LeafUse::Pulsed(active_back, begun_back) => Role::StepPulsed {
                active: number.saturating_sub(active_back),
                begun: number.saturating_sub(begun_back),
            },
        }
    }
}

/// What a variable is for, in an input of the program or elsewhere.
fn plain_role(is_input: bool) -> Role
    ensures { result ≡ role_at 0 (use_in is_input plain) }
{
    if is_input {
        Role::ProcessInput
    } else {
        Role::Plain
    }
}
