//! The order in which the transitions of a chart are looked at.
ghost use Rattle.std.specs.Prelude.{◌≡◌, map, IfOk};
ghost use Rattle.st_charts.specs.Passages.{IsByPriority, passages_of};
ghost use Rattle.st_charts.specs.Ranks.{AreRanks, rank};

use crate::table::Transition;
use std::alloc::{AllocError, Global};

/// Whether a transition has no number, its number, and its place in the text.
type Rank = (bool, u128, usize);

/// The rank of a transition.
fn rank(priority: Option<u128>, place: usize) -> Rank
    ensures { result ≡ rank priority place }
{
    match priority {
        Some(number) => (false, number, place),
        None => (true, 0, place),
    }
}

/// The ranks of the transitions, in the order of the text.
fn ranks(alloc: Global, transitions: &[Transition]) -> Result<Vec<Rank>, AllocError>
    ensures { IfOk result (λ ranks. AreRanks (passages_of transitions.now) ranks.items) }
{
    let mut ranks = Vec::with_capacity(alloc, transitions.len())?;
    for (place, transition) in transitions.iter().enumerate() {
        ranks.push(rank(transition.priority, place))?;
    }
    Ok(ranks)
}

/// The places in the text that these ranks have.
fn places(alloc: Global, ranks: &[Rank]) -> Result<Vec<usize>, AllocError>
    ensures { IfOk result (λ places. places.items ≡ map (λ rank. rank.2) ranks.now) }
{
    ranks.iter().map(|rank| rank.2).collect(alloc)
}

/// The numbers of the transitions by their priorities, and those with the same in the order of the text.
pub fn by_priority(alloc: Global, transitions: &[Transition]) -> Result<Vec<usize>, AllocError>
    ensures { IfOk result (λ order. IsByPriority (passages_of transitions.now) order.items) }
{
    let mut ranks = ranks(alloc, transitions)?;
    ranks.sort()?;
    places(alloc, ranks.as_slice())
}
