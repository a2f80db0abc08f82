//! The rows that reach themselves.
ghost use Rattle.std.specs.Prelude.{◌↔◌, ℕ, IfOk};
ghost use Rattle.std.specs.List.{Contains};
ghost use Rattle.st_references.specs.Graphs.{IsClosed, Reaches};
ghost use Rattle.st_references.specs.Walks.{IsPostorder};

use crate::reversal::reversed;
use crate::search::add_reached;
use st_tree::List;
use std::alloc::{AllocError, Global};

/// The rows that reach themselves, where all rows are given in the order in which a walk in depth leaves them.
///
/// From the last row to the first, all rows are found that reach a row and didn't reach one before.
pub fn cyclic_rows(
    alloc: Global,
    graph: &[List<usize>],
    order: &[usize],
) -> Result<Vec<usize>, AllocError>
    requires closed { IsClosed graph.now }
    requires order { IsPostorder graph.now order.now }
    ensures { IfOk result (λ rows. (a : ℕ) → Contains rows.items a ↔ Reaches graph.now a a) }
{
    let reversal = reversed(alloc, graph)?;
    let mut seen = Vec::from_elem(alloc, false, graph.len())?;
    let mut found = Vec::new(alloc);
    'rows: for place in (0..order.len()).rev() {
        let row = order[place];
        if !seen[row] {
            add_reached(&reversal, row, &mut seen, &mut found)?;
            seen[row] = true;
        }
    }
    Ok(found)
}
