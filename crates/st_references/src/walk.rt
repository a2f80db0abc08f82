//! A walk through a graph in depth.
ghost use Rattle.std.specs.Prelude.{◌≡◌, ℕ, [], false, slice_index_or, IfOk, OnOk};
ghost use Rattle.st_references.specs.Graphs.{IsClosed, IsRow};
ghost use Rattle.st_references.specs.Walks.{IsPostorder, IsSeen, IsWalk};

use st_tree::List;
use std::alloc::{AllocError, Global};

/// A row on the path of a walk, and how many of its references were followed.
#[derive(Clone, Copy)]
struct Visit {
    row: usize,
    followed: usize,
}

impl Visit {
    /// The visit of a row of which no reference was followed.
    fn of(row: usize) -> Visit
        ensures { result ≡ record { row = row; followed = 0 } }
    {
        Visit { row, followed: 0 }
    }
}

/// All rows of the graph, each at the place at which a walk in depth leaves it: after the rows that were met from it.
pub fn postorder(alloc: Global, graph: &[List<usize>]) -> Result<Vec<usize>, AllocError>
    requires closed { IsClosed graph.now }
    ensures { IfOk result (λ order. IsPostorder graph.now order.items) }
{
    let mut seen = Vec::from_elem(alloc, false, graph.len())?;
    let mut order = Vec::new(alloc);
    'rows: for row in 0..graph.len() {
        if !seen[row] {
            walk(alloc, graph, row, &mut seen, &mut order)?;
        }
    }
    Ok(order)
}

/// Walks to all rows that are met from a row and weren't seen before, and lists each as the walk leaves it.
fn walk(
    alloc: Global,
    graph: &[List<usize>],
    from: usize,
    seen: &mut Vec<bool>,
    order: &mut Vec<usize>,
) -> Result<(), AllocError>
    requires closed { IsClosed graph.now }
    requires from { IsRow graph.now from }
    requires new { slice_index_or seen.old.items from false ≡ false }
    requires walk { IsWalk graph.now [] seen.old.items order.old.items }
    ensures walk { OnOk result (IsWalk graph.now [] seen.new.items order.new.items) }
    ensures from { OnOk result (IsSeen seen.new.items from) }
    ensures kept { OnOk result ((a : ℕ) → IsSeen seen.old.items a → IsSeen seen.new.items a) }
{
    let mut path = Vec::new(alloc);
    path.push(Visit::of(from))?;
    seen[from] = true;
    'steps: while let Some(mut visit) = path.pop() {
        let references = graph[visit.row].as_slice();
        if visit.followed < references.len() {
            let reference = references[visit.followed];
            visit.followed += 1;
            path.push(visit)?;
            if !seen[reference] {
                path.push(Visit::of(reference))?;
                seen[reference] = true;
            }
        } else {
            order.push(visit.row)?;
        }
    }
    Ok(())
}
