//! A graph with its references turned round.
ghost use Rattle.std.specs.Prelude.{◌≡◌, [], replicate, All, IfOk, OnOk};
ghost use Rattle.st_references.specs.Graphs.{IsClosed, IsRow};
ghost use Rattle.st_references.specs.Reversals.{AddsReferences, IsReversal};

use st_tree::List;
use std::alloc::{AllocError, Global};

/// The graph in which each row refers to the rows that refer to it in this one.
pub fn reversed(alloc: Global, graph: &[List<usize>]) -> Result<Vec<List<usize>>, AllocError>
    requires closed { IsClosed graph.now }
    ensures { IfOk result (λ reversal. IsReversal graph.now reversal.items) }
{
    let mut reversal = unconnected(alloc, graph.len())?;
    'rows: for (row, references) in graph.iter().enumerate() {
        add_references(&mut reversal, references.as_slice(), row)?;
    }
    Ok(reversal)
}

/// A graph of so many rows that refer to nothing.
fn unconnected(alloc: Global, rows: usize) -> Result<Vec<List<usize>>, AllocError>
    ensures { IfOk result (λ graph. graph.items ≡ replicate rows []) }
{
    let mut graph = Vec::new(alloc);
    for _row in 0..rows {
        graph.push(List::new(alloc))?;
    }
    Ok(graph)
}

/// Lets each of the rows `from` refer to the row `to`.
fn add_references(graph: &mut Vec<List<usize>>, from: &[usize], to: usize) -> Result<(), AllocError>
    requires { All (IsRow graph.old.items) from.now }
    ensures { OnOk result (AddsReferences from.now to graph.old.items graph.new.items) }
{
    'rows: for row in from {
        graph[*row].push(to)?;
    }
    Ok(())
}
