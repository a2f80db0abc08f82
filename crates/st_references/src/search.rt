//! The rows that a row reaches.
ghost use Rattle.std.specs.Prelude.{◌≡◌, ◌<◌, ℕ, length, All, OnOk};
ghost use Rattle.std.specs.List.{Contains};
ghost use Rattle.st_references.specs.Graphs.{IsClosed, IsRow, Reaches, Refers};
ghost use Rattle.st_references.specs.Searches.{AddsNew};
ghost use Rattle.st_references.specs.Walks.{IsSeen};

use st_tree::List;
use std::alloc::AllocError;

/// Lists those of the rows that aren't seen yet, and sees them.
fn add_new(rows: &[usize], seen: &mut Vec<bool>, found: &mut Vec<usize>) -> Result<(), AllocError>
    requires { All (λ a. a < length seen.old.items) rows.now }
    ensures length { OnOk result (length seen.new.items ≡ length seen.old.items) }
    ensures new { OnOk result (AddsNew (Contains rows.now)
        seen.old.items seen.new.items found.old.items found.new.items) }
{
    'rows: for row in rows {
        if !seen[*row] {
            seen[*row] = true;
            found.push(*row)?;
        }
    }
    Ok(())
}

/// Lists those rows that a row reaches and that aren't seen yet, and sees them.
pub fn add_reached(
    graph: &[List<usize>],
    from: usize,
    seen: &mut Vec<bool>,
    found: &mut Vec<usize>,
) -> Result<(), AllocError>
    requires closed { IsClosed graph.now }
    requires from { IsRow graph.now from }
    requires length { length seen.old.items ≡ length graph.now }
    // What seen rows refer to is seen.
    requires seen { (a b : ℕ) → IsSeen seen.old.items a → Refers graph.now a b
        → IsSeen seen.old.items b }
    ensures length { OnOk result (length seen.new.items ≡ length graph.now) }
    ensures new { OnOk result (AddsNew (Reaches graph.now from)
        seen.old.items seen.new.items found.old.items found.new.items) }
{
    let mut next = found.len();
    add_new(graph[from].as_slice(), seen, found)?;
    'found: while next < found.len() {
        let row = found[next];
        next += 1;
        add_new(graph[row].as_slice(), seen, found)?;
    }
    Ok(())
}
