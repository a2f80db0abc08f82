//! The order, or the rows that reach themselves.
ghost use Rattle.std.specs.Prelude.{◌≡◌, ℕ, Vec, IfOk, OnOk};
ghost use Rattle.std.specs.Global.{Global};
ghost use Rattle.st_references.specs.Graphs.{AreCyclic, IsClosed, IsOrder, Reaches};
ghost use Rattle.st_references.specs.declared.sorting.OrderFault.TheVariants.{Memory};

use crate::cycles::cyclic_rows;
use crate::walk::postorder;
use st_tree::List;
use std::alloc::{AllocError, Global};
use thiserror::Error;

/// Why there is no order.
#[derive(Debug, Drop, Error)]
pub enum OrderFault {
    /// Memory ran out.
    #[error("out of memory")]
    Memory,
    /// These rows reach themselves, and no others do.
    #[error("rows {0:?} reach themselves")]
    Cyclic(Vec<usize>),
}

impl From<AllocError> for OrderFault {
    ghost from_gives = { λ _ fault. fault ≡ Memory };

    fn from(_: AllocError) -> OrderFault {
        OrderFault::Memory
    }
}

/// An order in which each row stands once, after all that it refers to, in time linear in the rows and references.
///
/// Item `i` of the graph lists the rows that row `i` refers to. Where a row refers to itself, directly or through others
/// (IEC 61131-3:2003, 2.5 forbids it to functions and blocks), there is no such order, and all such rows are answered.
pub fn order(alloc: Global, graph: &[List<usize>]) -> Result<Vec<usize>, OrderFault>
    requires closed { IsClosed graph.now }
    ensures order { IfOk result (λ order. IsOrder graph.now order.items) }
    // Where there is an order, no row reaches itself.
    ensures none { OnOk result ((a : ℕ) → Reaches graph.now a a → ⊥) }
    ensures cyclic { (rows : Vec ℕ Global) → result ≡ Err (OrderFault.Cyclic rows)
        → AreCyclic graph.now rows.items }
{
    let order = postorder(alloc, graph)?;
    let cyclic = cyclic_rows(alloc, graph, &order)?;
    if cyclic.is_empty() {
        Ok(order)
    } else {
        Err(OrderFault::Cyclic(cyclic))
    }
}
