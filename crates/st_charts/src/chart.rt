//! One invocation of a chart.
ghost use Rattle.std.specs.Prelude.{◌≡◌, ◌<◌, ℕ, length};
ghost use Rattle.st_charts.specs.Charts.{AreCleared, active_in, asked, is_on, remembered, step_between, step_in, stored_after};
ghost use Rattle.st_charts.specs.Passages.{marked, passages_of};

use crate::clearing::{clear, enter_cleared};
use crate::names::control;
use crate::step::{StepCell, chart_times, remember};
use crate::table::ChartTable;

/// Does what one invocation of a chart does, at a moment in milliseconds, to what it keeps of its steps and to the stored flags
/// of its names.
///
/// `conditions` says whose conditions are TRUE, and then which transitions were cleared; `on` says then which names are on.
pub fn chart_step(
    table: &ChartTable,
    begun: bool,
    steps: &mut [StepCell],
    flags: &mut [bool],
    conditions: &mut [bool],
    on: &mut [bool],
    now: i64,
)
    requires steps { length steps.old ≡ table.now.steps }
    requires flags { length flags.old ≡ table.now.names }
    requires conditions { length conditions.old ≡ length table.now.transitions.items }
    requires on { length on.old ≡ table.now.names }
    ensures cleared { AreCleared (passages_of table.now.transitions.items) (active_in steps.old)
        (asked begun (marked conditions.old)) (marked conditions.new) }
    ensures steps { let between = step_between (passages_of table.now.transitions.items) (marked conditions.new) begun now (step_in steps.old) in
        (s : ℕ) → s < length steps.old → step_in steps.new s ≡ remembered (between s) }
    ensures flags { let between = step_between (passages_of table.now.transitions.items) (marked conditions.new) begun now (step_in steps.old) in
        (n : ℕ) → n < length flags.old → marked flags.new n ≡ stored_after table.now.links.items between (marked flags.old) n }
    ensures on { let between = step_between (passages_of table.now.transitions.items) (marked conditions.new) begun now (step_in steps.old) in
        (n : ℕ) → n < length flags.old → marked on.new n ≡ is_on table.now.links.items between (marked flags.old) n }
{
    chart_times(begun, steps, now);
    if !begun {
        conditions.fill(false);
    }
    clear(table, steps, conditions);
    enter_cleared(table, steps, conditions, now);
    control(table.links.as_slice(), steps, flags, on);
    remember(steps);
}
