//! The transitions that an invocation clears.
ghost use Rattle.std.specs.Prelude.{◌≡◌, length};
ghost use Rattle.st_charts.specs.Charts.{AreCleared, active_in, is_entered, is_left};
ghost use Rattle.st_charts.specs.Passages.{marked, passages_of};
ghost use Rattle.st_charts.specs.Stages.{Changes, entered, left};

use crate::step::{StepCell, are_active, enter, leave};
use crate::table::ChartTable;

/// Clears transitions, of those whose conditions are TRUE, and leaves the steps before them.
///
/// A step that a cleared transition has left isn't active any more, so that no later one that it precedes is cleared.
pub fn clear(table: &ChartTable, steps: &mut [StepCell], conditions: &mut [bool])
    requires steps { length steps.old ≡ table.now.steps }
    requires conditions { length conditions.old ≡ length table.now.transitions.items }
    ensures cleared { AreCleared (passages_of table.now.transitions.items) (active_in steps.old)
        (marked conditions.old) (marked conditions.new) }
    ensures left { Changes left
        (is_left (passages_of table.now.transitions.items) (marked conditions.new))
        steps.old steps.new }
{
    'transitions: for number in table.order.iter() {
        let before = table.transitions[*number].before.as_slice();
        let is_cleared = conditions[*number] && are_active(steps, before);
        conditions[*number] = is_cleared;
        if is_cleared {
            leave(steps, before);
        }
    }
}

/// Enters the steps after the transitions that are cleared.
pub fn enter_cleared(table: &ChartTable, steps: &mut [StepCell], cleared: &[bool], now: i64)
    requires steps { length steps.old ≡ table.now.steps }
    requires cleared { length cleared.now ≡ length table.now.transitions.items }
    ensures { Changes (entered now)
        (is_entered (passages_of table.now.transitions.items) (marked cleared.now))
        steps.old steps.new }
{
    'transitions: for (place, transition) in table.transitions.iter().enumerate() {
        if cleared[place] {
            enter(steps, transition.after.as_slice(), now);
        }
    }
}
