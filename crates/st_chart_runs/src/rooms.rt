//! The room that charts need.
ghost use Rattle.st_chart_runs.specs.Charts.{IsRoomFor, IsWithin};
ghost use Rattle.st_chart_runs.specs.Views.{HasRoom, types_of};
ghost use Rattle.std.specs.Prelude.{◌≡◌, ◌≤◌, ◌-◌, ◌^◌, length, min, IfSome};

use crate::workspace::ChartRoom;
use st_meaning::Sketch;

/// How many leaves a chart has, as far as their number fits its type.
pub(crate) fn leaves_of(sketch: &Sketch) -> usize
    ensures { result ≡ min (length (types_of sketch.now)) (2 ^ 64 - 1) }
{
    sketch.flags_offset().saturating_add(sketch.stored().len())
}

/// Room for a chart, where there is one, beside this one.
fn with_chart(room: ChartRoom, chart: &Option<Sketch>) -> ChartRoom
    ensures fits { IfSome chart.now (λ view. HasRoom result view) }
    ensures steps { room.steps ≤ result.steps }
    ensures names { room.names ≤ result.names }
    ensures transitions { room.transitions ≤ result.transitions }
    ensures leaves { room.leaves ≤ result.leaves }
    ensures least { (other : ChartRoom) → IsWithin room other
        → IfSome chart.now (λ view. HasRoom other view) → IsWithin result other }
{
    match chart {
        Some(sketch) => ChartRoom {
            steps: room.steps.max(sketch.steps()),
            names: room.names.max(sketch.names()),
            transitions: room.transitions.max(sketch.transitions()),
            leaves: room.leaves.max(leaves_of(sketch)),
        },
        None => room,
    }
}

/// Room for each of these charts, and no more.
pub fn room_for(charts: &[Option<Sketch>]) -> ChartRoom
    ensures { IsRoomFor charts.now result }
{
    let mut room = ChartRoom {
        steps: 0,
        names: 0,
        transitions: 0,
        leaves: 0,
    };
    'charts: for chart in charts {
        room = with_chart(room, chart);
    }
    room
}
