//! Where the leaves of a unit's chart stand (2.6).
ghost use Rattle.std.specs.Prelude.{◌≡◌, ◌≤◌, List as Items};
ghost use Rattle.std.specs.List.{slice_get};
ghost use Rattle.st_leaves.specs.Places.{count};
ghost use Rattle.st_meaning.specs.Offsets.{chart_offset};
ghost use Rattle.st_meaning.specs.Steps.{chart_within};
ghost use Rattle.st_places.specs.Charts.{leaf_of_step};
ghost use Rattle.st_places.specs.Contents.{AreOf};
ghost use Rattle.st_places.specs.Parts.{whole_part};
ghost use Rattle.st_types.specs.Names.{Named, unit_at};

use crate::content::parts_of;
use crate::unit::UnitParts;
use st_leaves::MAX_COUNT;
use st_tree::tree::ChartElement;

/// The elements of the chart of the unit of this number.
pub(crate) fn chart_of<'a>(units: &[UnitParts<'a>], unit: usize) -> &'a [ChartElement]
    ensures { (text : Items Named) → AreOf text units.now
        → result.now ≡ chart_within (whole_part text (unit_at text unit)) }
{
    match parts_of(units, unit) {
        Some(parts) => parts.chart.elements,
        None => &[],
    }
}

/// The first leaf of the chart of the unit of this number, which has at most 999,999 leaves.
pub(crate) fn chart_leaf(units: &[UnitParts<'_>], unit: usize) -> u32
    ensures { (text : Items Named) → AreOf text units.now
        → count (whole_part text (unit_at text unit)) ≤ 999999
        → result ≡ chart_offset (whole_part text (unit_at text unit)) }
{
    match parts_of(units, unit) {
        Some(parts) => parts.members.count.min(MAX_COUNT) as u32,
        None => 0,
    }
}

/// The leaf that says of the step of this name for how long it has been active, or else whether it is, in the unit of this number,
/// which has at most 999,999 leaves.
pub(crate) fn step(units: &[UnitParts<'_>], unit: usize, is_time: bool, name: &[u8]) -> Option<u32>
    ensures { (text : Items Named) → AreOf text units.now
        → count (whole_part text (unit_at text unit)) ≤ 999999
        → result ≡ leaf_of_step (whole_part text (unit_at text unit)) is_time name.now }
{
    let steps = &parts_of(units, unit)?.chart.steps;
    let number = steps.names.find(name)?;
    let offset = offset_at(steps.offsets.as_slice(), number)?;
    let flag = chart_leaf(units, unit).saturating_add(offset);
    if is_time {
        Some(flag.saturating_add(1))
    } else {
        Some(flag)
    }
}

/// The offset of this number.
fn offset_at(offsets: &[u32], number: usize) -> Option<u32>
    ensures { result ≡ slice_get offsets.now number }
{
    offsets.get(number).copied()
}
