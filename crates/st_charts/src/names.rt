//! The names that the associations of a chart control.
ghost use Rattle.std.specs.Prelude.{◌≡◌, ◌<◌, ℕ, length, All};
ghost use Rattle.st_charts.specs.Charts.{is_named, is_on, step_in, stored_after};
ghost use Rattle.st_charts.specs.Passages.{marked};
ghost use Rattle.st_charts.specs.Stages.{Changes, has_effect};

use crate::step::StepCell;
use crate::table::{Link, Qualifier};

/// What an association may do to its name.
#[derive(Clone, Copy)]
pub enum Effect {
    /// Its stored flag turns FALSE, and it is off.
    Reset,
    /// Its stored flag turns TRUE.
    Store,
    /// It is on.
    Show,
}

/// Whether an association of an active step has this effect.
fn has_effect(effect: Effect, link: Link, step: StepCell) -> bool
    ensures { result ≡ has_effect effect link step }
{
    match effect {
        Effect::Reset => matches!(link.qualifier, Qualifier::Reset),
        Effect::Store => matches!(link.qualifier, Qualifier::Stored),
        Effect::Show => match link.qualifier {
            Qualifier::NonStored => true,
            Qualifier::Limited => step.elapsed < link.time,
            Qualifier::Delayed => step.elapsed >= link.time,
            Qualifier::Pulse => !step.pulsed,
            Qualifier::Reset | Qualifier::Stored => false,
        },
    }
}

/// Gives this mark to the names on which an association of an active step has this effect.
fn mark(links: &[Link], steps: &[StepCell], effect: Effect, value: bool, marks: &mut [bool])
    requires linked { All (λ link. link.step < length steps.now) links.now }
    requires named { All (λ link. link.name < length marks.old) links.now }
    ensures { Changes (λ _. value) (is_named links.now (step_in steps.now) (has_effect effect))
        marks.old marks.new }
{
    'links: for link in links {
        let step = steps[link.step as usize];
        if step.active && has_effect(effect, *link, step) {
            marks[link.name as usize] = value;
        }
    }
}

/// Stores and resets the flags of the names, and says which names are on.
pub fn control(links: &[Link], steps: &[StepCell], flags: &mut [bool], on: &mut [bool])
    requires linked { All (λ link. link.step < length steps.now) links.now }
    requires named { All (λ link. link.name < length flags.old) links.now }
    requires on { length on.old ≡ length flags.old }
    ensures flags { (n : ℕ) → n < length flags.old
        → marked flags.new n ≡ stored_after links.now (step_in steps.now) (marked flags.old) n }
    ensures on { (n : ℕ) → n < length flags.old
        → marked on.new n ≡ is_on links.now (step_in steps.now) (marked flags.old) n }
{
    mark(links, steps, Effect::Store, true, flags);
    mark(links, steps, Effect::Reset, false, flags);
    on.copy_from_slice(flags);
    mark(links, steps, Effect::Show, true, on);
    mark(links, steps, Effect::Reset, false, on);
}
