//! The steps of a chart.
ghost use Rattle.std.specs.Prelude.{◌≡◌, ◌<◌, length, map, All};
ghost use Rattle.std.specs.List.{list_all};
ghost use Rattle.st_charts.specs.Charts.{active_in, remembered, timed};
ghost use Rattle.st_charts.specs.Passages.{members};
ghost use Rattle.st_charts.specs.Stages.{Changes, entered, left};

/// What a chart keeps of a step.
#[derive(Clone, Copy, Debug, PartialEq, Eq)]
pub struct StepCell {
    /// Whether it is active.
    pub active: bool,
    /// For how long it has been, in milliseconds; where it isn't, for how long it was.
    pub elapsed: i64,
    /// The moment since which it has been.
    pub since: i64,
    /// Whether it was active at the last invocation.
    pub pulsed: bool,
}

impl StepCell {
    /// The step with its times at a moment.
    fn timed(self, begun: bool, now: i64) -> StepCell
        ensures { result ≡ timed begun now self }
    {
        if !self.active {
            return self;
        }
        if begun {
            StepCell {
                elapsed: now.wrapping_sub(self.since),
                ..self
            }
        } else {
            StepCell {
                elapsed: 0,
                since: now,
                ..self
            }
        }
    }

    /// The step behind a transition that leaves it.
    fn left(self) -> StepCell
        ensures { result ≡ left self }
    {
        StepCell {
            active: false,
            pulsed: false,
            ..self
        }
    }

    /// The step behind a transition that enters it.
    fn entered(self, now: i64) -> StepCell
        ensures { result ≡ entered now self }
    {
        StepCell {
            active: true,
            elapsed: 0,
            since: now,
            ..self
        }
    }
}

/// Sets the times of the active steps, of a chart that has begun or that begins now.
pub fn chart_times(begun: bool, steps: &mut [StepCell], now: i64)
    ensures { steps.new ≡ map (timed begun now) steps.old }
{
    for step in steps.iter_mut() {
        *step = step.timed(begun, now);
    }
}

/// Whether all these steps are active.
pub fn are_active(steps: &[StepCell], numbers: &[u32]) -> bool
    requires { All (λ s. s < length steps.now) numbers.now }
    ensures { result ≡ list_all (active_in steps.now) numbers.now }
{
    numbers.iter().all(|number| steps[*number as usize].active)
}

/// Leaves these steps.
pub fn leave(steps: &mut [StepCell], numbers: &[u32])
    requires { All (λ s. s < length steps.old) numbers.now }
    ensures { Changes left (members numbers.now) steps.old steps.new }
{
    for number in numbers {
        let place = *number as usize;
        steps[place] = steps[place].left();
    }
}

/// Enters these steps.
pub fn enter(steps: &mut [StepCell], numbers: &[u32], now: i64)
    requires { All (λ s. s < length steps.old) numbers.now }
    ensures { Changes (entered now) (members numbers.now) steps.old steps.new }
{
    for number in numbers {
        let place = *number as usize;
        steps[place] = steps[place].entered(now);
    }
}

/// Keeps for the next invocation which steps are active.
pub fn remember(steps: &mut [StepCell])
    ensures { steps.new ≡ map remembered steps.old }
{
    for step in steps.iter_mut() {
        step.pulsed = step.active;
    }
}
