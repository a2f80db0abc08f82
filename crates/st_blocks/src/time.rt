//! How long timers have run. Numbers are milliseconds.
ghost use Rattle.std.specs.Prelude.{◌≡◌};
ghost use Rattle.st_blocks.specs.Blocks.{elapsed, is_over, preset, shown};

/// For how long a timer has run at a moment.
fn elapsed(start: i64, now: i64) -> i128
    ensures { result ≡ elapsed start now }
{
    (i128::from(now) - i128::from(start)).max(0)
}

/// For how long it is to run.
pub fn preset(pt: i64) -> i64
    ensures { result ≡ preset pt }
{
    pt.max(0)
}

/// Whether it has run for so long.
pub fn is_over(pt: i64, start: i64, now: i64) -> bool
    ensures { result ≡ is_over pt start now }
{
    i128::from(preset(pt)) <= elapsed(start, now)
}

/// For how long it has run, and at most for how long it is to run.
pub fn shown(pt: i64, start: i64, now: i64) -> i64
    ensures { result ≡ shown pt start now }
{
    let time = elapsed(start, now);
    let most = preset(pt);
    if i128::from(most) < time {
        most
    } else {
        time as i64
    }
}
