//! The flags of a chart's names, from the values of the leaves of those that are stored, and back.
ghost use Rattle.std.specs.Prelude.{◌≡◌, ◌≤◌, ◌<◌, false, length, replicate};
ghost use Rattle.std.specs.List.{All};
ghost use Rattle.st_meaning.specs.Charts.{flags_from, flags_values};

use crate::values::is_true;
use st_values::{Value, truth};

/// Reads the flags of the names that are stored; those of others are FALSE.
pub(crate) fn read_flags(cells: &[Value], stored: &[u32], flags: &mut [bool])
    requires leaves { length stored.now ≤ length cells.now }
    requires names { All (λ n. n < length flags.old) stored.now }
    ensures { flags.new ≡ flags_from stored.now cells.now (replicate (length flags.old) false) }
{
    flags.fill(false);
    for (i, number) in stored.iter().enumerate() {
        flags[*number as usize] = is_true(cells[i]);
    }
}

/// Writes the flags of the names that are stored.
pub(crate) fn write_flags(flags: &[bool], stored: &[u32], cells: &mut [Value])
    requires leaves { length cells.old ≡ length stored.now }
    requires names { All (λ n. n < length flags.now) stored.now }
    ensures { cells.new ≡ flags_values stored.now flags.now }
{
    for (i, number) in stored.iter().enumerate() {
        cells[i] = truth(flags[*number as usize]);
    }
}
