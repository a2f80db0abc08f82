//! One invocation of a standard function block (2.5.2.3).
ghost use Rattle.std.specs.Prelude.{◌≡◌, ◌≤◌, length};
ghost use Rattle.st_blocks.specs.Cells.{AreLeavesOf, types_of};
ghost use Rattle.st_blocks.specs.Steps.{stepped};

use crate::bistable::Bistable;
use crate::counter::Counter;
use crate::timer::Timer;
use crate::ton::Ton;
use crate::trigger::Trigger;
use st_types::StandardBlock;
use st_values::Value;

/// How many leaves a block has at most.
pub const MAX_BLOCK_LEAVES: usize = 7;

/// How many leaves a block has.
pub fn leaf_count(kind: StandardBlock) -> usize
    ensures value { result ≡ length (types_of kind) }
    ensures few { result ≤ 7 }
{
    match kind {
        StandardBlock::RTrig | StandardBlock::FTrig | StandardBlock::Sr | StandardBlock::Rs => 3,
        StandardBlock::Ctu | StandardBlock::Ctd | StandardBlock::Ton => 6,
        StandardBlock::Tof | StandardBlock::Tp => 7,
    }
}

/// Does what one invocation of a block does to the values of its leaves at a moment, in milliseconds. Its inputs are stored
/// there already.
pub fn block_step(kind: StandardBlock, cells: &mut [Value], now: i64)
    requires { AreLeavesOf kind cells.old }
    ensures stepped { cells.new ≡ stepped kind cells.old now }
    ensures typed { AreLeavesOf kind cells.new }
{
    match kind {
        StandardBlock::RTrig => cells.copy_from_slice(&Trigger::read(cells).risen().cells()),
        StandardBlock::FTrig => cells.copy_from_slice(&Trigger::read(cells).fallen().cells()),
        StandardBlock::Sr => cells.copy_from_slice(&Bistable::read(cells).set_dominant().cells()),
        StandardBlock::Rs => cells.copy_from_slice(&Bistable::read(cells).reset_dominant().cells()),
        StandardBlock::Ctu => cells.copy_from_slice(&Counter::read(cells).counted_up().cells()),
        StandardBlock::Ctd => cells.copy_from_slice(&Counter::read(cells).counted_down().cells()),
        StandardBlock::Ton => cells.copy_from_slice(&Ton::read(cells).on_delay(now).cells()),
        StandardBlock::Tof => cells.copy_from_slice(&Timer::read(cells).off_delay(now).cells()),
        StandardBlock::Tp => cells.copy_from_slice(&Timer::read(cells).pulse(now).cells()),
    }
}
