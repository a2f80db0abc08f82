//! Levels: brackets, and statements that have statements in them.
ghost use Rattle.std.specs.Prelude.{◌<◌, OnOk};
ghost use Rattle.st_parser.specs.Reader.Parsers as spec;
ghost use Rattle.st_parser.specs.Reader.Parsers.{MayTake, Takes};

use crate::cursor::Cursor;
use crate::fault::ReadFault;
use st_tokens::Symbol;
use st_tree::tree::Position;

/// How many levels may be open at once in a text.
pub const MAX_LEVELS: u8 = 64;

impl<'a> Cursor<'a> {
    /// Takes the first token, which opens a level, where `depth_left` more may be opened.
    pub fn enter(&mut self, depth_left: u8) -> Result<Position, ReadFault>
        ensures read { MayTake (spec.enter depth_left self.old) result self.old self.new }
        ensures deeper { OnOk result (0 < depth_left) }
    {
        if depth_left == 0 {
            return Err(ReadFault::TooDeep {
                place: self.place(),
            });
        }
        Ok(self.bump())
    }

    /// Takes this symbol, which opens a level, where `depth_left` more may be opened.
    #[tactic(auto, unfolding(crate::specs::Reader::Parsers::open_level))]
    pub fn open_level(&mut self, symbol: Symbol, depth_left: u8) -> Result<Position, ReadFault>
        ensures read { Takes (spec.open_level symbol depth_left self.old) result self.old self.new }
        ensures deeper { OnOk result (0 < depth_left) }
    {
        if self.at_symbol(symbol) {
            return self.enter(depth_left);
        }
        Err(self.unexpected())
    }
}
