//! The units of a text whose code a program runs beside its own.
ghost use Rattle.std.specs.Prelude.{◌≡◌};
ghost use Rattle.st_chart_runs.specs.Charts.{IsRoomFor};

use crate::block::Block;
use crate::function::Function;
use st_chart_runs::{ChartRoom, room_for};
use st_meaning::Sketch;
use std::marker::Model;

/// The function blocks, the functions and the charts of a text, each list by the numbers of the units.
#[derive(Drop)]
pub struct Units {
    blocks: Vec<Block>,
    functions: Vec<Function>,
    charts: Vec<Option<Sketch>>,
}

impl Model for Units {
    ghost use Rattle.st_machine.specs.Blocks.{UnitsView};

    ghost Value = { UnitsView };

    ghost view = { λ units. record {
      blocks = units.blocks.items;
      functions = units.functions.items;
      charts = units.charts.items;
    } };
}

impl Units {
    /// These blocks, functions and charts.
    pub fn new(blocks: Vec<Block>, functions: Vec<Function>, charts: Vec<Option<Sketch>>) -> Units
        ensures { result ≡ record {
          blocks = blocks.items;
          functions = functions.items;
          charts = charts.items;
        } }
    {
        Units {
            blocks,
            functions,
            charts,
        }
    }

    /// The function blocks.
    pub(crate) fn blocks(&self) -> &[Block]
        ensures { result.now ≡ self.now.blocks }
    {
        &self.blocks
    }

    /// The functions.
    pub(crate) fn functions(&self) -> &[Function]
        ensures { result.now ≡ self.now.functions }
    {
        &self.functions
    }

    /// The room that the charts need, and no more.
    pub fn chart_room(&self) -> ChartRoom
        ensures { IsRoomFor self.now.charts result }
    {
        room_for(&self.charts)
    }

    /// The charts.
    pub(crate) fn charts(&self) -> &[Option<Sketch>]
        ensures { result.now ≡ self.now.charts }
    {
        &self.charts
    }
}
