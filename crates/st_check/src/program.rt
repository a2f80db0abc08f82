//! Checked programs.
ghost use Rattle.std.specs.Prelude.{◌≡◌};
ghost use Rattle.st_check.specs.Programs.{IsChecked, IsProgram, main_of, order_of, text_of};

use st_tree::tree::Unit;
use std::marker::Model;

/// A text that keeps all rules, as a program of some name.
#[derive(Drop)]
pub struct Program {
    units: Vec<Unit>,
    /// The number of the unit that is the program.
    main: usize,
    /// The numbers of all units.
    order: Vec<usize>,
}

impl Model for Program {
    ghost use Rattle.std.specs.Coded.{codes};
    ghost use Rattle.std.specs.Prelude.{ℕ, List};
    ghost use Rattle.st_tree.specs.contracts.tree.expression.Expression as expression;
    ghost use Rattle.st_tree.specs.contracts.tree.statement.Statement as statement;
    ghost use Rattle.st_tree.specs.declared.tree.unit.Unit.{Unit as Section};

    ghost Value = { List Section × (ℕ × List ℕ) };

    ghost coded = { Prim.hlevel (codes, statement.the_row.coded, expression.the_row.coded) };

    ghost use Rattle.st_check.specs.Programs.{IsProgram};

    ghost view = { λ p. (p.units.items, (p.main, p.order.items)) };

    ghost invariant = { λ p. IsProgram p.units.items p.main p.order.items };
}

impl Program {
    /// The program of these units, whose number is `main`.
    pub(crate) fn new(units: Vec<Unit>, main: usize, order: Vec<usize>) -> Program
        requires { IsProgram units.items main order.items }
        ensures { result ≡ (units.items, (main, order.items)) }
    {
        Program { units, main, order }
    }

    /// The units of the text, in order, all of them checked.
    pub fn units(&self) -> &[Unit]
        ensures units { result.now ≡ text_of self.now }
        ensures checked { IsChecked self.now }
    {
        &self.units
    }

    /// The number of the unit that is the program. Each name of a TYPE .. END_TYPE is one unit.
    pub fn main(&self) -> usize
        ensures main { result ≡ main_of self.now }
        ensures checked { IsChecked self.now }
    {
        self.main
    }

    /// The numbers of all units, each after those that it contains and calls.
    pub fn order(&self) -> &[usize]
        ensures order { result.now ≡ order_of self.now }
        ensures checked { IsChecked self.now }
    {
        &self.order
    }
}
