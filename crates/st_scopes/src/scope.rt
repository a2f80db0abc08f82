//! What the names in a unit's statements stand for.
ghost use Rattle.std.specs.Prelude.{◌≡◌, ◌<◌, length};
ghost use Rattle.st_types.specs.Names.{units_of};
ghost use Rattle.st_types.specs.Scopes.{scope_at};

use crate::lookup::{callee_by, elements_in, global_callee, member_of, variable_in};
use crate::tables::Tables;
use st_types::{Base, Callee, Elements, Member, Symbol};
use std::marker::Model;

/// What the names in a unit's statements stand for. Names are compared without regard to case.
#[derive(Drop)]
pub struct Scope<'a> {
    tables: &'a Tables<'a>,
    /// The number of the unit.
    unit: usize,
}

impl<'a> Model for Scope<'a> {
    ghost use Rattle.std.specs.Coded.{codes};
    ghost use Rattle.std.specs.Prelude.{List, ℕ};
    ghost use Rattle.st_tree.specs.declared.tree.unit.Unit.{Unit as Section};
    ghost use Rattle.st_tree.specs.contracts.tree.expression.Expression as expression;
    ghost use Rattle.st_tree.specs.contracts.tree.statement.Statement as statement;

    ghost Value = { List Section × ℕ };

    ghost coded = { Prim.hlevel (codes, statement.the_row.coded, expression.the_row.coded) };

    ghost use Rattle.st_scopes.specs.ScopeFields.{IsScope};

    ghost view = { λ s. (s.tables.now, s.unit) };

    ghost invariant = { IsScope };
}

impl<'a> Scope<'a> {
    /// The scope of the unit of this number.
    pub(crate) fn new(tables: &'a Tables<'a>, unit: usize) -> Scope<'a>
        requires { unit < length (units_of tables.now) }
        ensures { result ≡ (tables.now, unit) }
    {
        Scope { tables, unit }
    }

    /// What the name is, where it is that of a variable of the unit. A function's own name is its result (2.5.1).
    pub fn variable(&self, name: &[u8]) -> Option<Symbol<'a>>
        ensures { result ≡ (scope_at self.now).variable name.now }
    {
        let tables = self.tables;
        variable_in(tables, self.unit, name)
    }

    /// Whether the name is that of a step of the unit's chart (2.6.2).
    pub fn is_step(&self, name: &[u8]) -> bool
        ensures { result ≡ (scope_at self.now).step name.now }
    {
        match self.tables.names(self.unit) {
            Some(names) => names.chart.steps.find(name).is_some(),
            None => false,
        }
    }

    /// Whether the name is that of an action of the unit's chart (2.6.4).
    pub fn is_action(&self, name: &[u8]) -> bool
        ensures { result ≡ (scope_at self.now).action name.now }
    {
        match self.tables.names(self.unit) {
            Some(names) => names.chart.actions.find(name).is_some(),
            None => false,
        }
    }

    /// The subscripts and elements of an array, where the type is one.
    pub fn elements(&self, base: Base) -> Option<Elements<'a>>
        ensures { result ≡ (scope_at self.now).elements base }
    {
        let tables = self.tables;
        elements_in(tables, base)
    }

    /// What the name stands for behind a variable of this type: a member of a structure, or an input or output of an
    /// instance (2.5.2.2).
    pub fn member(&self, base: Base, name: &[u8]) -> Member<'a>
        ensures { result ≡ (scope_at self.now).member base name.now }
    {
        let tables = self.tables;
        member_of(tables, base, name)
    }

    /// What the name stands for before `(`.
    pub fn callee(&self, name: &[u8]) -> Callee<'a>
        ensures { result ≡ (scope_at self.now).callee name.now }
    {
        let tables = self.tables;
        callee_by(global_callee(tables, name), self.variable(name))
    }
}
