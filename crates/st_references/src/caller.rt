//! A unit whose calls are followed.
ghost use Rattle.std.specs.Prelude.{◌≡◌, ◌++◌, OnOk};
ghost use Rattle.st_references.specs.Callers.{called_by};
ghost use Rattle.st_references.specs.References.{listed};

use crate::row::add_found;
use st_scopes::{Scope, Tables};
use st_tree::List;
use st_types::Callee;
use std::alloc::AllocError;

/// A unit whose calls are followed: what its names stand for, and the units of the text.
#[derive(Drop)]
pub struct Caller<'a> {
    pub tables: &'a Tables<'a>,
    pub scope: Scope<'a>,
}

impl<'a> Caller<'a> {
    /// The number of the function of the text that is called by this name, where it is one.
    #[tactic(auto, unfolding(crate::specs::Callers::called_by))]
    fn called(&self, name: &[u8]) -> Option<usize>
        ensures { listed result ≡ called_by self.now name.now }
    {
        match self.scope.callee(name) {
            Callee::Own(_) => self.tables.number_of(name),
            _ => None,
        }
    }

    /// Adds the number of the function of the text that is called by this name, where it is one.
    pub fn add_called(&self, name: &[u8], row: &mut List<usize>) -> Result<(), AllocError>
        ensures { OnOk result (row.new ≡ row.old ++ called_by self.now name.now) }
    {
        add_found(self.called(name), row)
    }
}
