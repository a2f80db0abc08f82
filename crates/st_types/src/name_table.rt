//! Names in order, which are looked up by a table.
ghost use Rattle.std.specs.Prelude.{◌≡◌, ◌<◌, ◌++◌, ◌∷◌, [], IfSome, List, ℕ, OnErr, OnOk, length};
ghost use Rattle.indexmap.specs.IndexMap.{IsUnchanged};
ghost use Rattle.st_types.specs.Tables.{HasFirsts, first_of};

use crate::spelling::Spelling;
use indexmap::IndexMap;
use std::alloc::{AllocError, Global};
use std::marker::Model;

/// Names in order, and a table of them. A name may stand there more than once.
#[derive(Drop)]
pub struct NameTable<'a> {
    names: Vec<Spelling<'a>>,
    /// The number of the first of each name.
    numbers: IndexMap<Spelling<'a>, usize>,
}

impl<'a> Model for NameTable<'a> {
    ghost use Rattle.std.specs.Prelude.{List, ℕ};
    ghost use Rattle.st_types.specs.NameTables.{IsTable};

    ghost Value = { List (List ℕ) };

    ghost view = { λ t. t.names.items };

    ghost invariant = { IsTable };
}

impl<'a> NameTable<'a> {
    /// The empty table. It takes no memory.
    pub fn new(alloc: Global) -> NameTable<'a>
        ensures { result ≡ [] }
    {
        NameTable {
            names: Vec::new(alloc),
            numbers: IndexMap::new(alloc),
        }
    }

    /// How many names there are.
    pub fn len(&self) -> usize
        ensures { result ≡ length self.now }
    {
        self.names.len()
    }

    /// Adds a name at the end.
    pub fn push(&mut self, name: &'a [u8]) -> Result<(), AllocError>
        ensures ok { OnOk result (self.new ≡ self.old ++ name.now ∷ []) }
        ensures err { OnErr result (self.new ≡ self.old) }
    {
        let number = self.names.len();
        self.names.reserve(1)?;
        add_first(&mut self.numbers, name, number)?;
        self.names.push(Spelling::new(name))?;
        Ok(())
    }

    /// The number of the first of this name, ignoring case.
    pub fn find(&self, name: &[u8]) -> Option<usize>
        ensures number { result ≡ first_of self.now name.now }
        ensures within { IfSome result (λ i. i < length self.now) }
    {
        if self.names.is_empty() {
            return None;
        }
        self.numbers.get(&Spelling::new(name)).copied()
    }
}

/// Puts a number at a name, unless the name has one.
fn add_first<'a>(
    numbers: &mut IndexMap<Spelling<'a>, usize>,
    name: &'a [u8],
    number: usize,
) -> Result<(), AllocError>
    ensures firsts { OnOk result
        ((names : List (List ℕ)) → number ≡ length names → HasFirsts numbers.old names
        → HasFirsts numbers.new (names ++ name.now ∷ [])) }
    ensures err { OnErr result (IsUnchanged numbers.old numbers.new) }
{
    numbers.entry(Spelling::new(name))?.or_insert(number);
    Ok(())
}
