//! Declared names: variables and members, in order and by name (2.4.3, 2.3.3.1).
ghost use Rattle.std.specs.Prelude.{◌≡◌, ◌++◌, ◌∷◌, [], IfOk, OnOk, map, slice_get};
ghost use Rattle.std.specs.List.{flat_map};
ghost use Rattle.std.specs.Option.{option_map};
ghost use Rattle.st_types.specs.Inside.{declared_by};
ghost use Rattle.st_types.specs.Names.{declared_in, declared_named, variables_of};
ghost use Rattle.st_scopes.specs.Declarations.{names_in, seen};

use st_tree::tree::{Declaration, DeclaredType, Identifier, VarBlock, VarKind};
use st_types::{NameTable, UnitKind};
use std::alloc::{AllocError, Global};
use std::marker::Model;

/// One name of a declaration.
#[derive(Clone, Copy)]
pub struct Declared<'a> {
    pub name: &'a Identifier,
    pub kind: VarKind,
    pub declaration: &'a Declaration,
}

/// Declared names in order, and a table of them.
#[derive(Drop)]
pub struct Declarations<'a> {
    items: Vec<Declared<'a>>,
    names: NameTable<'a>,
}

impl<'a> Model for Declarations<'a> {
    ghost use Rattle.std.specs.Prelude.{List};
    ghost use Rattle.st_types.specs.Names.{Declared as Name};

    ghost Value = { List Name };

    ghost use Rattle.st_scopes.specs.Declarations.{AreDeclarations, names_seen};

    ghost view = { names_seen };

    ghost invariant = { AreDeclarations };
}

impl<'a> Declarations<'a> {
    /// None. They take no memory.
    fn new(alloc: Global) -> Declarations<'a>
        ensures { result ≡ [] }
    {
        Declarations {
            items: Vec::new(alloc),
            names: NameTable::new(alloc),
        }
    }

    /// What a unit declares: its variables, or its members.
    pub fn of_unit(alloc: Global, unit: UnitKind<'a>) -> Result<Declarations<'a>, AllocError>
        ensures { IfOk result (λ all. all ≡ names_in (declared_by unit.entry)) }
    {
        let mut all = Declarations::new(alloc);
        match unit {
            UnitKind::Type(DeclaredType::Derived(..)) => {}
            UnitKind::Type(DeclaredType::Structure(_, members)) => {
                all.add_declarations(VarKind::Internal, members.as_slice())?;
            }
            UnitKind::Function(function) => all.add_blocks(function.variables.as_slice())?,
            UnitKind::Block(block) => all.add_blocks(block.variables.as_slice())?,
            UnitKind::Program(program) => all.add_blocks(program.variables.as_slice())?,
        }
        Ok(all)
    }

    /// Adds the variables of blocks of declarations.
    fn add_blocks(&mut self, blocks: &'a [VarBlock]) -> Result<(), AllocError>
        ensures { OnOk result (self.new ≡ self.old ++ variables_of blocks.now) }
    {
        for block in blocks {
            self.add_declarations(block.kind, block.declarations.as_slice())?;
        }
        Ok(())
    }

    /// Adds the names of declarations.
    fn add_declarations(
        &mut self,
        kind: VarKind,
        declarations: &'a [Declaration],
    ) -> Result<(), AllocError>
        ensures { OnOk result (self.new ≡ self.old ++ flat_map (declared_in kind)
            declarations.now) }
    {
        for declaration in declarations {
            self.add_names(kind, declaration)?;
        }
        Ok(())
    }

    /// Adds the names of a declaration.
    fn add_names(&mut self, kind: VarKind, declaration: &'a Declaration) -> Result<(), AllocError>
        ensures { OnOk result (self.new ≡ self.old ++ declared_in kind declaration.now) }
    {
        for name in declaration.names.as_slice() {
            self.push(Declared {
                name,
                kind,
                declaration,
            })?;
        }
        Ok(())
    }

    /// Adds a name.
    fn push(&mut self, declared: Declared<'a>) -> Result<(), AllocError>
        ensures { OnOk result (self.new ≡ self.old ++ seen declared.entry ∷ []) }
    {
        self.items.reserve(1)?;
        self.names.push(declared.name.spelling.as_slice())?;
        self.items.push(declared)?;
        Ok(())
    }

    /// The names, in order.
    pub fn as_slice(&self) -> &[Declared<'a>]
        ensures { map seen result.now ≡ self.now }
    {
        &self.items
    }

    /// The name of this number.
    fn at(&self, number: usize) -> Option<Declared<'a>>
        ensures { option_map seen result ≡ slice_get self.now number }
    {
        self.items.get(number).copied()
    }

    /// The first of this name, ignoring case.
    pub fn find(&self, name: &[u8]) -> Option<Declared<'a>>
        ensures { option_map seen result ≡ declared_named self.now name.now }
    {
        self.at(self.names.find(name)?)
    }
}
