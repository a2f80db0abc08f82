//! The declared names that have leaves, found once for each unit: however many instances a unit has, none passes the others.
ghost use Rattle.std.specs.List.{flat_map};
ghost use Rattle.std.specs.Option.{option_copied, option_map};
ghost use Rattle.std.specs.Prelude.{◌≡◌, ◌++◌, ℕ, IfOk, OnOk, false};
ghost use Rattle.st_listing.specs.Walks.{AreRows, IsSieve, ListsTheSame};
ghost use Rattle.st_check.specs.Sized.{IsSized};
ghost use Rattle.st_scopes.specs.Declarations.{names_in};
ghost use Rattle.st_tree.specs.Kinds.{is_constant};
ghost use Rattle.st_types.specs.Inside.{declared_by};
ghost use Rattle.st_types.specs.Names.{declared_in, units_of, variables_of};
ghost use Rattle.st_types.specs.Types.{type_at};

use crate::empty::is_empty;
use st_leaves::Size;
use st_references::{Written, written};
use st_scopes::Tables;
use st_tree::tree::{
    Declaration, DeclaredType, Identifier, Initial, Specification, VarBlock, VarKind,
};
use st_tree::{Boxed, List};
use st_types::UnitKind;
use std::alloc::{AllocError, Global};
use std::marker::Model;
use std::rc::Rc;

/// A declared name. It is no constant.
#[derive(Drop)]
pub(crate) struct Row<'a> {
    name: &'a Identifier,
    kind: VarKind,
    specification: &'a Specification,
    /// What its declaration writes, for all names of the declaration.
    written: Option<Rc<Written<'a>>>,
}

impl<'a> Model for Row<'a> {
    ghost use Rattle.st_types.specs.Names.{Declared};

    ghost Value = { Declared };

    ghost use Rattle.st_listing.specs.Rows.{IsVariable, row_seen};

    ghost view = { row_seen };

    ghost invariant = { IsVariable };
}

impl<'a> Row<'a> {
    /// A name of a declaration, which writes this.
    fn new(
        name: &'a Identifier,
        kind: VarKind,
        declaration: &'a Declaration,
        written: &Option<Rc<Written<'a>>>,
    ) -> Result<Row<'a>, AllocError>
        requires variable { is_constant kind ≡ false }
        requires written { option_map (λ one. one.value) written.now ≡ declaration.now.initial }
        ensures { IfOk result (λ row. row ≡ record {
          name = name.now;
          kind = kind;
          specification = declaration.now.specification;
          initial = declaration.now.initial;
        }) }
    {
        let written = match written {
            Some(all) => Some(all.clone()?),
            None => None,
        };
        Ok(Row {
            name,
            kind,
            specification: &declaration.specification,
            written,
        })
    }

    /// The declared name.
    pub fn name(&self) -> &'a Identifier
        ensures name { result.now ≡ self.now.name }
        ensures variable { is_constant self.now.kind ≡ false }
    {
        self.name
    }

    /// What it is for.
    pub fn kind(&self) -> VarKind
        ensures { result ≡ self.now.kind }
    {
        self.kind
    }

    /// What is specified for it.
    pub fn specification(&self) -> &'a Specification
        ensures { result.now ≡ self.now.specification }
    {
        self.specification
    }

    /// What its declaration writes.
    pub fn written(&self) -> Option<&Written<'a>>
        ensures { option_copied result ≡ self.now.initial }
    {
        match &self.written {
            Some(written) => Some(written.as_ref()),
            None => None,
        }
    }
}

/// What tells which names have leaves.
#[derive(Clone, Copy)]
struct Sieve<'a, 't> {
    alloc: Global,
    tables: &'t Tables<'a>,
    /// The sizes of types, by the numbers of the units.
    sizes: &'t [Size],
}

/// The names of each unit that have leaves, in order, by the numbers of the units.
pub(crate) fn rows_of<'a>(
    alloc: Global,
    tables: &Tables<'a>,
    sizes: &[Size],
) -> Result<Vec<List<Row<'a>>>, AllocError>
    requires { (i : ℕ) → IsSized (units_of tables.now) sizes.now (type_at (units_of tables.now) i) }
    ensures { IfOk result (λ rows. AreRows (units_of tables.now) rows.items) }
{
    let sieve = Sieve {
        alloc,
        tables,
        sizes,
    };
    let units = tables.units();
    let mut rows = Vec::with_capacity(alloc, units.len())?;
    'each: for unit in units {
        rows.push(sieve.unit_rows(unit.kind)?)?;
    }
    Ok(rows)
}

impl<'a, 't> Sieve<'a, 't> {
    /// The names of a unit that have leaves, in order.
    fn unit_rows(self, unit: UnitKind<'a>) -> Result<List<Row<'a>>, AllocError>
        requires { IsSieve self }
        ensures { IfOk result (λ rows. ListsTheSame (units_of self.entry.tables.now)
            rows (names_in (declared_by unit.entry))) }
    {
        let mut rows = List::new(self.alloc);
        match unit {
            UnitKind::Type(DeclaredType::Derived(..)) => {}
            UnitKind::Type(DeclaredType::Structure(_, members)) => {
                self.add_declarations(VarKind::Internal, members.as_slice(), &mut rows)?;
            }
            UnitKind::Function(function) => self.add_blocks(
                function.variables.as_slice(),
                &mut rows,
            )?,
            UnitKind::Block(block) => self.add_blocks(block.variables.as_slice(), &mut rows)?,
            UnitKind::Program(program) => self.add_blocks(program.variables.as_slice(), &mut rows)?,
        }
        Ok(rows)
    }

    /// Adds the variables of blocks of declarations.
    fn add_blocks(self, blocks: &'a [VarBlock], rows: &mut List<Row<'a>>) -> Result<(), AllocError>
        requires { IsSieve self }
        ensures { OnOk result (ListsTheSame (units_of self.entry.tables.now)
            rows.new (rows.old ++ variables_of blocks.now)) }
    {
        'each: for block in blocks {
            self.add_declarations(block.kind, block.declarations.as_slice(), rows)?;
        }
        Ok(())
    }

    /// Adds the names of declarations.
    fn add_declarations(
        self,
        kind: VarKind,
        declarations: &'a [Declaration],
        rows: &mut List<Row<'a>>,
    ) -> Result<(), AllocError>
        requires { IsSieve self }
        ensures { OnOk result (ListsTheSame (units_of self.entry.tables.now)
            rows.new (rows.old ++ flat_map (declared_in kind) declarations.now)) }
    {
        'declarations: for declaration in declarations {
            self.add_declaration(kind, declaration, rows)?;
        }
        Ok(())
    }

    /// Adds the names of a declaration, unless they have no leaves.
    fn add_declaration(
        self,
        kind: VarKind,
        declaration: &'a Declaration,
        rows: &mut List<Row<'a>>,
    ) -> Result<(), AllocError>
        requires { IsSieve self }
        ensures { OnOk result (ListsTheSame (units_of self.entry.tables.now)
            rows.new (rows.old ++ declared_in kind declaration.now)) }
    {
        if kind.is_constant() {
            return Ok(());
        }
        let shape = self.tables.shape_of(&declaration.specification);
        if is_empty(self.tables, self.sizes, shape.base) {
            return Ok(());
        }
        add_names(self.alloc, kind, declaration, rows)
    }
}

/// Adds all names of a declaration.
fn add_names<'a>(
    alloc: Global,
    kind: VarKind,
    declaration: &'a Declaration,
    rows: &mut List<Row<'a>>,
) -> Result<(), AllocError>
    requires { is_constant kind ≡ false }
    ensures { OnOk result (rows.new ≡ rows.old ++ declared_in kind declaration.now) }
{
    let written = shared(alloc, &declaration.initial)?;
    'names: for name in declaration.names.as_slice() {
        rows.push(Row::new(name, kind, declaration, &written)?)?;
    }
    Ok(())
}

/// What a declaration writes, to be held by each of its names.
fn shared<'a>(
    alloc: Global,
    initial: &'a Option<Boxed<Initial>>,
) -> Result<Option<Rc<Written<'a>>>, AllocError>
    ensures { IfOk result (λ all. option_map (λ one. one.value) all ≡ initial.now) }
{
    let Some(written) = written(alloc, initial)? else {
        return Ok(None);
    };
    match Rc::new(alloc, written) {
        Ok(all) => Ok(Some(all)),
        Err(_) => Err(AllocError),
    }
}
