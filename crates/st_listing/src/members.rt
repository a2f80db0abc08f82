//! The declared names that have leaves, with what stands for their types, looked up once for each unit: no instance looks a name up.
ghost use Rattle.std.specs.Option.{option_copied, option_map};
ghost use Rattle.std.specs.Prelude.{◌≡◌, IfOk, map};
ghost use Rattle.st_references.specs.Tables.{AreInitials};
ghost use Rattle.st_listing.specs.Members.{member_of};
ghost use Rattle.st_types.specs.Names.{units_of};

use crate::rows::Row;
use st_references::{Initials, Written};
use st_scopes::Tables;
use st_tree::List;
use st_tree::tree::Subrange;
use st_types::Base;
use std::alloc::{AllocError, Global};
use std::marker::Model;

/// A declared name that has leaves, and what stands for its type.
#[derive(Drop)]
pub(crate) struct Member<'a, 't> {
    row: &'t Row<'a>,
    /// The subscripts of an array that is declared with the name.
    subscripts: Option<&'t [Subrange]>,
    /// What each element is, or what is declared.
    base: Base,
    /// With what it begins, where a value is written.
    initial: Option<&'t Written<'t>>,
    /// With what each element begins, where a value is written.
    of_elements: Option<&'t Written<'t>>,
}

impl<'a, 't> Model for Member<'a, 't> {
    ghost use Rattle.st_listing.specs.Members.{MemberView, member_seen};

    ghost Value = { MemberView };

    ghost view = { member_seen };
}

impl<'a, 't> Member<'a, 't> {
    /// Of a declared name.
    fn new(tables: &Tables<'_>, initials: &Initials<'t>, row: &'t Row<'a>) -> Member<'a, 't>
        requires { AreInitials (units_of tables.now) initials.now }
        ensures { result ≡ member_of (units_of tables.now) row.now }
    {
        let specification = row.specification();
        let shape = tables.shape_of(specification);
        Member {
            row,
            subscripts: shape.subscripts,
            base: shape.base,
            initial: initials.of(tables, specification, row.written()),
            of_elements: initials.of_elements(tables, specification),
        }
    }

    /// The name that is declared, with its kind and its type.
    pub fn row(&self) -> &'t Row<'a>
        ensures { result.now ≡ self.now.declared }
    {
        self.row
    }

    /// The subscripts of an array that is declared with the name.
    pub fn subscripts(&self) -> Option<&'t [Subrange]>
        ensures { option_map (λ ranges. ranges.now) result ≡ self.now.shape.subscripts }
    {
        self.subscripts
    }

    /// What each element is, or what is declared.
    pub fn base(&self) -> Base
        ensures { result ≡ self.now.shape.base }
    {
        self.base
    }

    /// With what it begins, where a value is written.
    pub fn initial(&self) -> Option<&'t Written<'t>>
        ensures { option_copied result ≡ self.now.initial }
    {
        self.initial
    }

    /// With what each element begins, where a value is written.
    pub fn of_elements(&self) -> Option<&'t Written<'t>>
        ensures { option_copied result ≡ self.now.of_elements }
    {
        self.of_elements
    }
}

/// What is known of the declared names of each unit that have leaves.
pub(crate) fn members_of<'a, 't>(
    alloc: Global,
    tables: &Tables<'_>,
    initials: &Initials<'t>,
    rows: &'t [List<Row<'a>>],
) -> Result<Vec<List<Member<'a, 't>>>, AllocError>
    requires { AreInitials (units_of tables.now) initials.now }
    ensures { IfOk result (λ members. members.items
        ≡ map (map (member_of (units_of tables.now))) rows.now) }
{
    let mut members = Vec::with_capacity(alloc, rows.len())?;
    'units: for unit in rows {
        members.push(unit_members(alloc, tables, initials, unit.as_slice())?)?;
    }
    Ok(members)
}

/// What is known of these declared names.
fn unit_members<'a, 't>(
    alloc: Global,
    tables: &Tables<'_>,
    initials: &Initials<'t>,
    rows: &'t [Row<'a>],
) -> Result<List<Member<'a, 't>>, AllocError>
    requires { AreInitials (units_of tables.now) initials.now }
    ensures { IfOk result (λ members. members ≡ map (member_of (units_of tables.now)) rows.now) }
{
    let mut items = Vec::with_capacity(alloc, rows.len())?;
    'rows: for row in rows {
        items.push(Member::new(tables, initials, row))?;
    }
    Ok(List { items })
}
