//! The leaves of a checked program.
ghost use Rattle.std.specs.Prelude.{◌≡◌, ◌≤◌, ◌<◌, IfOk, Some, length, map};
ghost use Rattle.st_check.specs.Programs.{leaves_of_program};
ghost use Rattle.st_leaves.specs.LeavesIn.{leaves_of_whole};
ghost use Rattle.st_leaves.specs.Programs.{program_leaves};
ghost use Rattle.st_leaves.specs.Sound.{IsSound};
ghost use Rattle.st_listing.specs.Listings.{AreWays};
ghost use Rattle.st_listing.specs.Walks.{IsWalk, units_in};
ghost use Rattle.st_listing.specs.Worded.{IsWorded};
ghost use Rattle.st_references.specs.Graphs.{IsOrder};
ghost use Rattle.st_references.specs.References.{graph_of};
ghost use Rattle.st_types.specs.Compositions.{composition_of};
ghost use Rattle.st_types.specs.Inside.{named_by};
ghost use Rattle.st_types.specs.Names.{Named, unit_at, units_of};
ghost use Rattle.st_values.specs.Words.{raised};

use crate::listing::{Listing, upper_case};
use crate::members::members_of;
use crate::rows::rows_of;
use crate::walk::Walk;
use st_chart_parts::chart_parts;
use st_check::{Program, checked_program_has_sound_leaves, type_sizes};
use st_leaves::leaves_follow_the_composition;
use st_references::{Initials, types_written};
use st_scopes::Tables;
use st_tree::{Leaf, List};
use st_types::NamedUnit;
use std::alloc::{AllocError, Global};

/// The leaves of a checked program, in order.
pub fn leaves_of(alloc: Global, program: &Program) -> Result<Vec<Leaf>, AllocError>
    ensures leaves { IfOk result (λ leaves. leaves.items ≡ leaves_of_program program.now) }
    ensures sound { IfOk result (λ leaves. IsSound leaves.items) }
    ensures worded { IfOk result (λ _. IsWorded program.now) }
{
    leaves_follow_the_composition();
    checked_program_has_sound_leaves();
    let tables = Tables::new(alloc, program.units())?;
    main_leaves(alloc, &tables, program.order(), program.main())
}

/// The leaves of the unit of this number, which is a program.
fn main_leaves(
    alloc: Global,
    tables: &Tables<'_>,
    order: &[usize],
    main: usize,
) -> Result<Vec<Leaf>, AllocError>
    requires order { IsOrder (graph_of (units_of tables.now)) order.now }
    requires main { main < length (units_of tables.now) }
    requires few { (u : Named) → unit_at (units_of tables.now) main ≡ Some u
        → length (leaves_of_whole (composition_of (units_of tables.now) u.declares)) ≤ 65536 }
    ensures leaves { IfOk result
        (λ leaves. (u : Named) → unit_at (units_of tables.now) main ≡ Some u
        → leaves.items ≡ program_leaves (units_of tables.now) u) }
    ensures ways { IfOk result (λ _. (u : Named) → unit_at (units_of tables.now) main ≡ Some u
        → AreWays (leaves_of_whole (composition_of (units_of tables.now) u.declares))) }
{
    let written = types_written(alloc, tables)?;
    let initials = Initials::new(alloc, tables, &written, order)?;
    let sizes = type_sizes(alloc, tables, order)?;
    let names = upper_names(alloc, tables.units())?;
    let rows = rows_of(alloc, tables, sizes.as_slice())?;
    let charts = chart_parts(alloc, tables)?;
    let members = members_of(alloc, tables, &initials, rows.as_slice())?;
    let walk = Walk {
        alloc,
        tables,
        initials: &initials,
        names: names.as_slice(),
        members: members.as_slice(),
        charts: charts.as_slice(),
    };
    walked_leaves(walk, main)
}

/// The leaves that a walk through the unit of this number lists, which is a program.
fn walked_leaves(walk: Walk<'_, '_>, main: usize) -> Result<Vec<Leaf>, AllocError>
    requires walk { IsWalk walk }
    requires main { main < length (units_in walk) }
    requires few { (u : Named) → unit_at (units_in walk) main ≡ Some u
        → length (leaves_of_whole (composition_of (units_in walk) u.declares)) ≤ 65536 }
    ensures leaves { IfOk result
        (λ leaves. (u : Named) → unit_at (units_in walk.entry) main ≡ Some u
        → leaves.items ≡ program_leaves (units_in walk.entry) u) }
    ensures ways { IfOk result (λ _. (u : Named) → unit_at (units_in walk.entry) main ≡ Some u
        → AreWays (leaves_of_whole (composition_of (units_in walk.entry) u.declares))) }
{
    let name = walk.tables.unit(main).name.spelling.as_slice();
    let mut listing = Listing::new(walk.alloc, name)?;
    walk.list_program(main, &mut listing)?;
    Ok(listing.into_leaves())
}

/// The names of units, in upper case.
fn upper_names(alloc: Global, units: &[NamedUnit<'_>]) -> Result<Vec<List<u8>>, AllocError>
    ensures { IfOk result (λ names. names.items ≡ map (λ u. raised u.name.spelling)
        (map named_by units.now)) }
{
    let mut names = Vec::with_capacity(alloc, units.len())?;
    'each: for unit in units {
        names.push(upper_case(alloc, unit.name.spelling.as_slice())?)?;
    }
    Ok(names)
}
