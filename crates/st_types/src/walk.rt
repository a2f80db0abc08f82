//! What units stand for as types: the ends of their links (2.3.3).
ghost use Rattle.std.specs.Prelude.{◌≡◌, ℕ, suc, [], ◌<◌, IfOk, OnOk, length, map};
ghost use Rattle.std.specs.List.{All};
ghost use Rattle.st_types.specs.Links.{LeadsBelow, link_within};
ghost use Rattle.st_types.specs.Walks.{AreMarked, IsMet, IsUp, KeepsMet, base_at, base_of};

use crate::base::Base;
use crate::link::Link;
use std::alloc::{AllocError, Global};

/// How far the walk is with a unit.
#[derive(Clone, Copy)]
pub enum Mark {
    /// It wasn't met.
    New,
    /// The walk came through it, and doesn't know its type.
    Open,
    /// It stands for this type.
    Done(Base),
}

impl Mark {
    /// The type that is known, or else none.
    fn base(self) -> Base
        ensures { result ≡ base_of self }
    {
        match self {
            Mark::Done(base) => base,
            Mark::New | Mark::Open => Base::Unknown,
        }
    }
}

/// What each unit stands for as a type. Each link is followed once.
pub fn bases_of(alloc: Global, links: &[Link]) -> Result<Vec<Base>, AllocError>
    requires { All (LeadsBelow (length links.now)) links.now }
    ensures { IfOk result (λ bases. (i : ℕ) → base_at bases.items i
        ≡ link_within links.now (suc (length links.now)) i) }
{
    let mut marks = Vec::from_elem(alloc, Mark::New, links.len())?;
    let mut path = Vec::new(alloc);
    for unit in 0..links.len() {
        let base = descend(links, unit, &mut marks, &mut path)?;
        ascend(links, base, &mut marks, &mut path);
    }
    known_bases(alloc, &marks)
}

/// The types that are known.
fn known_bases(alloc: Global, marks: &[Mark]) -> Result<Vec<Base>, AllocError>
    ensures { IfOk result (λ bases. bases.items ≡ map base_of marks.now) }
{
    marks.iter().map(|mark| mark.base()).collect(alloc)
}

/// Follows the links from a unit to one whose type is known, which is answered. The path has those on the way.
fn descend(
    links: &[Link],
    from: usize,
    marks: &mut Vec<Mark>,
    path: &mut Vec<usize>,
) -> Result<Base, AllocError>
    requires closed { All (LeadsBelow (length links.now)) links.now }
    requires from { from < length links.now }
    requires marked { AreMarked links.now marks.old.items path.old.items }
    requires empty { path.old.items ≡ [] }
    ensures up { IfOk result (λ base. IsUp links.now marks.new.items path.new.items base) }
    ensures met { OnOk result (IsMet marks.new.items from) }
    ensures keeps { OnOk result (KeepsMet marks.old.items marks.new.items) }
{
    let mut at = from;
    'steps: loop {
        match marks[at] {
            Mark::Done(base) => return Ok(base),
            Mark::Open => return Ok(Base::Unknown),
            Mark::New => {}
        }
        match links[at] {
            Link::Known(base) => {
                marks[at] = Mark::Done(base);
                return Ok(base);
            }
            Link::SameAs(next) | Link::ArrayOf(next) => {
                path.push(at)?;
                marks[at] = Mark::Open;
                at = next;
            }
        }
    }
}

/// Goes the path back, from the type at its end.
fn ascend(links: &[Link], end: Base, marks: &mut Vec<Mark>, path: &mut Vec<usize>)
    requires { IsUp links.now marks.old.items path.old.items end }
    ensures marked { AreMarked links.now marks.new.items path.new.items }
    ensures empty { path.new.items ≡ [] }
    ensures keeps { KeepsMet marks.old.items marks.new.items }
{
    let mut base = end;
    'steps: while let Some(unit) = path.pop() {
        base = links[unit].through(unit, base);
        marks[unit] = Mark::Done(base);
    }
}
