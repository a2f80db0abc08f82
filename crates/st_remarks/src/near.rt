//! The path that was meant, as far as it can be told.
use crate::part::{behind_program, first_inside};
use st_layout::Layout;
use st_messages::Nearest;
use st_tree::Role;
use std::alloc::{AllocError, Global};

/// What there is in the place of a path that no leaf has.
#[derive(Clone, Copy)]
pub enum Meant<'a> {
    /// It names a whole: the path of the first leaf in it.
    Whole(&'a [u8]),
    /// It lacks the program's name: the path with it.
    Behind(&'a [u8]),
    /// The path that is nearest to it.
    Near(&'a [u8]),
    /// Nothing is near.
    Nothing,
}

/// What there is in the place of a path that no leaf has.
pub fn meant_by<'a>(
    alloc: Global,
    layout: &'a Layout,
    path: &'a [u8],
) -> Result<Meant<'a>, AllocError> {
    if let Some(inside) = first_inside(layout, path) {
        return Ok(Meant::Whole(inside));
    }
    if let Some(behind) = behind_program(layout, path) {
        return Ok(Meant::Behind(behind));
    }
    match nearest_path(alloc, layout, path)? {
        Some(near) => Ok(Meant::Near(near)),
        None => Ok(Meant::Nothing),
    }
}

/// The path that is nearest to another among those that the program's text has.
fn nearest_path<'a>(
    alloc: Global,
    layout: &'a Layout,
    path: &'a [u8],
) -> Result<Option<&'a [u8]>, AllocError> {
    let mut nearest = Nearest::new(alloc, path);
    for number in 0..layout.len() {
        let leaf = layout.at(number);
        if !matches!(leaf.role, Role::Hidden) {
            nearest.offer(leaf.shown.as_slice());
        }
    }
    nearest.get()
}
