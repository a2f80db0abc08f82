//! Paths that are parts of others.
use crate::words::{Spot, Words};
use st_layout::Layout;

/// The path of the first leaf that is inside of what a path names, ignoring case, where it names no leaf itself but a structure, an
/// array or an instance.
pub fn first_inside<'a>(layout: &'a Layout, path: &[u8]) -> Option<&'a [u8]> {
    for leaf in 0..layout.len() {
        let shown = layout.at(leaf).shown.as_slice();
        if is_inside(shown, path) {
            return Some(shown);
        }
    }
    None
}

/// Tests whether a path goes on behind another, ignoring case, with a member or an element.
fn is_inside(shown: &[u8], path: &[u8]) -> bool {
    match shown.get(path.len()) {
        Some(b'.' | b'[') => shown[..path.len()].eq_ignore_ascii_case(path),
        _ => false,
    }
}

/// The path of the first leaf that is this path behind the program's name, ignoring case.
pub fn behind_program<'a>(layout: &'a Layout, path: &[u8]) -> Option<&'a [u8]> {
    for leaf in 0..layout.len() {
        let shown = layout.at(leaf).shown.as_slice();
        if without_program(shown).eq_ignore_ascii_case(path) {
            return Some(shown);
        }
    }
    None
}

/// What stands in a path behind the program's name.
fn without_program(shown: &[u8]) -> &[u8] {
    match shown.iter().position(|byte| *byte == b'.') {
        Some(at) => &shown[at + 1..],
        None => b"",
    }
}

/// The first word of a change's line that renames a part which the program hasn't, with the part's path.
pub fn lost_rename<'a>(layout: &Layout, line: &'a [u8]) -> Option<Spot<'a>> {
    let mut words = Words::of(line);
    words.take()?;
    while let Some(spot) = words.take() {
        let old = renamed_part(spot);
        if !is_part(layout, old.word) {
            return Some(old);
        }
    }
    None
}

/// The path in the old program of the part that a word renames.
fn renamed_part(spot: Spot<'_>) -> Spot<'_> {
    let len = spot.word.iter().take_while(|byte| **byte != b'=').count();
    let (word, _) = spot.word.split_at(len);
    Spot {
        start: spot.start,
        end: spot.start.saturating_add(len),
        word,
    }
}

/// Tests whether a path is that of a leaf or of a whole.
fn is_part(layout: &Layout, path: &[u8]) -> bool {
    layout.leaf(path).is_some() || first_inside(layout, path).is_some()
}
