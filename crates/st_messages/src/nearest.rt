//! The name that is nearest to another one.

use std::alloc::{AllocError, Global};
use strsim::generic_damerau_levenshtein;

/// The longest name that is compared, in bytes.
const MAX_COMPARED_BYTES: usize = 64;

/// The nearest of the names that were offered. It keeps that there was no memory to compare one: then no name is compared any more,
/// and `get` says so.
#[derive(Drop)]
pub struct Nearest<'n> {
    alloc: Global,
    /// The name that isn't there, in upper case, where there was memory for it.
    wanted: Result<Vec<u8>, AllocError>,
    /// The nearest name so far, and how far it is.
    found: Option<&'n [u8]>,
    distance: usize,
}

impl<'n> Nearest<'n> {
    /// No name was offered yet for this one.
    pub fn new(alloc: Global, wanted: &[u8]) -> Nearest<'n> {
        Nearest {
            alloc,
            wanted: raised(alloc, wanted),
            found: None,
            distance: most_edits(wanted.len()).saturating_add(1),
        }
    }

    /// Offers a name. Of names that are equally near, the first one is kept.
    pub fn offer(&mut self, name: &'n [u8]) {
        let Ok(wanted) = &self.wanted else {
            return;
        };
        if wanted.len() > MAX_COMPARED_BYTES || name.len() > MAX_COMPARED_BYTES {
            return;
        }
        match edits_between(self.alloc, wanted.as_slice(), name) {
            Ok(distance) if distance < self.distance => {
                self.distance = distance;
                self.found = Some(name);
            }
            Ok(_) => {}
            Err(error) => self.wanted = Err(error),
        }
    }

    /// The nearest of the names that were offered, where one is near enough: no more than a third of its letters differ.
    pub fn get(&self) -> Result<Option<&'n [u8]>, AllocError> {
        match self.wanted {
            Ok(_) => Ok(self.found),
            Err(_) => Err(AllocError),
        }
    }
}

/// How many edits lead from a name in upper case to another one, ignoring case.
fn edits_between(alloc: Global, wanted: &[u8], name: &[u8]) -> Result<usize, AllocError> {
    let name = raised(alloc, name)?;
    generic_damerau_levenshtein(alloc, wanted, name.as_slice())
}

/// How many edits may lead from a name of so many bytes to one that is near.
fn most_edits(len: usize) -> usize {
    match len {
        0..=2 => 0,
        3..=5 => 1,
        6..=8 => 2,
        _ => len / 3,
    }
}

/// A name in upper case.
fn raised(alloc: Global, name: &[u8]) -> Result<Vec<u8>, AllocError> {
    let mut found = Vec::new(alloc);
    for byte in name {
        found.push(byte.to_ascii_uppercase())?;
    }
    Ok(found)
}
