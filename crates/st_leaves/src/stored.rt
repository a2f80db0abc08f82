//! The names that a chart stores (2.6.4.4).
ghost use Rattle.std.specs.Prelude.{◌≡◌, ◌++◌, IfOk, OnOk};
ghost use Rattle.st_leaves.specs.Sizes.{IsSize};
ghost use Rattle.st_leaves.specs.Associated.{names_among};
ghost use Rattle.st_leaves.specs.Charts.{associations_in, has_qualifier, set_names, spelled, stored_leaves, stored_names};
ghost use Rattle.st_leaves.specs.Limits.{sizes_of};

use crate::Size;
use crate::names::AssociatedNames;
use crate::size::{kept_leaf_size, named_size};
use st_tree::Word;
use st_tree::tree::{Association, ChartElement};
use st_types::{NameTable, is_same_name};
use st_values::Elem;
use std::alloc::{AllocError, Global};

/// The names that a chart with these elements stores, in the order of their first associations, as these spell them.
pub fn stored_names<'a>(
    alloc: Global,
    elements: &'a [ChartElement],
) -> Result<Vec<&'a Word>, AllocError>
    ensures { IfOk result (λ words. spelled words.items
        ≡ stored_names (associations_in elements.now)) }
{
    let set = names_set(alloc, elements)?;
    if set.len() == 0 {
        return Ok(Vec::new(alloc));
    }
    let names = AssociatedNames::of(alloc, elements)?;
    words_among(alloc, names.words(), &set)
}

/// Those of these words, in order, that are among the names of a table.
fn words_among<'a>(
    alloc: Global,
    words: &[&'a Word],
    names: &NameTable<'_>,
) -> Result<Vec<&'a Word>, AllocError>
    ensures { IfOk result (λ among. spelled among.items
        ≡ names_among names.now (spelled words.now)) }
{
    let mut among = Vec::new(alloc);
    'words: for word in words {
        if names.find(word.as_slice()).is_some() {
            among.push(*word)?;
        }
    }
    Ok(among)
}

/// The names that the steps among these elements are associated with by the qualifier S, one for each such association.
fn names_set<'a>(alloc: Global, elements: &'a [ChartElement]) -> Result<NameTable<'a>, AllocError>
    ensures { IfOk result (λ names. names ≡ set_names (associations_in elements.now)) }
{
    let mut names = NameTable::new(alloc);
    'elements: for element in elements {
        let ChartElement::Step(step) = element else {
            continue;
        };
        add_set(step.associations.as_slice(), &mut names)?;
    }
    Ok(names)
}

/// Adds the names of these associations that have the qualifier S.
fn add_set<'a>(associations: &'a [Association], names: &mut NameTable<'a>) -> Result<(), AllocError>
    ensures { OnOk result (names.new ≡ names.old ++ set_names associations.now) }
{
    'associations: for association in associations {
        if has_qualifier(association, b"S") {
            names.push(association.name.spelling.as_slice())?;
        }
    }
    Ok(())
}

/// How large the leaves of these stored names are.
pub(crate) fn flags_size(names: &[&Word]) -> Size
    ensures { IsSize result (sizes_of (stored_leaves (spelled names.now))) }
{
    let mut size = Size::none();
    'names: for name in names {
        let flag = kept_leaf_size(b"S", Elem::Bool);
        size = size.beside(named_size(name.as_slice(), flag));
    }
    size
}

/// Whether an association has the qualifier of this letter.
pub(crate) fn has_qualifier(association: &Association, letter: &[u8]) -> bool
    ensures { result ≡ has_qualifier letter.now association.now.qualifier }
{
    match &association.qualifier {
        Some(qualifier) => is_same_name(letter, qualifier.name.spelling.as_slice()),
        None => false,
    }
}
