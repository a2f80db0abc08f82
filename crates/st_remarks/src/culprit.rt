//! Which word of a line is at fault.
ghost use Rattle.std.specs.Prelude.{◌≡◌, IfSome, false, is_some, not};
ghost use Rattle.st_session.specs.States.{leaf_of};

use crate::words::{Spot, Words, first_word, second_word, third_word};
use st_lines::cut_pair;
use st_memory::Memory;
use st_session::control::{Controller, NO_SUCH_PATH, NOT_AN_INPUT, NOT_OF_TYPE};
use st_tree::Role;
use st_values::read_value;

/// A path of a line and the value that stands with it, with the words that they are.
#[derive(Clone, Copy)]
pub struct Subject<'a> {
    pub path: &'a [u8],
    pub value: &'a [u8],
    /// Where the path stands.
    pub at: Spot<'a>,
    /// Where the value stands, or the path where there is none.
    pub value_at: Spot<'a>,
}

/// The path and the value of which a line was refused for this cause: of a scan, those of the first pair that has it.
pub fn subject_of<'a, M: Memory>(
    line: &'a [u8],
    number: u8,
    controller: &Controller<M>,
) -> Option<Subject<'a>> {
    let first = first_word(line)?;
    if first.word == b"scan".as_slice() {
        pair_at_fault(line, number, controller)
    } else {
        path_and_value(line)
    }
}

/// The path and the value of a line that has them as its second and third words.
fn path_and_value(line: &[u8]) -> Option<Subject<'_>> {
    let at = second_word(line)?;
    let value_at = third_word(line).unwrap_or(at);
    Some(Subject {
        path: at.word,
        value: value_at.word,
        at,
        value_at,
    })
}

/// The first pair of a scan for which it is refused for this cause.
fn pair_at_fault<'a, M: Memory>(
    line: &'a [u8],
    number: u8,
    controller: &Controller<M>,
) -> Option<Subject<'a>>
    ensures { number ≡ 1 → IfSome result (λ pair. is_some
        (leaf_of controller.now.state pair.path.now) ≡ false) }
{
    let mut words = Words::of(line);
    words.take()?;
    words.take()?;
    while let Some(spot) = words.take() {
        let pair = pair_of(spot);
        if is_at_fault(pair, number, controller) {
            return Some(pair);
        }
    }
    None
}

/// The path and the value of a pair, which a word is.
fn pair_of(spot: Spot<'_>) -> Subject<'_> {
    let (path, value) = cut_pair(spot.word);
    Subject {
        path,
        value,
        at: Spot {
            start: spot.start,
            end: spot.start.saturating_add(path.len()),
            word: path,
        },
        value_at: Spot {
            start: spot.end.saturating_sub(value.len()),
            end: spot.end,
            word: value,
        },
    }
}

/// Tests whether a scan with a pair is refused for this cause.
fn is_at_fault<M: Memory>(pair: Subject<'_>, number: u8, controller: &Controller<M>) -> bool
    ensures { number ≡ 1 → result ≡ not (is_some
        (leaf_of controller.now.state pair.entry.path.now)) }
{
    match controller.find(pair.path) {
        None => number == NO_SUCH_PATH,
        Some(leaf) => {
            let declared = controller.layout().at(leaf);
            match number {
                NOT_OF_TYPE => read_value(declared.elem, pair.value).is_err(),
                NOT_AN_INPUT => !matches!(declared.role, Role::ProcessInput),
                _ => false,
            }
        }
    }
}
