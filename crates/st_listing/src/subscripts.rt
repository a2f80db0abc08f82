//! The subscripts of an array's elements, one choice after the other (2.4.1.1).
ghost use Rattle.std.specs.Fmt.{signed_decimal};
ghost use Rattle.std.specs.List.{All, flat_map};
ghost use Rattle.std.specs.Prelude.{◌≡◌, ◌↔◌, ◌<ℤ◌, ◌≤ℤ◌, ◌++◌, ◌∷◌, [], ℤ, IfOk, IfSome, IsTrue, List, None, OnOk, codes, drop, length, map};
ghost use Rattle.std.specs.String.{string_bytes};
ghost use Rattle.st_leaves.specs.Subscripts.{next, value_of};
ghost use Rattle.st_leaves.specs.LeavesIn.{subscript_lists};
ghost use Rattle.st_leaves.specs.Paths.{index, selector_text, subscripts_text};
ghost use Rattle.st_leaves.specs.Leaves.{number_written};
ghost use Rattle.st_listing.specs.Choices.{HasNumbers, IsStep};

use st_leaves::{Number, number_written};
use st_tree::tree::{SignedInteger, Subrange};
use std::alloc::{AllocError, Global};
use std::marker::Model;

/// The choices of subscripts that are still to come. The last subscript changes fastest.
#[derive(Drop)]
pub(crate) struct Subscripts<'a> {
    ranges: &'a [Subrange],
    /// The next choice.
    chosen: Vec<Number>,
    /// Whether none is left.
    is_done: bool,
}

impl<'a> Model for Subscripts<'a> {
    ghost use Rattle.std.specs.Prelude.{List, ℤ};
    ghost use Rattle.st_listing.specs.Choices.{AreSubscripts, choices_left};

    ghost Value = { List (List ℤ) };

    ghost view = { choices_left };

    ghost invariant = { AreSubscripts };
}

impl<'a> Subscripts<'a> {
    /// All choices.
    pub fn of(alloc: Global, ranges: &'a [Subrange]) -> Result<Subscripts<'a>, AllocError>
        ensures { IfOk result (λ all. all ≡ subscript_lists ranges.now) }
    {
        Ok(Subscripts {
            ranges,
            chosen: first_choice(alloc, ranges)?,
            is_done: !have_numbers(ranges),
        })
    }

    /// Whether none is left.
    pub fn is_done(&self) -> bool
        ensures { IsTrue result ↔ (self.now ≡ []) }
    {
        self.is_done
    }

    /// The next choice, as it is written.
    pub fn text(&self, alloc: Global) -> Result<String, AllocError>
        ensures { IfOk result (λ text. (is : List ℤ) (others : List (List ℤ))
            → self.now ≡ is ∷ others → string_bytes text ≡ selector_text (index is)) }
    {
        choice_text(alloc, &self.chosen)
    }

    /// Goes on behind the next choice.
    pub fn advance(&mut self)
        ensures { self.new ≡ drop 1 self.old }
    {
        if !self.is_done {
            self.is_done = !step(self.ranges, &mut self.chosen);
        }
    }
}

/// Whether each range has a number.
fn have_numbers(ranges: &[Subrange]) -> bool
    ensures { IsTrue result ↔ All HasNumbers ranges.now }
{
    ranges.iter().all(|range| has_numbers(*range))
}

/// Whether a range has a number.
fn has_numbers(range: Subrange) -> bool
    ensures { IsTrue result ↔ HasNumbers range }
{
    !is_below(number_written(range.upper), number_written(range.lower))
}

/// The least number of each range.
fn first_choice(alloc: Global, ranges: &[Subrange]) -> Result<Vec<Number>, AllocError>
    ensures { IfOk result (λ chosen. chosen.items ≡ map (λ r. number_written r.lower) ranges.now) }
{
    ranges
        .iter()
        .map(|range| number_written(range.lower))
        .collect(alloc)
}

/// Goes from a choice to the one behind it, or from the last one to the first.
fn step(ranges: &[Subrange], chosen: &mut [Number]) -> bool
    requires len { length ranges.now ≡ length chosen.old }
    requires numbers { All HasNumbers ranges.now }
    ensures { IsStep ranges.now (map value_of chosen.old) result (map value_of chosen.new) }
{
    if ranges.is_empty() {
        return false;
    }
    let first = chosen[0];
    let range = ranges[0];
    if step(&ranges[1..], &mut chosen[1..]) {
        return true;
    }
    match following(first, number_written(range.upper)) {
        Some(number) => {
            chosen[0] = number;
            true
        }
        None => {
            chosen[0] = number_written(range.lower);
            false
        }
    }
}

/// Whether the first number is below the other.
fn is_below(number: Number, other: Number) -> bool
    ensures { IsTrue result ↔ (value_of number <ℤ value_of other) }
{
    match (number.is_negative, other.is_negative) {
        (false, false) => number.magnitude < other.magnitude,
        (false, true) => false,
        (true, false) => number.magnitude > 0 || other.magnitude > 0,
        (true, true) => number.magnitude > other.magnitude,
    }
}

/// The number behind this one, up to the upper one.
fn following(number: Number, upper: Number) -> Option<Number>
    ensures next { IfSome result (λ following. value_of following ≡ next (value_of number)) }
    ensures within { IfSome result (λ _. value_of number <ℤ value_of upper) }
    ensures none { result ≡ None → value_of upper ≤ℤ value_of number }
{
    if !is_below(number, upper) {
        return None;
    }
    if number.is_negative && number.magnitude > 0 {
        return Some(Number {
            is_negative: true,
            magnitude: number.magnitude - 1,
        });
    }
    Some(Number {
        is_negative: false,
        magnitude: number.magnitude + 1,
    })
}

/// How a choice is written.
fn choice_text(alloc: Global, chosen: &[Number]) -> Result<String, AllocError>
    ensures { IfOk result (λ text. string_bytes text
        ≡ selector_text (index (map value_of chosen.now))) }
{
    let mut text = String::new(alloc);
    text.push('[')?;
    put_choice(chosen, &mut text)?;
    text.push(']')?;
    Ok(text)
}

/// Puts numbers at the end, with `,` between them.
fn put_choice(chosen: &[Number], text: &mut String) -> Result<(), AllocError>
    ensures { OnOk result (string_bytes text.new
        ≡ string_bytes text.old ++ subscripts_text (map value_of chosen.now)) }
{
    if chosen.is_empty() {
        return Ok(());
    }
    let first = chosen[0];
    put_number(first, text)?;
    put_others(&chosen[1..], text)
}

/// Puts numbers at the end, with `,` before each.
fn put_others(numbers: &[Number], text: &mut String) -> Result<(), AllocError>
    ensures { OnOk result (string_bytes text.new
        ≡ string_bytes text.old
        ++ flat_map (λ n. codes "," ++ signed_decimal (value_of n)) numbers.now) }
{
    'others: for number in numbers {
        text.push(',')?;
        put_number(*number, text)?;
    }
    Ok(())
}

/// Puts a number at the end.
fn put_number(number: Number, text: &mut String) -> Result<(), AllocError>
    ensures { OnOk result (string_bytes text.new
        ≡ string_bytes text.old ++ signed_decimal (value_of number)) }
{
    if number.is_negative && number.magnitude > 0 {
        write!(text, "-{}", number.magnitude)
    } else {
        write!(text, "{}", number.magnitude)
    }
}
