//! The values that an array's list gives its first elements (2.4.2).
ghost use Rattle.std.specs.List.{All};
ghost use Rattle.std.specs.Option.{option_copied};
ghost use Rattle.std.specs.Prelude.{◌≡◌, [], IfOk, None, drop, slice_index_or};
ghost use Rattle.st_types.specs.Initials.{first_values, values_in};
ghost use Rattle.st_references.specs.Lists.{values_of};
ghost use Rattle.st_references.specs.Runs.{HasElements, run_values, runs_values};

use st_tree::tree::{ArrayElement, Constant, Initial};
use std::alloc::{AllocError, Global};
use std::marker::Model;

/// Elements of one value.
#[derive(Clone, Copy)]
struct Run<'a> {
    /// How many elements they are.
    count: u128,
    value: Option<&'a Constant>,
}

/// An initial value that is written. Of a list it has the runs that fill elements, made once, so that each array that begins
/// with it passes at once what fills none.
#[derive(Drop)]
pub struct Written<'a> {
    initial: &'a Initial,
    runs: Vec<Run<'a>>,
}

impl<'a> Model for Written<'a> {
    ghost use Rattle.st_tree.specs.declared.tree.declaration.Initial.{Initial as Literal};

    ghost Value = { Literal };

    ghost use Rattle.st_references.specs.Runs.{HasRuns};

    ghost view = { λ written. written.initial.now };

    ghost invariant = { HasRuns };
}

impl<'a> Written<'a> {
    /// The initial value as a declaration writes it, with the runs of its list.
    pub fn new(alloc: Global, initial: &'a Initial) -> Result<Written<'a>, AllocError>
        ensures { IfOk result (λ written. written ≡ initial.now) }
    {
        let runs = runs_of(alloc, items_of(initial))?;
        Ok(Written { initial, runs })
    }

    /// The initial value, as the declaration writes it.
    pub fn initial(&self) -> &'a Initial
        ensures { result.now ≡ self.now }
    {
        self.initial
    }

    /// The runs of a list.
    fn runs(&self) -> &[Run<'a>]
        ensures values { runs_values result.now ≡ values_of (Some self.now) }
        ensures filled { All HasElements result.now }
    {
        &self.runs
    }
}

/// The values of an array's first elements that are still to come, each where one is written.
#[derive(Drop)]
pub struct FirstValues<'a> {
    run: Run<'a>,
    others: &'a [Run<'a>],
}

impl<'a> Model for FirstValues<'a> {
    ghost use Rattle.std.specs.Prelude.{List, Option};
    ghost use Rattle.st_tree.specs.declared.tree.constant.Constant.{Constant as Literal};

    ghost Value = { List (Option Literal) };

    ghost use Rattle.st_references.specs.Runs.{AreLeft, values_left};

    ghost view = { values_left };

    ghost invariant = { AreLeft };
}

impl<'a> FirstValues<'a> {
    /// Those that a list gives. What isn't a list gives none.
    pub fn of(initial: Option<&'a Written<'a>>) -> FirstValues<'a>
        ensures { result ≡ values_of (option_copied initial.entry) }
    {
        let Some(written) = initial else {
            return FirstValues::none();
        };
        FirstValues::in_runs(written.runs())
    }

    /// None.
    fn none() -> FirstValues<'a>
        ensures { result ≡ [] }
    {
        FirstValues {
            run: Run::none(),
            others: &[],
        }
    }

    /// Those of these runs.
    fn in_runs(runs: &'a [Run<'a>]) -> FirstValues<'a>
        requires { All HasElements runs.now }
        ensures { result ≡ runs_values runs.now }
    {
        FirstValues {
            run: Run::none(),
            others: runs,
        }
    }

    /// The value of the next element, where one is written. Behind the last there are none.
    pub fn next(&mut self) -> Option<&'a Constant>
        ensures value { option_copied result ≡ slice_index_or self.old 0 None }
        ensures rest { self.new ≡ drop 1 self.old }
    {
        if self.run.count > 0 {
            self.run.count -= 1;
            return self.run.value;
        }
        let others = self.others;
        if others.is_empty() {
            return None;
        }
        let first = others[0];
        self.run = first;
        self.run.count -= 1;
        self.others = &others[1..];
        first.value
    }
}

impl<'a> Run<'a> {
    /// No elements.
    fn none() -> Run<'a>
        ensures { result.count ≡ 0 }
    {
        Run {
            count: 0,
            value: None,
        }
    }

    /// The elements of an item.
    fn of(item: &'a ArrayElement) -> Run<'a>
        ensures { run_values result ≡ values_in item.now }
    {
        let (count, value) = match item {
            ArrayElement::Single(constant) => (1, Some(constant)),
            ArrayElement::Repeated(_, count, Some(constant)) => (count.get(), Some(constant.get())),
            ArrayElement::Repeated(_, count, None) => (count.get(), None),
        };
        Run { count, value }
    }
}

/// The items of a list. What isn't a list has none.
fn items_of(initial: &Initial) -> &[ArrayElement]
    ensures { first_values result.now ≡ values_of (Some initial.now) }
{
    match initial {
        Initial::Array(_, items) => items.as_slice(),
        Initial::Constant(_) => &[],
    }
}

/// The elements of items, without the items that have none.
fn runs_of<'a>(alloc: Global, items: &'a [ArrayElement]) -> Result<Vec<Run<'a>>, AllocError>
    ensures values { IfOk result (λ runs. runs_values runs.items ≡ first_values items.now) }
    ensures filled { IfOk result (λ runs. All HasElements runs.items) }
{
    let mut runs = Vec::new(alloc);
    'items: for item in items {
        let run = Run::of(item);
        if run.count > 0 {
            runs.push(run)?;
        }
    }
    Ok(runs)
}
