//! Charts as tables of numbers.
ghost use Rattle.std.specs.Prelude.{◌≡◌, ◌<◌, All, IfOk};
ghost use Rattle.st_charts.specs.Passages.{IsByPriority, passages_of};

use crate::order::by_priority;
use std::alloc::{AllocError, Global};

/// How an association controls its name (2.6.4.4).
#[derive(Clone, Copy, Debug, PartialEq, Eq)]
pub enum Qualifier {
    /// N, or none.
    NonStored,
    /// R.
    Reset,
    /// S.
    Stored,
    /// L.
    Limited,
    /// D.
    Delayed,
    /// P.
    Pulse,
}

/// A transition.
#[derive(Drop)]
pub struct Transition {
    /// The steps that precede it.
    pub before: Vec<u32>,
    /// The steps that follow it.
    pub after: Vec<u32>,
    /// Its priority, where it has one. Lower numbers go first.
    pub priority: Option<u128>,
}

/// An association of a step with a name.
#[derive(Clone, Copy, Debug, PartialEq, Eq)]
pub struct Link {
    /// The step's number: a chart's steps are counted from 0.
    pub step: u32,
    /// The number of the action or the variable that it names: those of a chart are counted from 0.
    pub name: u32,
    /// How the step controls it.
    pub qualifier: Qualifier,
    /// The time of L and D, in milliseconds.
    pub time: i64,
}

/// A chart.
#[derive(Drop)]
pub struct ChartTable {
    /// How many steps it has.
    pub steps: u32,
    /// How many names its associations have.
    pub names: u32,
    /// Its transitions, in the order of the text.
    pub transitions: Vec<Transition>,
    /// Its associations, in the order of the text.
    pub links: Vec<Link>,
    /// The numbers of its transitions, by their priorities.
    pub order: Vec<usize>,
    ghost before: { All (λ t. All (λ s. s < steps) t.before.items) transitions.items },
    ghost after: { All (λ t. All (λ s. s < steps) t.after.items) transitions.items },
    ghost linked: { All (λ link. link.step < steps) links.items },
    ghost named: { All (λ link. link.name < names) links.items },
    ghost ordered: { IsByPriority (passages_of transitions.items) order.items },
}

impl ChartTable {
    /// The chart with these transitions and associations, whose steps and names are among so many.
    pub fn new(
        alloc: Global,
        steps: u32,
        names: u32,
        transitions: Vec<Transition>,
        links: Vec<Link>,
    ) -> Result<ChartTable, AllocError>
        requires before { All (λ t. All (λ s. s < steps) t.before.items) transitions.items }
        requires after { All (λ t. All (λ s. s < steps) t.after.items) transitions.items }
        requires linked { All (λ link. link.step < steps) links.items }
        requires named { All (λ link. link.name < names) links.items }
        ensures steps { IfOk result (λ table. table.steps ≡ steps) }
        ensures names { IfOk result (λ table. table.names ≡ names) }
        ensures transitions { IfOk result (λ table. table.transitions.items ≡ transitions.items) }
        ensures links { IfOk result (λ table. table.links.items ≡ links.items) }
    {
        let order = by_priority(alloc, transitions.as_slice())?;
        Ok(ChartTable {
            steps,
            names,
            transitions,
            links,
            order,
        })
    }
}
