//! What an online change dropped and brought, and what its undo gives back.
ghost use Rattle.std.specs.Prelude.{◌≡◌, ◌<◌, length};
ghost use Rattle.st_session.specs.States.{FitsSaved, leaves_of};
ghost use Rattle.st_check.specs.Programs.{leaves_of_program};

use crate::message::{push_rest, push_value};
use crate::words::Words;
use st_layout::{Layout, Plan, PlanFault, Rename, Runs};
use st_memory::{Memory, Saved};
use st_messages::push_quoted;
use st_session::control::{Controller, Counts, Image, Record};
use st_tree::Role;
use st_values::Value;
use std::alloc::{AllocError, Global};

/// The most names that are listed of what was dropped, and of what is new.
const MAX_NAMES: u32 = 20;

/// What a person is told of an online change, and once it is undone. Both are empty where nothing was dropped, brought and renamed.
#[derive(Drop)]
pub struct Changed {
    pub done: String,
    pub undone: String,
}

/// What a person is told of the online change that was done last, whose line this is.
pub fn told_of_change<M: Memory>(
    alloc: Global,
    line: &[u8],
    counts: Counts,
    controller: &Controller<M>,
) -> Result<Changed, AllocError> {
    let mut told = Changed {
        done: String::new(alloc),
        undone: String::new(alloc),
    };
    if let Some(
        Record::Change {
            old,
            saved,
            renames,
        },
    ) = controller.newest()
    {
        push_renames(&mut told, line)?;
        if counts.dropped > 0 || counts.fresh > 0 {
            push_lists(alloc, &mut told, old, saved, renames.as_slice(), controller)?;
        }
    }
    Ok(told)
}

/// Puts the renames of a change's line.
fn push_renames(told: &mut Changed, line: &[u8]) -> Result<(), AllocError> {
    let mut words = Words::of(line);
    let _change = words.take();
    while let Some(spot) = words.take() {
        push_rename(told, spot.word)?;
    }
    Ok(())
}

/// Puts a rename, there and back.
fn push_rename(told: &mut Changed, word: &[u8]) -> Result<(), AllocError> {
    if let Some(at) = word.iter().position(|byte| *byte == b'=') {
        push_pair(&mut told.done, &word[..at], &word[at + 1..])?;
        push_pair(&mut told.undone, &word[at + 1..], &word[..at])?;
    }
    Ok(())
}

/// Puts that a part has another path now.
fn push_pair(message: &mut String, old: &[u8], new: &[u8]) -> Result<(), AllocError> {
    message.push_str("  renamed: ")?;
    push_quoted(message, old)?;
    message.push_str(" is ")?;
    push_quoted(message, new)?;
    message.push('\n')
}

/// Puts the names that were dropped and brought, and the forces that were lost.
fn push_lists<M: Memory>(
    alloc: Global,
    told: &mut Changed,
    old: &Image,
    saved: &Saved,
    renames: &[Rename],
    controller: &Controller<M>,
) -> Result<(), AllocError>
    requires { FitsSaved (leaves_of_program old.now) (leaves_of controller.now.state)
        saved.now renames.now }
{
    let (before, now) = (old.layout(), controller.layout());
    let plan = match Plan::between(alloc, before, now, renames) {
        Ok(plan) => plan,
        Err(PlanFault::Memory | PlanFault::NotPaired) => return Err(AllocError),
    };
    push_lone(&mut told.done, "  dropped: ", before, plan.targets())?;
    push_lone(&mut told.done, "  new: ", now, plan.sources())?;
    push_lone(&mut told.undone, "  dropped: ", now, plan.sources())?;
    push_lone(&mut told.undone, "  back: ", before, plan.targets())?;
    if saved.forced.as_slice().is_empty() {
        return Ok(());
    }
    let memory = controller.memory_before(alloc, old, saved, renames)?;
    push_forces(alloc, told, before, &plan, &memory)
}

/// Puts the names of a program's leaves that have no partner in the other program.
fn push_lone(
    message: &mut String,
    title: &str,
    leaves: &Layout,
    partners: &Runs,
) -> Result<(), AllocError>
    requires { length partners.now ≡ length leaves.now }
{
    let mut names = Names::new(title);
    for leaf in 0..leaves.len() {
        if partners.at(leaf).is_none() {
            names.put(message, leaves, leaf)?;
        }
    }
    names.end(message)
}

/// A list of names as it is put: how many there are, and how many of them were named.
#[derive(Drop)]
struct Names<'a> {
    title: &'a str,
    count: u32,
    named: u32,
}

impl<'a> Names<'a> {
    /// No name is put yet.
    fn new(title: &'a str) -> Self {
        Names {
            title,
            count: 0,
            named: 0,
        }
    }

    /// Counts a leaf, and names it where it isn't hidden and not too many were named.
    fn put(&mut self, message: &mut String, layout: &Layout, leaf: u32) -> Result<(), AllocError>
        requires { leaf < length layout.now }
    {
        self.count = self.count.saturating_add(1);
        let declared = layout.at(leaf);
        if self.named < MAX_NAMES && !matches!(declared.role, Role::Hidden) {
            message.push_str(if self.named == 0 { self.title } else { ", " })?;
            push_quoted(message, declared.shown.as_slice())?;
            self.named += 1;
        }
        Ok(())
    }

    /// Ends the list, and says how many more there are.
    fn end(&self, message: &mut String) -> Result<(), AllocError> {
        if self.count == 0 {
            return Ok(());
        }
        if self.named == 0 {
            message.push_str(self.title)?;
            return write!(message, "{}\n", self.count);
        }
        push_rest(message, self.count, self.named)?;
        message.push('\n')
    }
}

/// Puts each force that was lost, with its value.
fn push_forces<M: Memory>(
    alloc: Global,
    told: &mut Changed,
    old: &Layout,
    plan: &Plan,
    memory: &M,
) -> Result<(), AllocError>
    requires targets { length plan.now.targets ≡ length old.now }
    requires over { M.IsOver old.now memory.now }
{
    for leaf in 0..old.len() {
        if plan.target(leaf).is_none() && memory.forced(old, leaf) {
            let name = old.at(leaf).shown.as_slice();
            let value = memory.get(old, leaf);
            push_force(alloc, &mut told.done, "  force lost: ", name, value)?;
            push_force(alloc, &mut told.undone, "  force back: ", name, value)?;
        }
    }
    Ok(())
}

/// Puts a force with its value.
fn push_force(
    alloc: Global,
    message: &mut String,
    title: &str,
    name: &[u8],
    value: Value,
) -> Result<(), AllocError> {
    message.push_str(title)?;
    push_quoted(message, name)?;
    message.push_str(" = ")?;
    push_value(alloc, message, value)?;
    message.push('\n')
}
