//! A message as it is written.
ghost use Rattle.std.specs.Prelude.{◌≡◌, ◌++◌, IfOk, [], codes, false, true};
ghost use Rattle.std.specs.String.{string_bytes};
ghost use Rattle.st_messages.specs.Drafts.{Adds, Becomes, ended, said, with_line};
ghost use Rattle.st_messages.specs.Rows.{filled, slot_texts};
ghost use Rattle.st_messages.specs.Sayings.{Tells};

use crate::form::Words;
use crate::saying::{Saying, Slot, filled};
use std::alloc::{AllocError, Global};

/// What is said of a fault, as it is written: a title, and lines below it. It keeps that memory was wanting: then nothing more is
/// written, and `finish` says so.
#[derive(Drop)]
pub struct Draft {
    /// Where the memory for it is.
    alloc: Global,
    /// What is wrong, in one line.
    title: String,
    /// The lines below it, without the last line feed.
    more: String,
    /// Whether there was no memory for a part of it.
    failed: bool,
}

impl Draft {
    /// Nothing is said yet.
    pub fn new(alloc: Global) -> Draft
        ensures title { string_bytes result.title ≡ [] }
        ensures more { string_bytes result.more ≡ [] }
    {
        Draft {
            alloc,
            title: String::new(alloc),
            more: String::new(alloc),
            failed: false,
        }
    }

    /// Whether nothing was said.
    pub fn is_empty(&self) -> bool {
        self.title.is_empty()
    }

    /// Says a text.
    pub fn say(&mut self, text: &str)
        ensures { Adds self.old self.new text.now }
    {
        if self.failed {
            return;
        }
        let said = if self.more.is_empty() {
            self.title.push_str(text)
        } else {
            self.more.push_str(text)
        };
        self.failed = said.is_err();
    }

    /// Begins a line below, which says what to do.
    pub fn help(&mut self, help: &str)
        ensures { Becomes self.old self.new (with_line (said self.old)
            (codes "  help: " ++ help.now)) }
    {
        self.line("  help: ");
        self.say(help);
    }

    /// Says what a row says with these slots.
    pub fn tell(&mut self, saying: Saying, slots: &[Slot<'_>])
        ensures { Tells self.old self.new saying (slot_texts slots.now) }
    {
        self.fill(saying.title, slots);
        if !saying.below.is_empty() {
            self.line("  ");
            self.fill(saying.below, slots);
        }
    }

    /// Says the words of a row with these slots.
    pub fn fill(&mut self, row: &str, slots: &[Slot<'_>])
        ensures { Adds self.old self.new (filled (slot_texts slots.now) row.now) }
    {
        match filled(self.alloc, row, slots) {
            Ok(text) => self.say(text.as_str()),
            Err(_) => self.fail(),
        }
    }

    /// Begins a line below with a text that isn't empty.
    pub fn line(&mut self, start: &str)
        ensures { Becomes self.old self.new (with_line (said self.old) start.now) }
    {
        if !self.more.is_empty() {
            self.say("\n");
        }
        if !self.failed {
            self.failed = self.more.push_str(start).is_err();
        }
    }

    /// Keeps that there was no memory for what was to be said.
    pub fn fail(&mut self)
        ensures { self.new.failed ≡ true }
    {
        self.failed = true;
    }

    /// What was said, where there was memory for all of it.
    pub fn finish(mut self) -> Result<Words, AllocError>
        ensures all { IfOk result (λ _. self.failed ≡ false) }
        ensures title { IfOk result (λ words. string_bytes words.title ≡ string_bytes self.title) }
        ensures more { IfOk result (λ words. string_bytes words.more
            ≡ ended (string_bytes self.more)) }
    {
        if !self.more.is_empty() {
            self.say("\n");
        }
        if self.failed {
            return Err(AllocError);
        }
        Ok(Words {
            title: self.title,
            more: self.more,
        })
    }
}
