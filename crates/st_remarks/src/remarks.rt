//! The observer that explains a session.
ghost use Rattle.std.specs.Prelude.{⊤, ◌≤◌, length};

use crate::change::{Changed, told_of_change};
use crate::fault::told_of_fault;
use crate::past::{Past, Running};
use crate::refused::told_of_refusal;
use st_devices::MAX_LINE_BYTES;
use st_lines::{Request, read_request};
use st_memory::Memory;
use st_session::control::{Controller, Counts, NO_SUCH_PATH, NOT_PAIRED, Refusal, Status};
use st_session::{Exchange, Observer, Upshot};
use std::alloc::{AllocError, Global};

/// Who explains a text that is refused.
pub trait Explainer: Sized + Drop {
    /// What a person is told of a text of this file with a program of the name `main`, where it is refused.
    fn explain(
        &self,
        alloc: Global,
        file: &str,
        text: &[u8],
        main: &[u8],
    ) -> Result<String, AllocError>;
}

/// Says on standard error why a line was refused, where a fault ended a scan, and what a change and its undo dropped and brought.
/// Where that fails, or there is no memory, it says nothing.
#[derive(Drop)]
pub struct Remarks<'a, R, E: Explainer> {
    runtime: &'a R,
    explainer: E,
    /// The text that was loaded.
    loaded: &'a [u8],
    /// The name of the main program.
    main: &'a [u8],
    past: Past,
    /// How many paths may still be compared with one that isn't there.
    compared: u32,
}

/// The most paths that are compared in a session with those that aren't there: some seconds of work.
const MAX_COMPARED: u32 = 1_000_000;

impl<'a, R: Eprint + AllocGlobal, E: Explainer> Remarks<'a, R, E> {
    /// Remarks on a session over the program of this name in a text.
    pub fn new(runtime: &'a R, explainer: E, loaded: &'a [u8], main: &'a [u8]) -> Self {
        Remarks {
            runtime,
            explainer,
            loaded,
            main,
            past: Past::new(runtime.alloc()),
            compared: MAX_COMPARED,
        }
    }

    /// Says a text, where there was memory to make it.
    fn say(&self, text: Result<String, AllocError>) {
        if let Ok(text) = text {
            let _ = eprint!(self.runtime; "{text}");
        }
    }

    /// Says why a line was refused.
    #[inline(always)]
    fn tell_refusal<M: Memory>(
        &mut self,
        exchange: &Exchange<'_>,
        refusal: Refusal,
        controller: &Controller<M>,
    ) {
        let Exchange {
            line,
            number,
            text,
            ..
        } = *exchange;
        let alloc = self.runtime.alloc();
        match refusal {
            Refusal::O(cause) => {
                let searches = self.may_search(cause, controller.layout().len());
                self.say(told_of_refusal(alloc, number, line, cause, searches, controller));
            }
            Refusal::M => {
                let _ = eprintln!(self.runtime;
                    "session:{number}:1: error: M: there was no memory for this line, and all is as it was before"
                );
            }
            Refusal::S { .. } | Refusal::C { .. } => self.tell_text(number, text),
        }
    }

    /// Tests whether so many paths may be compared, and counts them where the cause wants that.
    fn may_search(&mut self, cause: u8, paths: u32) -> bool {
        if cause != NO_SUCH_PATH && cause != NOT_PAIRED {
            return false;
        }
        match self.compared.checked_sub(paths) {
            Some(left) => {
                self.compared = left;
                true
            }
            None => false,
        }
    }

    /// Says why the text of a change is refused.
    fn tell_text(&self, number: u64, text: Option<&[u8]>) {
        let _ = eprintln!(self.runtime;
            "session:{number}:1: error: the text of this change is refused, and the program goes on as it is"
        );
        if let Some(text) = text {
            let alloc = self.runtime.alloc();
            self.say(self.explainer.explain(alloc, "change", text, self.main));
        }
    }

    /// Says where a fault ended a scan.
    #[inline(always)]
    fn tell_fault<M: Memory>(&self, exchange: &Exchange<'_>, controller: &Controller<M>) {
        if let Status::Halted(fault) = controller.status().status {
            let text = self.past.text(self.loaded);
            self.say(told_of_fault(self.runtime.alloc(), exchange.number, &fault, text));
        }
    }

    /// Says what a change dropped and brought, and keeps its text.
    #[inline(always)]
    fn tell_change<M: Memory>(
        &mut self,
        exchange: &Exchange<'_>,
        counts: Counts,
        controller: &Controller<M>,
    ) {
        let alloc = self.runtime.alloc();
        let text = kept_text(alloc, exchange.text);
        match told_of_change(alloc, exchange.line, counts, controller) {
            Ok(Changed { done, undone }) => {
                self.say_lists(exchange.number, "the change is done", &done);
                self.past.keep(text, undone);
            }
            Err(_) => self.past.keep(text, String::new(alloc)),
        }
    }

    /// Says what was dropped and brought, where anything was.
    fn say_lists(&self, number: u64, what: &str, lists: &String) {
        if !lists.is_empty() {
            let _ = eprint!(self.runtime; "session:{number}:1: note: {what}\n{lists}");
        }
    }

    /// Keeps what an accepted line makes of the changes that can be undone.
    #[inline(always)]
    fn follow(&mut self, exchange: &Exchange<'_>) {
        if !self.past.is_empty() && exchange.line.len() <= MAX_LINE_BYTES {
            self.follow_line(exchange.number, exchange.line);
        }
    }

    /// Keeps what the accepted line of this number makes of the changes that can be undone.
    #[inline(never)]
    fn follow_line(&mut self, number: u64, line: &[u8])
        requires { length line.now ≤ 4096 }
    {
        match read_request(line) {
            Request::Write(..) | Request::Force(..) | Request::Release(_) => self.past.count(),
            Request::Scan(..) | Request::Reset => self.past.clear(),
            Request::Undo => {
                if let Some(lists) = self.past.undo() {
                    self.say_lists(number, "the change is undone", &lists);
                }
            }
            _ => {}
        }
    }
}

/// The text of a change, to be kept.
fn kept_text(alloc: Global, text: Option<&[u8]>) -> Running {
    match text {
        Some(text) => match Vec::from_slice(alloc, text) {
            Ok(kept) => Running::Changed(kept),
            Err(_) => Running::Unknown,
        },
        None => Running::Unknown,
    }
}

impl<'a, R: Eprint + AllocGlobal, E: Explainer> Observer for Remarks<'a, R, E> {
    ghost hears = { λ before reply now. ⊤ };

    #[inline(always)]
    fn observe<M: Memory>(&mut self, exchange: &Exchange<'_>, controller: &Controller<M>) {
        match exchange.upshot {
            Upshot::Done => self.follow(exchange),
            Upshot::Changed(counts) => self.tell_change(exchange, counts, controller),
            Upshot::Refused(refusal) => self.tell_refusal(exchange, refusal, controller),
            Upshot::Faulted => {
                self.tell_fault(exchange, controller);
                self.past.clear();
            }
        }
    }
}
