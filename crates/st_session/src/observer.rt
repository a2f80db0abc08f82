//! Who is told of each command of a session, to explain it to people.
ghost use Rattle.std.specs.Prelude.{ℕ, List, ⊤};
ghost use Rattle.st_session.specs.Upshots.{Tells};

use crate::grade::Grade;
use crate::reply::Upshot;
use st_control::Controller;
use st_memory::Memory;

/// A command that was done, and its reply, which was written.
#[derive(Clone, Copy)]
pub struct Exchange<'a> {
    /// The line of the command, without its end. Of a line that is too long it is the beginning.
    pub line: &'a [u8],
    /// The number of that line, counted from 1. The lines of a change's text count too.
    pub number: u64,
    /// The reply, with its LF.
    pub reply: &'a [u8],
    /// How good the reply is.
    pub grade: Grade,
    /// What the command came to.
    pub upshot: Upshot,
    /// The text of a change, where it was read whole.
    pub text: Option<&'a [u8]>,
}

/// Who is told of each command of a session once its reply is written, before the next line is read. An observer changes
/// nothing but itself, and nothing that it does is seen in the session.
pub trait Observer {
    /// What it is before it is told of a reply, the reply, and what it is afterwards.
    ghost hears: { Self → List ℕ → Self → Type 0 };

    /// Hears of a command; the controller is that after the command.
    fn observe<M: Memory>(&mut self, exchange: &Exchange<'_>, controller: &Controller<M>)
        requires { Tells exchange.now.upshot exchange.now.reply.now }
        ensures { hears self.old exchange.now.reply.now self.new };
}

/// The observer that says nothing.
#[derive(Debug, Drop)]
pub struct Silent;

impl Observer for Silent {
    ghost hears = { λ before reply now. ⊤ };

    fn observe<M: Memory>(&mut self, _exchange: &Exchange<'_>, _controller: &Controller<M>) {}
}
