//! A session with an online change and its undo, command by command, and what stands after each.
use st_memory::Memory;
use st_session::control::Controller;
use std::alloc::{AllocError, Global};

/// A change to the program with a variable before the others.
const CHANGE: &[u8] = b"change
PROGRAM Main VAR N : DINT; A : INT := 3; B : BOOL; END_VAR A := A + 1; END_PROGRAM
end_change
";

/// A command, its reply, and what then stands.
struct Stage {
    lines: &'static [u8],
    reply: &'static [u8],
    /// The number of `Main.A`, whether there is a `Main.N`, and how many commands can be undone.
    now: (i128, bool, u32),
}

/// The session. It begins with the load, which has neither lines nor a reply.
const STAGES: &[Stage] = &[
    Stage {
        lines: b"",
        reply: b"",
        now: (3, false, 0),
    },
    Stage {
        lines: b"write Main.A 7\n",
        reply: b"ok\n",
        now: (7, false, 1),
    },
    Stage {
        lines: CHANGE,
        reply: b"ok kept 2 dropped 0 new 1\n",
        now: (7, true, 2),
    },
    Stage {
        lines: b"show Main.A\n",
        reply: b"Main.A = 7\n",
        now: (7, true, 2),
    },
    Stage {
        lines: b"write Main.A 8\n",
        reply: b"ok\n",
        now: (8, true, 3),
    },
    Stage {
        lines: b"undo\n",
        reply: b"ok\n",
        now: (7, true, 2),
    },
    Stage {
        lines: b"show Main.A\n",
        reply: b"Main.A = 7\n",
        now: (7, true, 2),
    },
    Stage {
        lines: b"undo\n",
        reply: b"ok\n",
        now: (7, false, 1),
    },
    Stage {
        lines: b"undo\n",
        reply: b"ok\n",
        now: (3, false, 0),
    },
    Stage {
        lines: b"show Main.A\n",
        reply: b"Main.A = 3\n",
        now: (3, false, 0),
    },
    Stage {
        lines: b"show Main.N\n",
        reply: b"refused O1\n",
        now: (3, false, 0),
    },
];

/// The number of the last stage.
pub const LAST: usize = 10;

/// What goes one way in a session.
#[derive(Clone, Copy)]
pub enum Side {
    /// What is typed.
    Typed,
    /// What is replied.
    Replied,
}

impl Stage {
    /// What goes one way.
    fn text(&self, side: Side) -> &'static [u8] {
        match side {
            Side::Typed => self.lines,
            Side::Replied => self.reply,
        }
    }
}

/// All that goes one way.
pub fn whole(alloc: Global, side: Side) -> Result<Vec<u8>, AllocError> {
    let mut text = Vec::new(alloc);
    for stage in STAGES {
        text.extend_from_slice(stage.text(side))?;
    }
    Ok(text)
}

/// How many bytes go one way up to a stage.
pub fn len_to(side: Side, last: usize) -> usize {
    let mut len: usize = 0;
    for stage in STAGES.iter().take(last.saturating_add(1)) {
        len = len.saturating_add(stage.text(side).len());
    }
    len
}

/// The last stage up to which no more than so many bytes go one way, and how many are left for the next.
pub fn stage_within(side: Side, bytes: usize) -> (usize, usize) {
    let mut rest = bytes;
    let mut last: usize = 0;
    for stage in STAGES.iter().skip(1) {
        let Some(left) = rest.checked_sub(stage.text(side).len()) else {
            return (last, rest);
        };
        rest = left;
        last = last.saturating_add(1);
    }
    (last, rest)
}

/// The stage after a line that was cut to so many bytes and lacks its line feed, and the reply to it.
pub fn stage_cut(stage: usize, bytes: usize) -> (usize, &'static [u8]) {
    let next = stage.saturating_add(1);
    let Some(Stage { lines, reply, .. }) = STAGES.get(next) else {
        return (stage, b"");
    };
    if bytes == 0 {
        (stage, b"")
    } else if bytes.saturating_add(1) == lines.len() {
        (next, *reply)
    } else if bytes > 5 && lines.starts_with(b"show ") {
        (stage, b"refused O1\n")
    } else {
        (stage, b"refused O11\n")
    }
}

/// Whether a controller stands as after a stage.
pub fn stands_at<M: Memory>(controller: &Controller<M>, stage: usize) -> bool {
    let Some(stage) = STAGES.get(stage) else {
        return false;
    };
    let (a, has_n, undo) = stage.now;
    let Ok((value, is_forced)) = controller.get(b"Main.A") else {
        return false;
    };
    value.bits == a
        && !is_forced
        && controller.get(b"Main.N").is_ok() == has_n
        && controller.status().undo == undo
}
