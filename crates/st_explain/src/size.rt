//! What is said of a program that is too large.

use st_check::{MAX_IMAGE_BYTES, MAX_LEAVES, MAX_PATH_BYTES};
use st_leaves::{MAX_COUNT, Size};
use st_messages::{Draft, Slot, Words};
use st_rule_messages::count_text;
use std::alloc::{AllocError, Global};

/// A limit of a program's size.
struct Limit {
    /// What is wrong: `①` is the name of the program, `②` its size, and `③` the limit.
    title: &'static str,
    /// The most that a program may have.
    most: u64,
    /// What to do.
    help: &'static str,
}

/// The limits of a program's size: of its leaves, of their bytes, and of its longest path.
static LIMITS: [Limit; 3] = [
    Limit {
        title: "① has ② single variables, and a program has at most ③",
        most: MAX_LEAVES,
        help: "make arrays smaller: each element counts",
    },
    Limit {
        title: "the values of ① take ② bytes, and those of a program take at most ③",
        most: MAX_IMAGE_BYTES,
        help: "make arrays smaller, or choose narrower types",
    },
    Limit {
        title: "the longest path of a variable in ① has ② bytes with the name of the program, and a path has at most ③",
        most: MAX_PATH_BYTES,
        help: "shorten names",
    },
];

/// Says which limits a program of this name and size passes, and by how much.
pub fn explain_size(alloc: Global, name: &[u8], size: Size) -> Result<Words, AllocError> {
    let mut draft = Draft::new(alloc);
    let longest = match size.leaves {
        0 => 0,
        _ => size.longest.saturating_add(name.len() as u64),
    };
    let found = [size.leaves, size.bytes, longest];
    say_passed(alloc, &mut draft, name, &found)?;
    say_helps(&mut draft, &found);
    draft.finish()
}

/// Says which limits a program of this name passes, which has so much of what each of them limits.
fn say_passed(
    alloc: Global,
    draft: &mut Draft,
    name: &[u8],
    found: &[u64],
) -> Result<(), AllocError> {
    let mut is_first = true;
    for (limit, count) in LIMITS.iter().zip(found) {
        if *count > limit.most {
            draft.say(if is_first { "" } else { "; " });
            say_limit(alloc, draft, limit, name, *count)?;
            is_first = false;
        }
    }
    Ok(())
}

/// Says what to do about the limits that are passed.
fn say_helps(draft: &mut Draft, found: &[u64]) {
    for (limit, count) in LIMITS.iter().zip(found) {
        if *count > limit.most {
            draft.help(limit.help);
        }
    }
}

/// Says that a program of this name passes a limit, with so much.
fn say_limit(
    alloc: Global,
    draft: &mut Draft,
    limit: &Limit,
    name: &[u8],
    count: u64,
) -> Result<(), AllocError> {
    let found = size_text(alloc, count)?;
    let most = size_text(alloc, limit.most)?;
    let slots = [
        Slot::Name(name),
        Slot::Words(found.as_str()),
        Slot::Words(most.as_str()),
    ];
    draft.fill(limit.title, &slots);
    Ok(())
}

/// A size. It stops at 1,000,000, which stands for more too.
fn size_text(alloc: Global, size: u64) -> Result<String, AllocError> {
    if size >= MAX_COUNT {
        String::from_str(alloc, "1,000,000 or more")
    } else {
        count_text(alloc, size)
    }
}
