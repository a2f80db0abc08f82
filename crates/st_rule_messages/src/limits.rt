//! What is said of limits that are passed.

use crate::cause::Cause;
use crate::rows::tell;
use st_messages::{Draft, Lexed, Slot};
use st_tree::MAX_NAME_BYTES;
use std::alloc::{AllocError, Global};

/// Says which limit is passed at the name of the unit of this number.
pub fn explain_limit(
    alloc: Global,
    draft: &mut Draft,
    lexed: Lexed<'_>,
    number: usize,
    at: u32,
) -> Result<(), AllocError> {
    let len = lexed.spelling(at).len();
    if len > MAX_NAME_BYTES {
        let slots = [
            Slot::Number(len as u64),
            Slot::Number(MAX_NAME_BYTES as u64),
        ];
        tell(draft, Cause::LongName, &slots);
    } else {
        let count = count_text(alloc, (number as u64).saturating_add(1))?;
        tell(draft, Cause::ManyUnits, &[Slot::Words(count.as_str())]);
    }
    Ok(())
}

/// A count, its thousands apart.
pub fn count_text(alloc: Global, count: u64) -> Result<String, AllocError> {
    let thousands = count / 1000;
    let rest = count % 1000;
    if count >= 1000 {
        format!(in alloc; "{thousands},{rest:03}")
    } else {
        format!(in alloc; "{rest}")
    }
}
