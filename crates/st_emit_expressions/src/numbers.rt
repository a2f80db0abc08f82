//! Numbers as instructions have them.
ghost use Rattle.std.specs.Prelude.{◌≡◌, ◌≤◌, ◌^◌, IfErr, IfOk};

use std::alloc::AllocError;

/// A number as an instruction has it. One that needs more than 32 bits is refused as what no memory is left for.
pub fn narrow(number: usize) -> Result<u32, AllocError>
    ensures ok { IfOk result (λ narrowed. narrowed ≡ number) }
    ensures only { IfErr result (λ _. 2 ^ 32 ≤ number) }
{
    if number <= u32::MAX as usize {
        Ok(number as u32)
    } else {
        Err(AllocError)
    }
}
