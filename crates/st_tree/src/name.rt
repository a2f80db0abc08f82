//! Names, which are copied and take no memory.
ghost use Rattle.std.specs.Prelude.{◌≡◌, ◌≤◌, ◌-◌, ◌↔◌, ◌++◌, IfSome, IsSome, length, replicate};

use std::marker::Model;

/// The most bytes that a name may have.
pub const MAX_NAME_BYTES: usize = 128;

/// A name of at most 128 bytes. It is copied, and takes no memory.
#[derive(Clone, Copy)]
pub struct Name {
    /// The name, and zeros after it.
    bytes: [u8; MAX_NAME_BYTES],
    len: usize,
}

impl Model for Name {
    ghost use Rattle.std.specs.Prelude.{List, ℕ};
    ghost use Rattle.st_tree.specs.Name.{IsName, fields_of, fields_of-bytes_of, bytes_of};

    ghost Value = { List ℕ };

    ghost view = { bytes_of };

    ghost invariant = { IsName };

    ghost inverse = { fields_of };

    ghost inverse_ok = { fields_of-bytes_of };
}

impl Name {
    /// The name of these bytes, or nothing where there are more than 128.
    pub fn of(text: &[u8]) -> Option<Name>
        ensures name { IfSome result (λ name. name ≡ text.now) }
        ensures short { IsSome result ↔ (length text.now ≤ 128) }
    {
        if text.len() > MAX_NAME_BYTES {
            return None;
        }
        Some(Name {
            bytes: padded(text),
            len: text.len(),
        })
    }

    /// The bytes of the name.
    pub fn bytes(&self) -> &[u8]
        ensures bytes { result.now ≡ self.now }
        ensures short { length result.now ≤ 128 }
    {
        &self.bytes[..self.len]
    }
}

/// The bytes, with zeros after them.
fn padded(text: &[u8]) -> [u8; MAX_NAME_BYTES]
    requires { length text.now ≤ 128 }
    ensures { result ≡ text.now ++ replicate (128 - length text.now) 0 }
{
    let mut bytes = [0; MAX_NAME_BYTES];
    for (i, byte) in text.iter().enumerate() {
        bytes[i] = *byte;
    }
    bytes
}
