//! What a packed memory holds: the fields that are named here and no others.
ghost use Rattle.std.specs.Prelude.{◌≡◌};

use crate::packed::Packed;

/// Takes a packed memory apart. The pattern names all its fields: the bytes of the leaves' values, the bits of the leaves, and what is
/// worked out of the layout and the bits, which says nothing more.
fn packed_apart(packed: &Packed) -> (&[u8], &[u8])
    ensures bytes { result.0.now ≡ packed.now.bytes.items }
    ensures marks { result.1.now ≡ packed.now.marks.items }
{
    let Packed {
        bytes,
        marks,
        rows: _,
        is_forced: _,
    } = packed;
    (bytes.as_slice(), marks.as_slice())
}
