//! Values at the places of their leaves, in the bytes of all leaves.
ghost use Rattle.std.specs.Prelude.{◌≡◌, ◌≤◌, ◌<◌, ◌++◌, ◌+◌, ◌-◌, OnOk, drop, length, take};
ghost use Rattle.st_memory.specs.Bytes.{value_bytes};
ghost use Rattle.st_layout.specs.Layout.{IsValueAt, leaf_at, offset_of, total_width};
ghost use Rattle.st_memory.specs.Memory.{value_at};
ghost use Rattle.st_memory.specs.Packed.{IsHeld, decoded, encoded};
ghost use Rattle.st_values.specs.Types.{width_of};

use crate::bytes::{put_value, value_in};
use st_layout::{Layout, Run};
use st_values::{Elem, Value};
use std::alloc::AllocError;

/// The value of a leaf.
pub fn value_at(bytes: &[u8], layout: &Layout, leaf: u32) -> Value
    requires held { IsHeld layout.now bytes.now }
    requires below { leaf < length layout.now }
    ensures { result ≡ value_at (decoded layout.now bytes.now) leaf }
{
    value_of(bytes, layout, leaf, layout.offset(leaf), layout.elem(leaf))
}

/// The value of a leaf, which lies there and is of this type.
#[inline(always)]
pub fn value_of(bytes: &[u8], layout: &Layout, leaf: u32, offset: u32, elem: Elem) -> Value
    requires held { IsHeld layout.now bytes.now }
    requires below { leaf < length layout.now }
    requires offset { offset ≡ offset_of layout.now leaf }
    requires elem { elem ≡ (leaf_at layout.now leaf).elem }
    ensures { result ≡ value_at (decoded layout.now bytes.now) leaf }
{
    let start = offset as usize;
    value_in(elem, &bytes[start..])
}

/// Puts the value of a leaf, which lies there, in the place of the one that is there.
#[inline(always)]
pub fn set_value_of(bytes: &mut [u8], layout: &Layout, leaf: u32, offset: u32, value: Value)
    requires bytes { length bytes.old ≡ total_width layout.now }
    requires below { leaf < length layout.now }
    requires offset { offset ≡ offset_of layout.now leaf }
    requires value { IsValueAt layout.now leaf value }
    ensures { let start = offset_of layout.now leaf in
        bytes.new ≡ take start bytes.old ++ (value_bytes value
        ++ drop (start + width_of value.elem) bytes.old) }
{
    let start = offset as usize;
    put_value(&mut bytes[start..], value);
}

/// Puts the values of leaves that follow one another, up to the last one, after other bytes, as they are.
pub fn push_run(
    to: &mut Vec<u8>,
    bytes: &[u8],
    layout: &Layout,
    first: u32,
    end: u32,
) -> Result<(), AllocError>
    requires held { IsHeld layout.now bytes.now }
    requires order { first ≤ end }
    requires within { end ≤ length layout.now }
    ensures { OnOk result (to.new.items ≡ to.old.items
        ++ encoded (take (end - first) (drop first (decoded layout.now bytes.now)))) }
{
    let span = span_of(layout, first, end);
    let run = &bytes[span.start as usize..span.end as usize];
    to.extend_from_slice(run)
}

/// Puts the values of a run of leaves after other bytes, as they are.
pub fn push_kept(
    to: &mut Vec<u8>,
    bytes: &[u8],
    layout: &Layout,
    run: Run,
) -> Result<(), AllocError>
    requires held { IsHeld layout.now bytes.now }
    requires within { run.to + run.count ≤ length layout.now }
    ensures { OnOk result (to.new.items ≡ to.old.items
        ++ encoded (take run.count (drop run.to (decoded layout.now bytes.now)))) }
{
    let _count = layout.len();
    push_run(to, bytes, layout, run.to, run.to + run.count)
}

/// A part of the bytes.
#[derive(Clone, Copy)]
struct Span {
    start: u32,
    end: u32,
}

/// Where leaves that follow one another lie, up to the last one.
fn span_of(layout: &Layout, first: u32, end: u32) -> Span
    requires order { first ≤ end }
    requires within { end ≤ length layout.now }
    ensures start { result.start ≡ offset_of layout.now first }
    ensures end { result.end ≡ offset_of layout.now end }
    ensures order { result.start ≤ result.end }
    ensures within { result.end ≤ total_width layout.now }
{
    Span {
        start: begin(layout, first),
        end: begin(layout, end),
    }
}

/// Where a leaf begins, or the last one ends.
fn begin(layout: &Layout, leaf: u32) -> u32
    requires { leaf ≤ length layout.now }
    ensures { result ≡ offset_of layout.now leaf }
{
    if leaf < layout.len() {
        layout.offset(leaf)
    } else {
        layout.bytes()
    }
}
