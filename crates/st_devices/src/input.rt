//! The lines of a source, taken one by one.
//!
//! A line ends at an LF, and a CR right before it is dropped. The last line may lack its LF. A line of more than 4,096
//! bytes before its LF is passed over.
ghost use Rattle.std.specs.Prelude.{◌≡◌, ◌≤◌, ◌<◌, ◌+◌, ◌++◌, nat_lt, take, true, false, Some, None, IfOk, OnErr, OnOk, OnSome, is_err, not, [], length, vec_len, vec_capacity};
ghost use Rattle.std.specs.Io.KnownBytes.{Keeps, IsAtEnd};
ghost use Rattle.std.specs.Str.Lines.{strip_carriage_return};
ghost use Rattle.std.specs.List.{position_or_len, prefix_len};
ghost use Rattle.std.specs.Simd.Lanes.{chunk};
ghost use Rattle.st_devices.specs.Lines.{is_lf};
ghost use Rattle.st_devices.specs.Pending.{IsFound, OnReading, TakesByte, TakesFound, TakesPart, TakesPiece};

use crate::devices::{DeviceFault, Source};
use std::alloc::{AllocError, Global};
use std::simd::prelude::*;

/// The most bytes of a line before its LF, and of a piece that is read.
pub const MAX_LINE_BYTES: usize = 4096;

/// How many bytes are searched at once for an LF.
const LANES: usize = 16;

/// What was found next in the input.
pub enum Found {
    /// No more bytes.
    End,
    /// A line, which was taken.
    Line,
    /// A line that is too long, which was passed over.
    TooLong,
}

/// What was taken of a line at once.
#[derive(Clone, Copy)]
struct Piece {
    /// The LF stood behind it, and was taken too.
    is_ended: bool,
    /// The line has no room for all of it.
    is_cut: bool,
}

/// What was read of a source and is not taken yet.
#[derive(Drop)]
pub struct Input {
    buffer: Vec<u8>,
    at: usize,
    end: usize,
    /// The source has answered that it has no more, and is not read again.
    at_end: bool,
    /// How many LFs were taken.
    lines: u64,
    ghost size: { vec_len buffer ≡ 4096 },
    ghost ordered: { at ≤ end },
    ghost within: { end ≤ 4096 },
}

impl Input {
    ghost use Rattle.st_devices.specs.Inputs.{has_ended, left, lines_after, lines_of, pending, unread};

    /// An input of which nothing is read yet.
    pub fn new(alloc: Global) -> Result<Self, AllocError>
        ensures empty { IfOk result (λ input. unread input ≡ []) }
        ensures not_ended { IfOk result (λ input. has_ended input ≡ false) }
        ensures lines { IfOk result (λ input. lines_of input ≡ 0) }
    {
        Ok(Input {
            buffer: vec![in alloc; 0; MAX_LINE_BYTES]?,
            at: 0,
            end: 0,
            at_end: false,
            lines: 0,
        })
    }

    /// How many lines were ended by an LF so far, those of a change's text too, modulo 2^64. The next line has the number
    /// after that.
    pub fn lines(&self) -> u64
        ensures { result ≡ lines_of self.now }
    {
        self.lines
    }

    /// Reads a piece if none is unread.
    #[inline(always)]
    fn fill<R: Source>(&mut self, source: &mut R) -> Result<(), DeviceFault>
        requires { R.has_failed source.old ≡ false }
        ensures bytes { OnOk result (Keeps (pending self.old (R.rest source.old))
            (pending self.new (R.rest source.new))) }
        ensures end { OnOk result (self.new.at ≡ self.new.end
            → IsAtEnd (pending self.new (R.rest source.new))) }
        ensures at_end { OnOk result (self.new.at ≡ self.new.end → has_ended self.new ≡ true) }
        ensures lines { OnOk result (lines_of self.new ≡ lines_of self.old) }
        ensures err { OnErr result (Keeps (R.rest source.old) (R.rest source.new)) }
        ensures empty { OnErr result ((unread self.old ≡ []) × (has_ended self.old ≡ false)) }
        ensures progress { OnOk result (left self.new (R.reads_left source.new)
            ≤ left self.old (R.reads_left source.old)) }
        ensures ended { has_ended self.old ≡ true → has_ended self.new ≡ true }
        ensures failed { R.has_failed source.new ≡ is_err result }
    {
        if self.at < self.end || self.at_end {
            return Ok(());
        }
        let end = source.read_some(self.buffer.as_mut_slice())?;
        self.at = 0;
        self.end = end;
        self.at_end = end == 0;
        Ok(())
    }

    /// Takes the next byte, and counts it where it is an LF.
    pub fn next_byte<R: Source>(&mut self, source: &mut R) -> Result<Option<u8>, DeviceFault>
        requires { R.has_failed source.old ≡ false }
        ensures bytes { IfOk result (λ byte. OnReading (pending self.old (R.rest source.old))
            (pending self.new (R.rest source.new)) (TakesByte byte)) }
        ensures at_end { IfOk result (λ byte. byte ≡ None → has_ended self.new ≡ true) }
        ensures lines { IfOk result
            (λ byte. lines_of self.new ≡ lines_after (lines_of self.old) byte) }
        ensures err { OnErr result (Keeps (R.rest source.old) (R.rest source.new)) }
        ensures empty { OnErr result ((unread self.old ≡ []) × (has_ended self.old ≡ false)) }
        ensures steady { OnOk result (left self.new (R.reads_left source.new)
            ≤ left self.old (R.reads_left source.old)) }
        ensures progress { IfOk result (λ byte. OnSome byte (left self.new (R.reads_left source.new)
            < left self.old (R.reads_left source.old))) }
        ensures ended { has_ended self.old ≡ true → has_ended self.new ≡ true }
        ensures failed { R.has_failed source.new ≡ is_err result }
    {
        self.fill(source)?;
        if self.at == self.end {
            return Ok(None);
        }
        let byte = self.buffer[self.at];
        self.at += 1;
        self.lines = self.lines.wrapping_add(u64::from(byte == b'\n'));
        Ok(Some(byte))
    }

    /// Takes what was read of a line, and its LF where that was read, and puts it behind `line` as far as there is room. Answers
    /// nothing at the end.
    fn take_piece<R: Source>(
        &mut self,
        source: &mut R,
        line: &mut Vec<u8>,
    ) -> Result<Option<Piece>, DeviceFault>
        requires works { R.has_failed source.old ≡ false }
        requires capacity { 4096 ≤ vec_capacity line.old }
        requires short { length line.old.items ≤ 4096 }
        ensures bytes { IfOk result (λ piece. OnReading (pending self.old (R.rest source.old))
            (pending self.new (R.rest source.new)) (TakesPiece piece line.old.items line.new.items)) }
        ensures at_end { IfOk result (λ piece. piece ≡ None → has_ended self.new ≡ true) }
        ensures err { OnErr result (Keeps (R.rest source.old) (R.rest source.new)) }
        ensures empty { OnErr result ((unread self.old ≡ []) × (has_ended self.old ≡ false)) }
        ensures progress { IfOk result (λ piece. OnSome piece (left self.new (R.reads_left source.new)
            < left self.old (R.reads_left source.old))) }
        ensures steady { OnOk result (left self.new (R.reads_left source.new)
            ≤ left self.old (R.reads_left source.old)) }
        ensures capacity { 4096 ≤ vec_capacity line.new }
        ensures short { length line.new.items ≤ 4096 }
        ensures ended { has_ended self.old ≡ true → has_ended self.new ≡ true }
        ensures failed { R.has_failed source.new ≡ is_err result }
    {
        self.fill(source)?;
        if self.at == self.end {
            return Ok(None);
        }
        let stop = self.at + bytes_before_lf(&self.buffer[self.at..self.end]);
        let is_cut = keep(line, &self.buffer[self.at..stop]);
        let is_ended = stop < self.end;
        self.at = stop + usize::from(is_ended);
        self.lines = self.lines.wrapping_add(u64::from(is_ended));
        Ok(Some(Piece { is_ended, is_cut }))
    }

    /// Takes the next line into `line`, or passes over it where it is too long.
    ///
    /// Where the source fails, only a part of a line without an LF was read since the last line, and it is lost.
    pub fn next_line<R: Source>(
        &mut self,
        source: &mut R,
        line: &mut Vec<u8>,
    ) -> Result<Found, DeviceFault>
        requires works { R.has_failed source.old ≡ false }
        requires capacity { 4096 ≤ vec_capacity line.old }
        ensures line { IfOk result (λ found. OnReading (pending self.old (R.rest source.old))
            (pending self.new (R.rest source.new)) (TakesFound found (has_ended self.new) line.new.items)) }
        ensures err { OnErr result (OnReading (pending self.old (R.rest source.old))
            (R.rest source.new) TakesPart) }
        ensures not_ended { OnErr result (has_ended self.old ≡ false) }
        ensures progress { IfOk result (λ found. IsFound found → left self.new (R.reads_left source.new)
            < left self.old (R.reads_left source.old)) }
        ensures capacity { 4096 ≤ vec_capacity line.new }
        ensures short { OnOk result (length line.new.items ≤ 4096) }
        ensures ended { has_ended self.old ≡ true → has_ended self.new ≡ true }
        ensures failed { R.has_failed source.new ≡ is_err result }
    {
        line.clear();
        let mut is_empty = true;
        let mut is_long = false;
        while let Some(piece) = self.take_piece(source, line)? {
            is_long |= piece.is_cut;
            if piece.is_ended {
                return Ok(ended(line, is_long));
            }
            is_empty = false;
        }
        Ok(if is_empty {
            Found::End
        } else if is_long {
            Found::TooLong
        } else {
            Found::Line
        })
    }
}

/// How many bytes stand before the first LF.
fn bytes_before_lf(bytes: &[u8]) -> usize
    ensures value { result ≡ position_or_len is_lf bytes.now }
    ensures within { result ≤ length bytes.now }
{
    let mut at = 0;
    while LANES <= bytes.len() - at {
        let count = lanes_before_lf(bytes, at);
        if count < LANES {
            return at + count;
        }
        at += LANES;
    }
    at + few_before_lf(&bytes[at..])
}

/// How many of the lanes that begin at a place stand before the first LF.
fn lanes_before_lf(bytes: &[u8], at: usize) -> usize
    requires { at + 16 ≤ length bytes.now }
    ensures { result ≡ prefix_len (λ byte. not (is_lf byte)) (chunk at 16 bytes.now) }
{
    let ends = u8x16::from_slice(&bytes[at..])
        .simd_eq(u8x16::splat(b'\n'))
        .to_bitmask();
    if ends == 0 {
        LANES
    } else {
        ends.trailing_zeros() as usize
    }
}

/// How many bytes stand before the first LF, where they fill no lanes.
fn few_before_lf(bytes: &[u8]) -> usize
    ensures value { result ≡ position_or_len is_lf bytes.now }
    ensures within { result ≤ length bytes.now }
{
    bytes.iter().take_while(|byte| **byte != b'\n').count()
}

/// Puts bytes behind a line as far as there is room. Answers whether there wasn't room for all.
fn keep(line: &mut Vec<u8>, bytes: &[u8]) -> bool
    requires capacity { 4096 ≤ vec_capacity line.old }
    requires short { length line.old.items ≤ 4096 }
    ensures line { line.new.items ≡ take 4096 (line.old.items ++ bytes.now) }
    ensures cut { result ≡ nat_lt 4096 (length line.old.items + length bytes.now) }
    ensures short { length line.new.items ≤ 4096 }
    ensures capacity { 4096 ≤ vec_capacity line.new }
{
    let count = bytes.len().min(MAX_LINE_BYTES - line.len());
    let _ = line.extend_from_slice(&bytes[..count]);
    count < bytes.len()
}

/// The line that ends here, without one CR at its end.
fn ended(line: &mut Vec<u8>, is_long: bool) -> Found
    ensures long { is_long ≡ true → result ≡ Found.TooLong }
    ensures text { is_long ≡ false
        → (result ≡ Found.Line) × (line.new.items ≡ strip_carriage_return line.old.items) }
    ensures capacity { vec_capacity line.old ≤ vec_capacity line.new }
    ensures short { length line.new.items ≤ length line.old.items }
{
    if is_long {
        return Found::TooLong;
    }
    if line.last() == Some(&b'\r') {
        line.pop();
    }
    Found::Line
}
