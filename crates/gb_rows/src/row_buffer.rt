//! Rows of bytes in one buffer, each written cell by cell in a room of its own.

ghost use Rattle.std.specs.Prelude.{◌≡◌, ◌==◌, ◌+◌, ◌++◌, ◌∷◌, [], ◌<◌, ◌≤◌, nat_lt, length, map, IfNone, IfOk, IfSome, OnOk};
ghost use Rattle.std.specs.List.{position};
ghost use Rattle.gb_defs.specs.RowBytes.{ended_bytes};
ghost use Rattle.gb_rows.specs.Buffer.{IsAppended, IsSplit, empty_rows, written};
ghost use Rattle.gb_values.specs.Array.{Rises, pieces_from};

use crate::cell_sink::CellSink;
use crate::row_lengths::sum_of;
use std::alloc::{AllocError, Global};
use std::marker::Model;

/// Rows that are being written. Where each ends is settled from the start, and nothing is moved.
#[derive(Drop)]
pub(crate) struct RowBuffer {
    bytes: Vec<u8>,
    // Where the room of each row ends. It begins where that of the row before ends.
    ends: Vec<usize>,
    // Where the next cell of each row goes.
    cursors: Vec<usize>,
    // Which row takes the next cell.
    next: usize,
}

impl Model for RowBuffer {
    ghost use Rattle.std.specs.Prelude.{length};
    ghost use Rattle.gb_rows.specs.Buffer.{AreLaid, RowsWritten, rooms_from, rows_from};

    ghost Value = { RowsWritten };

    ghost view = { λ b. record {
      rows = rows_from 0 b.ends.items b.cursors.items b.bytes.items;
      room = rooms_from 0 b.ends.items;
      next = b.next;
    } };

    ghost invariant = { λ b. AreLaid 0 b.ends.items b.cursors.items (length b.bytes.items) };
}

impl RowBuffer {
    /// Rows of no bytes, with room for so many each. More bytes than a `usize` counts are more than memory
    /// holds.
    pub(crate) fn new(alloc: Global, lengths: &[usize]) -> Result<RowBuffer, AllocError>
        ensures { IfOk result (λ rows. rows ≡ empty_rows lengths.now) }
    {
        let mut ends = Vec::with_capacity(alloc, lengths.len())?;
        let mut cursors = Vec::with_capacity(alloc, lengths.len())?;
        let mut end = 0;
        for count in lengths {
            cursors.push(end)?;
            end = sum_of(end, *count)?;
            ends.push(end)?;
        }
        Ok(RowBuffer {
            bytes: vec![in alloc; 0; end]?,
            ends,
            cursors,
            next: 0,
        })
    }

    /// The rows one after another, and where each ends.
    pub(crate) fn into_parts(self) -> (Vec<u8>, Vec<usize>)
        requires { map length self.rows ≡ self.room }
        ensures pieces { pieces_from 0 result.1.items result.0.items ≡ self.rows }
        ensures rises { Rises 0 result.1.items (length result.0.items) }
    {
        (self.bytes, self.ends)
    }

    /// The next cell is that of the first row.
    pub(crate) fn rewind(&mut self)
        ensures { self.new ≡ record self.old { next = 0 } }
    {
        self.next = 0;
    }

    // Whether some row takes the next cell.
    #[inline]
    fn has_next(&self) -> bool
        ensures { result ≡ nat_lt self.now.next (length self.now.rows) }
    {
        self.next < self.ends.len()
    }

    // The next cell is that of the row behind.
    #[inline]
    fn advance(&mut self)
        requires { self.old.next < length self.old.rows }
        ensures { self.new ≡ record self.old { next = self.old.next + 1 } }
    {
        // The number of rows is small.
        let _ = self.ends.len();
        self.next += 1;
    }

    // The bytes of a text behind what is written of the next row, with their end.
    fn append_ended(&mut self, value: &[u8]) -> Result<(), AllocError>
        requires { self.old.next < length self.old.rows }
        ensures { OnOk result (IsAppended (ended_bytes value.now) self.old self.new) }
    {
        let mut rest = value;
        while let Some((front, back)) = split_at_zero(rest) {
            self.append_both(front, &[0, 255])?;
            rest = back;
        }
        self.append_both(rest, &[0, 0])?;
        Ok(())
    }

    // Bytes and others behind what is written of the next row.
    #[inline]
    fn append_both(&mut self, part: &[u8], more: &[u8]) -> Result<(), AllocError>
        requires { self.old.next < length self.old.rows }
        ensures { OnOk result (IsAppended (part.now ++ more.now) self.old self.new) }
    {
        self.append(part)?;
        self.append(more)?;
        Ok(())
    }

    // More bytes behind what is written of the next row.
    #[inline]
    fn append(&mut self, part: &[u8]) -> Result<(), AllocError>
        requires { self.old.next < length self.old.rows }
        ensures { OnOk result (IsAppended part.now self.old self.new) }
    {
        let at = self.cursors[self.next];
        if self.ends[self.next] - at < part.len() {
            return Err(AllocError);
        }
        write_at(&mut self.bytes, at, part);
        self.cursors[self.next] = at + part.len();
        Ok(())
    }
}

impl CellSink for RowBuffer {
    ghost use Rattle.gb_rows.specs.Buffer.{HasTakenCells, cells_none, cells_more};

    ghost HasTaken = { HasTakenCells };

    ghost took_none = { cells_none };

    ghost took_more = { cells_more };

    #[inline]
    fn put(&mut self, cell: &[u8]) -> Result<(), AllocError> {
        if !self.has_next() {
            return Ok(());
        }
        self.append(cell)?;
        self.advance();
        Ok(())
    }

    #[inline]
    fn put_bytes(&mut self, value: &[u8]) -> Result<(), AllocError> {
        if !self.has_next() {
            return Ok(());
        }
        self.append(&[1])?;
        self.append_ended(value)?;
        self.advance();
        Ok(())
    }
}

// The bytes before the first zero, and those behind it.
#[inline]
fn split_at_zero(bytes: &[u8]) -> Option<(&[u8], &[u8])>
    ensures none { IfNone result (ended_bytes bytes.now ≡ bytes.now ++ 0 ∷ 0 ∷ []) }
    ensures some { IfSome result (λ parts. IsSplit bytes.now parts.0.now parts.1.now) }
{
    match zero_in(bytes) {
        Some(place) => Some((&bytes[..place], &bytes[place + 1..])),
        None => None,
    }
}

// The first place of a zero.
#[inline]
#[tactic(auto, using(crate::proofs::ZeroLemmas::zero_inside))]
fn zero_in(bytes: &[u8]) -> Option<usize>
    ensures first { result ≡ position (λ byte. byte == 0) bytes.now }
    ensures inside { IfSome result (λ place. place < length bytes.now) }
{
    bytes.iter().position(|byte| *byte == 0)
}

// Writes a part over what stands from a place on.
#[inline]
fn write_at(bytes: &mut [u8], at: usize, part: &[u8])
    requires { at + length part.now ≤ length bytes.old }
    ensures { bytes.new ≡ written at part.now bytes.old }
{
    bytes[at..at + part.len()].copy_from_slice(part);
}
