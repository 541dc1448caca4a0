//! Texts in a row.

ghost use Rattle.std.specs.Prelude.{◌≡◌, ◌<◌, ◌≤◌, ◌++◌, ◌∷◌, [], length, get_or, OnOk, OnErr};
ghost use Rattle.std.specs.Cmp.Lexicographic.{pointwise};
ghost use Rattle.std.specs.Str.{IsUtf8, bytes_eq};
ghost use Rattle.gb_table.specs.Pieces.{start_of};

use std::alloc::{AllocError, Global};
use std::marker::Model;

/// Texts in a row: one buffer of bytes, and where each text ends in it.
#[derive(Debug, Drop)]
pub(crate) struct Texts {
    bytes: Vec<u8>,
    ends: Vec<usize>,
}

impl Model for Texts {
    ghost use Rattle.std.specs.Prelude.{List, ℕ};
    ghost use Rattle.std.specs.Coded.{coded_list, coded_ℕ};
    ghost use Rattle.std.specs.Str.{IsUtf8};
    ghost use Rattle.gb_table.specs.Pieces.{pieces_from, ArePieces};

    ghost Value = { List (List ℕ) };

    ghost coded = { coded_list (coded_list coded_ℕ) };

    ghost view = { λ t. pieces_from 0 t.ends.items t.bytes.items };

    ghost invariant = { λ t. ArePieces IsUtf8 t.bytes.items t.ends.items };
}

impl Texts {
    pub(crate) fn new(alloc: Global) -> Texts
        ensures { result ≡ [] }
    {
        Texts {
            bytes: Vec::new(alloc),
            ends: Vec::new(alloc),
        }
    }

    pub(crate) fn len(&self) -> usize
        ensures { result ≡ length self.now }
    {
        self.ends.len()
    }

    #[inline]
    pub(crate) fn get(&self, i: usize) -> &str
        requires { i < length self.now }
        ensures { result.now ≡ get_or self.now i [] }
    {
        unsafe { str::from_utf8_unchecked(self.bytes_at(i)) }
    }

    #[inline]
    fn bytes_at(&self, i: usize) -> &[u8]
        requires { i < length self.now }
        ensures value { result.now ≡ get_or self.now i [] }
        ensures utf8 { IsUtf8 result.now }
    {
        let (start, end) = bounds(&self.ends, i);
        &self.bytes.as_slice()[start..end]
    }

    /// Whether these are the same texts.
    pub(crate) fn equals(&self, other: &Texts) -> bool
        ensures { result ≡ pointwise bytes_eq self.now other.now }
    {
        if self.bytes.as_slice() == other.bytes.as_slice() {
            return self.ends.as_slice() == other.ends.as_slice();
        }
        false
    }

    /// One text more at the end.
    #[inline]
    pub(crate) fn push(&mut self, text: &str) -> Result<(), AllocError>
        ensures ok { OnOk result (self.new ≡ self.old ++ text.now ∷ []) }
        ensures err { OnErr result (self.new ≡ self.old) }
    {
        self.ends.reserve(1)?;
        self.bytes.extend_from_slice(text.as_bytes())?;
        self.ends.push_reserved(self.bytes.len());
        Ok(())
    }
}

// Where the text at a place starts and ends.
#[inline]
fn bounds(ends: &Vec<usize>, i: usize) -> (usize, usize)
    requires { i < length ends.now.items }
    ensures start { result.0 ≡ start_of 0 ends.now.items i }
    ensures end { result.1 ≡ get_or ends.now.items i 0 }
{
    let start = if i == 0 { 0 } else { ends[i - 1] };
    (start, ends[i])
}
