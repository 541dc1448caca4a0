//! The rows of a list of keys, and of texts or other bytes in chunks.

ghost use Rattle.std.specs.Prelude.{◌≡◌, ◌++◌, ◌<◌, ◌≤◌, [], length, map, pos, nat_eq, get_or, All, IsTrue, OnOk};
ghost use Rattle.std.specs.Bool.{Decides};
ghost use Rattle.std.specs.Int.{Width, w64, w128};
ghost use Rattle.gb_defs.specs.Slot.{Bytes, Slot};
ghost use Rattle.gb_defs.specs.Hash.{hash_of};
ghost use Rattle.gb_defs.specs.Rows.{rows_of_slots};
ghost use Rattle.gb_values.specs.Array.{start_of};
ghost use Rattle.gb_values.specs.Keys.{bytes_slot, key_slot};
ghost use Rattle.gb_numbers.specs.Native.{Decides-pos};
ghost use Rattle.std.specs.List.Sorted.{IsNonDecreasingBy};
ghost use Rattle.gb_hash.specs.Chunks.{HasEndBehind, IsChunkAt};
ghost use Rattle.gb_hash.specs.Short.{IsShort};
ghost use Rattle.gb_hash.specs.Keys.{bytes_decide, numbers_decide, plain_bytes_decide, slots_alike};

use crate::dirty_hash::{Mixer, hash_of_halves, with_word};
use crate::key_rows::{KeyRows, Steps};
use crate::row_mixer::RowMixer;
use gb_values::bytes::{ByteKind, ByteValues};
use gb_values::nullable::Values;
use gb_values::utf8::Text;
use std::alloc::{AllocError, Global};
use std::hash::Hash;
use std::marker::Model;
use std::sync::ledger::Ledger;

/// A key that stands for a slot, and hashes as the slot does.
pub trait RowKey: Copy + Eq + Hash {
    // The slot that a key stands for.
    ghost slot: { Self → Slot };

    // The width of the numbers.
    ghost width: { Width };

    fn hash_key<M: Mixer>(&self, mixer: &RowMixer<M>) -> u64
        ensures { result ≡ hash_of width (M.seed_of mixer.now) (M.mix_of mixer.now)
            (slot self.now) };

    // Keys are equal where they stand for one slot.
    ghost decide: { (a b : Self) → Decides (Self.eq a b) (slot a ≡ slot b) };
}

impl RowKey for Option<u64> {
    ghost slot = { key_slot };

    ghost width = { w64 };

    ghost decide = { numbers_decide nat_eq (λ n. pos n) Decides-pos };

    #[inline]
    fn hash_key<M: Mixer>(&self, mixer: &RowMixer<M>) -> u64 {
        match *self {
            None => mixer.hash_null(),
            Some(word) => with_word(mixer.mixer(), mixer.mixer().seed(), word),
        }
    }
}

impl RowKey for Option<u128> {
    ghost slot = { key_slot };

    ghost width = { w128 };

    ghost decide = { numbers_decide nat_eq (λ n. pos n) Decides-pos };

    #[inline]
    fn hash_key<M: Mixer>(&self, mixer: &RowMixer<M>) -> u64 {
        match *self {
            None => mixer.hash_null(),
            Some(bits) => hash_of_halves(mixer.mixer(), bits),
        }
    }
}

impl<'a> RowKey for Option<&'a [u8]> {
    ghost slot = { bytes_slot };

    ghost width = { w64 };

    ghost decide = { bytes_decide };

    #[inline]
    fn hash_key<M: Mixer>(&self, mixer: &RowMixer<M>) -> u64 {
        match *self {
            None => mixer.hash_null(),
            Some(bytes) => mixer.hash_text(bytes),
        }
    }
}

/// The rows of a list of keys, one a row.
#[derive(Drop)]
pub struct ListRows<'a, K: RowKey, M: Mixer> {
    pub keys: &'a [K],
    pub mixer: RowMixer<M>,
}

impl<'a, K: RowKey, M: Mixer> ListRows<'a, K, M> {
    pub fn new(keys: &'a [K], mixer: M) -> Self
        ensures keys { result.keys.now ≡ keys.now }
        ensures mixer { result.mixer ≡ mixer }
    {
        let mixer = RowMixer::new(mixer);
        ListRows { keys, mixer }
    }
}

impl<'a, K: RowKey + Send + Sync, M: Mixer + Sync> KeyRows for ListRows<'a, K, M> {
    type Key = K;

    ghost rows = { λ r. rows_of_slots K.width (M.seed_of r.mixer) (M.mix_of r.mixer) (map K.slot r.keys.now) };

    ghost key_slot = { K.slot };

    ghost keys_decide = { K.decide };

    ghost hashes_alike = { λ r. slots_alike K.width (M.seed_of r.mixer) (M.mix_of r.mixer) (map K.slot r.keys.now) };

    fn len(&self) -> usize {
        self.keys.len()
    }

    fn key_at<L: Ledger>(&self, i: usize, steps: &mut Steps<L>) -> K {
        steps.tick();
        self.keys[i]
    }

    fn hash_at(&self, i: usize) -> u64 {
        self.keys[i].hash_key(&self.mixer)
    }
}

/// Texts or other bytes in chunks, none of them null, each by its place among all.
#[derive(Drop)]
pub struct ByteChunks<'a, K: ByteKind> {
    chunks: Vec<&'a ByteValues<K>>,
    // Behind how many values each chunk ends.
    ends: Vec<usize>,
    // Of each so many values, the chunk of the first.
    pages: Vec<usize>,
}

impl<'a, K: ByteKind> Model for ByteChunks<'a, K> {
    ghost use Rattle.std.specs.Prelude.{List, ℕ};
    ghost use Rattle.gb_hash.specs.Chunks.{AreEnds, texts_in};

    ghost Value = { List (List ℕ) };

    ghost view = { λ texts. texts_in texts.chunks.items };

    ghost invariant = { λ texts. AreEnds texts.chunks.items texts.ends.items };
}

impl<'a, K: ByteKind> ByteChunks<'a, K> {
    /// No values.
    pub fn new(alloc: Global) -> ByteChunks<'a, K>
        ensures { result ≡ [] }
    {
        ByteChunks {
            chunks: Vec::new(alloc),
            ends: Vec::new(alloc),
            pages: Vec::new(alloc),
        }
    }

    /// A chunk more behind the others. More values than a `usize` counts are more than memory holds.
    pub fn push(&mut self, chunk: &'a ByteValues<K>) -> Result<(), AllocError>
        ensures { OnOk result (self.new ≡ self.old ++ chunk.now) }
    {
        let end = self.len().checked_add(chunk.len()).ok_or(AllocError)?;
        put_pages(&mut self.pages, self.chunks.len(), end)?;
        self.chunks.reserve(1)?;
        self.ends.push(end)?;
        self.chunks.push_reserved(chunk);
        Ok(())
    }

    pub fn len(&self) -> usize
        ensures { result ≡ length self.now }
    {
        match self.ends.last() {
            Some(end) => *end,
            None => 0,
        }
    }

    /// The value at a place. Its chunk is mostly that of a value not far before it, and else is found by a
    /// binary search.
    #[inline]
    pub fn get(&self, i: usize) -> &'a [u8]
        requires { i < length self.now }
        ensures { result.now ≡ get_or self.now i [] }
    {
        let at = chunk_at(&self.ends, &self.pages, i);
        self.chunks[at].bytes_at(i - chunk_start(&self.ends, at))
    }
}

impl<'a> ByteChunks<'a, Text> {
    /// Whether no text is longer than 16 bytes.
    pub(crate) fn are_short(&self) -> bool
        ensures { IsTrue result → All IsShort self.now }
    {
        for chunk in &self.chunks {
            if !is_short_chunk(chunk) {
                return false;
            }
        }
        true
    }

    /// The text at a place.
    #[inline(always)]
    pub fn text(&self, i: usize) -> &'a str
        requires { i < length self.now }
        ensures { result.now ≡ get_or self.now i [] }
    {
        let at = chunk_at(&self.ends, &self.pages, i);
        self.chunks[at].get(i - chunk_start(&self.ends, at))
    }
}

// Whether no text of a chunk is longer than 16 bytes.
fn is_short_chunk(chunk: &ByteValues<Text>) -> bool
    ensures { IsTrue result → All IsShort chunk.now }
{
    for i in 0..chunk.len() {
        if chunk.get(i).len() > 16 {
            return false;
        }
    }
    true
}

// How many values a page has.
const PAGE: usize = 4096;

// Notes a chunk for each page that begins before a place and is not noted yet.
fn put_pages(pages: &mut Vec<usize>, chunk: usize, end: usize) -> Result<(), AllocError> {
    for _ in pages.len()..end.div_ceil(PAGE) {
        pages.push(chunk)?;
    }
    Ok(())
}

// The chunk that a value stands in. The one that its page notes is looked at first.
#[inline(always)]
fn chunk_at(ends: &[usize], pages: &[usize], i: usize) -> usize
    requires rising { IsNonDecreasingBy (λ end. end) ends.now }
    requires inside { HasEndBehind ends.now i }
    ensures { IsChunkAt ends.now i result }
{
    let noted = match pages.get(i / PAGE) {
        Some(chunk) => *chunk,
        None => 0,
    };
    if noted < ends.len() && chunk_start(ends, noted) <= i && i < ends[noted] {
        return noted;
    }
    ends.partition_point(|end| *end <= i)
}

// Behind how many values the chunk at a place starts.
#[inline(always)]
fn chunk_start(ends: &[usize], at: usize) -> usize
    requires { at ≤ length ends.now }
    ensures { result ≡ start_of 0 ends.now at }
{
    if at == 0 { 0 } else { ends[at - 1] }
}

/// The rows of texts or other bytes in chunks, none of them null, which are the keys.
#[derive(Drop)]
pub struct ChunkRows<'r, 'a, K: ByteKind, M: Mixer> {
    pub chunks: &'r ByteChunks<'a, K>,
    pub mixer: RowMixer<M>,
}

impl<'r, 'a, K: ByteKind, M: Mixer> ChunkRows<'r, 'a, K, M> {
    pub fn new(chunks: &'r ByteChunks<'a, K>, mixer: M) -> Self
        ensures chunks { result.chunks.now ≡ chunks.now }
        ensures mixer { result.mixer ≡ mixer }
    {
        let mixer = RowMixer::new(mixer);
        ChunkRows { chunks, mixer }
    }
}

impl<'r, 'a, K: ByteKind + Sync, M: Mixer + Sync> KeyRows for ChunkRows<'r, 'a, K, M> {
    type Key = &'a [u8];

    ghost rows = { λ r. rows_of_slots w64 (M.seed_of r.mixer) (M.mix_of r.mixer) (map (λ t. Bytes t) r.chunks.now) };

    ghost key_slot = { λ key. Bytes key.now };

    ghost keys_decide = { plain_bytes_decide };

    ghost hashes_alike = { λ r. slots_alike w64 (M.seed_of r.mixer) (M.mix_of r.mixer) (map (λ t. Bytes t) r.chunks.now) };

    fn len(&self) -> usize {
        self.chunks.len()
    }

    fn key_at<L: Ledger>(&self, i: usize, steps: &mut Steps<L>) -> &'a [u8] {
        steps.tick();
        self.chunks.get(i)
    }

    fn hash_at(&self, i: usize) -> u64 {
        self.mixer.hash_text(self.chunks.get(i))
    }
}
