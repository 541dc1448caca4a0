//! What tells texts apart at a look.

ghost use Rattle.std.specs.Prelude.{◌≡◌, ◌↔◌, ◌≤◌, IsTrue, length};
ghost use Rattle.std.specs.Hash.FoldHasher.{folded_multiply};
ghost use Rattle.std.specs.Int.{w16, w32, w64};
ghost use Rattle.gb_table.specs.TextKey.{end_words, hash_of, key_of, key_words, outer_words, text_hash};

use crate::slots::Hashed;
use std::hash::{BuildHasher, BuildHasherDefault, FoldHasher};

/// The length of a text, and a word for each of its ends: its first and its last bytes, which overlap where
/// it is short, the first ones joined with a seed. For a long text its hash stands in for both. Who does not
/// know the seed cannot choose texts whose hashes agree.
#[derive(Clone, Copy, Debug, PartialEq, Eq, Hash, Drop)]
pub struct TextKey {
    len: usize,
    front: u64,
    back: u64,
}

impl Hashed for TextKey {
    ghost use Rattle.gb_table.specs.TextKey.{hash_of};

    ghost hash_of = { hash_of };

    #[inline(always)]
    fn hash(&self) -> u64 {
        self.hash_key()
    }
}

impl TextKey {
    #[inline(always)]
    pub fn new(text: &str, seed: u64) -> TextKey
        ensures { result ≡ key_of seed text.now }
    {
        let (front, back) = key_words(text, seed);
        TextKey {
            len: text.len(),
            front,
            back,
        }
    }

    /// The hash of the key.
    #[inline(always)]
    pub fn hash_key(&self) -> u64
        ensures { result ≡ hash_of self.now }
    {
        // What stands in front of a long text's key is a hash.
        if self.len > 16 {
            return self.front;
        }
        let front = folded_multiply(self.front ^ 0x243f_6a88_85a3_08d3, 0x9e37_79b9_7f4a_7c15);
        folded_multiply(front ^ self.back, 0x9e37_79b9_7f4a_7c15)
    }

    /// Whether no other text has this key.
    #[inline(always)]
    pub(crate) fn is_whole(&self) -> bool
        ensures { IsTrue result ↔ (self.now.len ≤ 16) }
    {
        self.len <= 16
    }

    #[inline(always)]
    pub(crate) fn is(&self, other: TextKey) -> bool
        ensures { IsTrue result ↔ (self.now ≡ other) }
    {
        self.len == other.len && self.front == other.front && self.back == other.back
    }
}

// The words of a text under a seed.
#[inline(always)]
fn key_words(text: &str, seed: u64) -> (u64, u64)
    ensures { result ≡ key_words seed text.now }
{
    if text.len() > 16 {
        return (text_hash(text, seed), 0);
    }
    let (front, back) = end_words(text.as_bytes());
    (front ^ seed, back)
}

// A word for each end of a short text.
#[inline(always)]
fn end_words(bytes: &[u8]) -> (u64, u64)
    ensures { result ≡ end_words bytes.now }
{
    if bytes.len() >= 8 {
        return words_of_eight(bytes);
    }
    if bytes.len() >= 4 {
        return words_of_four(bytes);
    }
    if bytes.len() >= 2 {
        return words_of_two(bytes);
    }
    if bytes.len() == 0 {
        return (0, 0);
    }
    (u64::from(bytes[0]), 0)
}

#[inline(always)]
fn words_of_eight(bytes: &[u8]) -> (u64, u64)
    requires { 8 ≤ length bytes.now }
    ensures { result ≡ outer_words w64 8 bytes.now }
{
    match (bytes.first_chunk::<8>(), bytes.last_chunk::<8>()) {
        (Some(first), Some(last)) => (u64::from_le_bytes(*first), u64::from_le_bytes(*last)),
        _ => unreachable!(),
    }
}

#[inline(always)]
fn words_of_four(bytes: &[u8]) -> (u64, u64)
    requires { 4 ≤ length bytes.now }
    ensures { result ≡ outer_words w32 4 bytes.now }
{
    match (bytes.first_chunk::<4>(), bytes.last_chunk::<4>()) {
        (Some(first), Some(last)) => (
            u64::from(u32::from_le_bytes(*first)),
            u64::from(u32::from_le_bytes(*last)),
        ),
        _ => unreachable!(),
    }
}

#[inline(always)]
fn words_of_two(bytes: &[u8]) -> (u64, u64)
    requires { 2 ≤ length bytes.now }
    ensures { result ≡ outer_words w16 2 bytes.now }
{
    match (bytes.first_chunk::<2>(), bytes.last_chunk::<2>()) {
        (Some(first), Some(last)) => (
            u64::from(u16::from_le_bytes(*first)),
            u64::from(u16::from_le_bytes(*last)),
        ),
        _ => unreachable!(),
    }
}

// The library's hash of a text behind a seed.
fn text_hash(text: &str, seed: u64) -> u64
    ensures { result ≡ text_hash seed text.now }
{
    let hasher: BuildHasherDefault<FoldHasher> = BuildHasherDefault::new();
    hasher.hash_one((seed, text))
}

// Both halves of the product.
#[inline(always)]
fn folded_multiply(a: u64, b: u64) -> u64
    ensures { result ≡ folded_multiply a b }
{
    let product = a as u128 * b as u128;
    (product & 0xffff_ffff_ffff_ffff) as u64 ^ (product >> 64) as u64
}
