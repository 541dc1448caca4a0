//! The hashes of words, of numbers by their bits, of bytes eight at a time, and of a null, and what makes
//! them depend on a seed.

ghost use Rattle.std.specs.Prelude.{◌≡◌, ℕ, ◌<◌, length, slice_index};
ghost use Rattle.std.specs.Int.{w64, from_le_bytes};
ghost use Rattle.std.specs.List.{fold};
ghost use Rattle.gb_defs.specs.Hash.{fold_word, hash_bytes, hash_halves, hash_number, null_hash, seed_mix, words_of};

use gb_numbers::numeric::Native;
use std::marker::Model;

/// A seed and a mixing function.
// No Send or Sync here: an impl that calls a function with that bound would get no proof.
pub trait Mixer: Copy {
    // The seed.
    ghost seed_of: { Self → ℕ };

    // What a word is mixed to.
    ghost mix_of: { Self → ℕ → ℕ };

    fn seed(&self) -> u64
        ensures { result ≡ seed_of self.now };

    fn mix(&self, x: u64) -> u64
        ensures { result ≡ mix_of self.now x };
}

/// The mixing function that needs no seed of its own, with a seed for the words.
#[derive(Clone, Copy)]
pub struct SeedMixer {
    seed: u64,
}

pub type PlSeedableRandomStateQuality = SeedMixer;

impl Model for SeedMixer {
    ghost Value = { ℕ };

    ghost view = { λ mixer. mixer.seed };

    ghost inverse = { λ seed. record { seed = seed } };
}

impl SeedMixer {
    pub fn new(seed: u64) -> SeedMixer
        ensures { result ≡ seed }
    {
        SeedMixer { seed }
    }
}

impl Mixer for SeedMixer {
    ghost seed_of = { λ mixer. mixer };

    ghost mix_of = { λ mixer. seed_mix };

    #[inline]
    fn seed(&self) -> u64 {
        self.seed
    }

    #[inline]
    #[tactic(auto, unfolding(gb_defs::specs::Hash::seed_mix))]
    fn mix(&self, x: u64) -> u64 {
        let y = (x ^ (x >> 30)).wrapping_mul(0xbf58_476d_1ce4_e5b9);
        let z = (y ^ (y >> 27)).wrapping_mul(0x94d0_49bb_1331_11eb);
        z ^ (z >> 31)
    }
}

// The hash so far, with one more word.
#[inline]
pub(crate) fn with_word<M: Mixer>(mixer: &M, hash: u64, word: u64) -> u64
    ensures { result ≡ fold_word (M.mix_of mixer.now) hash word }
{
    mixer.mix(hash ^ mixer.mix(word))
}

// The hash of 128 bits.
#[inline]
pub(crate) fn hash_of_halves<M: Mixer>(mixer: &M, bits: u128) -> u64
    ensures { result ≡ hash_halves (M.seed_of mixer.now) (M.mix_of mixer.now) bits }
{
    let low = (bits % (1 << 64)) as u64;
    let high = (bits >> 64) as u64;
    with_word(mixer, with_word(mixer, mixer.seed(), low), high)
}

/// The hash of a null.
#[inline]
#[tactic(auto, unfolding(gb_defs::specs::Hash::null_hash))]
pub fn hash_null<M: Mixer>(mixer: &M) -> u64
    ensures { result ≡ null_hash (M.seed_of mixer.now) (M.mix_of mixer.now) }
{
    let once = with_word(mixer, mixer.seed(), 3_188_347_919);
    with_word(mixer, mixer.seed(), once)
}

/// A number that has a hash under any mixer.
pub trait DirtyHash: Native {
    fn dirty_hash<M: Mixer>(&self, mixer: &M) -> u64
        ensures { result ≡ hash_number Self.width (M.seed_of mixer.now) (M.mix_of mixer.now)
            (Self.number self.now) };
}

impl<N: Native> DirtyHash for N {
    #[inline]
    fn dirty_hash<M: Mixer>(&self, mixer: &M) -> u64 {
        if N::is_wide() {
            hash_of_halves(mixer, self.to_wide())
        } else {
            with_word(mixer, mixer.seed(), self.to_word())
        }
    }
}

/// The hash of the bytes of a text, with its length.
pub fn hash_text<M: Mixer>(mixer: &M, bytes: &[u8]) -> u64
    ensures { result ≡ hash_bytes (M.seed_of mixer.now) (M.mix_of mixer.now) bytes.now }
{
    hash_text_behind(mixer, hash_null(mixer), bytes)
}

/// The same where the hash of null is known.
pub fn hash_text_behind<M: Mixer>(mixer: &M, null: u64, bytes: &[u8]) -> u64
    requires { null ≡ null_hash (M.seed_of mixer.now) (M.mix_of mixer.now) }
    ensures { result ≡ hash_bytes (M.seed_of mixer.now) (M.mix_of mixer.now) bytes.now }
{
    let mut hash = null;
    let mut rest = bytes;
    while let Some((word, after)) = rest.split_first_chunk::<8>() {
        hash = with_word(mixer, hash, u64::from_le_bytes(*word));
        rest = after;
    }
    with_word(mixer, with_rest(mixer, hash, rest), bytes.len() as u64)
}

// The hash so far, with the bytes that are no whole word.
#[inline]
fn with_rest<M: Mixer>(mixer: &M, hash: u64, rest: &[u8]) -> u64
    requires { length rest.now < 8 }
    ensures { result ≡ fold (fold_word (M.mix_of mixer.now)) hash (words_of rest.now) }
{
    if rest.is_empty() {
        return hash;
    }
    with_word(mixer, hash, last_word(rest))
}

// The last bytes, padded with zeros. No loop and no copy: most texts end here.
#[inline]
fn last_word(bytes: &[u8]) -> u64
    requires { length bytes.now < 8 }
    ensures { result ≡ from_le_bytes w64 bytes.now }
{
    let low = byte_or_zero(bytes, 0) + 0x100 * byte_or_zero(bytes, 1);
    let next = byte_or_zero(bytes, 2) + 0x100 * byte_or_zero(bytes, 3);
    let high = byte_or_zero(bytes, 4) + 0x100 * byte_or_zero(bytes, 5);
    low + 0x1_0000 * next + 0x1_0000_0000 * high + 0x1_0000_0000_0000 * byte_or_zero(bytes, 6)
}

// The byte at a place, and zero behind the last.
#[inline]
fn byte_or_zero(bytes: &[u8], place: usize) -> u64
    ensures value { result ≡ slice_index bytes.now place }
    ensures small { result < 256 }
{
    match bytes.get(place) {
        Some(byte) => u64::from(*byte),
        None => 0,
    }
}
