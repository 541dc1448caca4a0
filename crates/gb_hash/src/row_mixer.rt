//! A mixer that is used for many rows.

ghost use Rattle.std.specs.Prelude.{◌≡◌};
ghost use Rattle.gb_defs.specs.Hash.{hash_bytes, null_hash};

use crate::dirty_hash::{Mixer, hash_null, hash_text_behind};
use std::marker::Model;

/// A mixer that takes the hash of null once, which the hash of each text begins with.
#[derive(Drop)]
pub struct RowMixer<M: Mixer> {
    mixer: M,
    null: u64,
}

impl<M: Mixer> Model for RowMixer<M> {
    ghost use Rattle.std.specs.Prelude.{◌≡◌};
    ghost use Rattle.gb_defs.specs.Hash.{null_hash};

    ghost Value = { M };

    ghost view = { λ rows. rows.mixer };

    ghost invariant = { λ rows.
        rows.null ≡ null_hash (M.seed_of rows.mixer) (M.mix_of rows.mixer) };
}

impl<M: Mixer> RowMixer<M> {
    pub fn new(mixer: M) -> RowMixer<M>
        ensures { result ≡ mixer }
    {
        let null = hash_null(&mixer);
        RowMixer { mixer, null }
    }

    /// The mixer alone.
    #[inline]
    pub fn mixer(&self) -> &M
        ensures { result.now ≡ self.now }
    {
        &self.mixer
    }

    #[inline]
    pub fn hash_null(&self) -> u64
        ensures { result ≡ null_hash (M.seed_of self.now) (M.mix_of self.now) }
    {
        self.null
    }

    #[inline]
    pub fn hash_text(&self, bytes: &[u8]) -> u64
        ensures { result ≡ hash_bytes (M.seed_of self.now) (M.mix_of self.now) bytes.now }
    {
        hash_text_behind(&self.mixer, self.null, bytes)
    }
}
