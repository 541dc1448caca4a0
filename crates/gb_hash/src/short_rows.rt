//! The rows of texts of at most 16 bytes, which are told apart by words and not byte by byte.

ghost use Rattle.std.specs.Prelude.{◌≡◌, All, IfSome, IsTrue};
ghost use Rattle.gb_hash.specs.Short.{IsShort, key_slot, keys_decide, short_alike, short_rows};

use crate::key_rows::{KeyRows, Steps};
use crate::list_rows::ByteChunks;
use gb_table::text_key::TextKey;
use gb_values::utf8::Text;
use std::sync::ledger::Ledger;

/// The rows of short texts, none of them null. Their slots are words and not the texts, and their hashes are of
/// those, but rows agree where their texts are one.
#[derive(Drop)]
pub struct ShortRows<'r, 'a> {
    pub texts: &'r ByteChunks<'a, Text>,
    pub seed: u64,
}

impl<'r, 'a> ShortRows<'r, 'a> {
    /// The rows, unless some text is longer than 16 bytes, for which all are looked at.
    pub fn new(texts: &'r ByteChunks<'a, Text>, seed: u64) -> Option<ShortRows<'r, 'a>>
        ensures texts { IfSome result (λ rows. rows.texts.now ≡ texts.now) }
        ensures seed { IfSome result (λ rows. rows.seed ≡ seed) }
        ensures short { IfSome result (λ rows. All IsShort texts.now) }
    {
        if texts.are_short() {
            Some(ShortRows { texts, seed })
        } else {
            None
        }
    }
}

impl<'r, 'a> KeyRows for ShortRows<'r, 'a> {
    type Key = TextKey;

    ghost rows = { λ r. short_rows r.seed r.texts.now };

    ghost key_slot = { key_slot };

    ghost keys_decide = { keys_decide };

    ghost hashes_alike = { λ r. short_alike r.seed r.texts.now };

    fn len(&self) -> usize {
        self.texts.len()
    }

    #[inline(always)]
    fn key_at<L: Ledger>(&self, i: usize, steps: &mut Steps<L>) -> TextKey {
        steps.tick();
        TextKey::new(self.texts.text(i), self.seed)
    }

    #[inline(always)]
    fn hash_at(&self, i: usize) -> u64 {
        TextKey::new(self.texts.text(i), self.seed).hash_key()
    }
}
