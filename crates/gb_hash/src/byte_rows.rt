//! The rows of a column of texts.

ghost use Rattle.std.specs.Prelude.{◌≡◌};
ghost use Rattle.std.specs.Int.{w64};
ghost use Rattle.gb_defs.specs.Rows.{rows_of_slots};
ghost use Rattle.gb_defs.specs.Hash.{hash_of};
ghost use Rattle.gb_values.specs.Array.{text_slot};
ghost use Rattle.gb_hash.specs.Keys.{texts_decide, slots_alike};

use crate::dirty_hash::Mixer;
use crate::key_rows::{KeyRows, Steps};
use crate::row_mixer::RowMixer;
use gb_cols::chunked::StringChunked;
use gb_cols::series_trait::SeriesTrait;
use std::sync::ledger::Ledger;

/// The rows of a column of texts, with its texts as keys. A text's hash is that of its bytes.
#[derive(Drop)]
pub struct ByteRows<'a, M: Mixer> {
    pub column: &'a StringChunked,
    pub mixer: RowMixer<M>,
}

impl<'a, M: Mixer> ByteRows<'a, M> {
    pub fn new(column: &'a StringChunked, mixer: M) -> Self
        ensures column { result.column.now ≡ column.now }
        ensures mixer { result.mixer ≡ mixer }
    {
        let mixer = RowMixer::new(mixer);
        ByteRows { column, mixer }
    }
}

impl<'a, M: Mixer + Sync> KeyRows for ByteRows<'a, M> {
    type Key = Option<&'a str>;

    ghost rows = { λ r. rows_of_slots w64 (M.seed_of r.mixer) (M.mix_of r.mixer) r.column.now.slots };

    ghost key_slot = { text_slot };

    ghost keys_decide = { texts_decide };

    ghost hashes_alike = { λ r. slots_alike w64 (M.seed_of r.mixer) (M.mix_of r.mixer) r.column.now.slots };

    fn len(&self) -> usize {
        self.column.len()
    }

    fn key_at<L: Ledger>(&self, i: usize, steps: &mut Steps<L>) -> Option<&'a str> {
        steps.tick();
        self.column.get(i)
    }

    fn hash_at(&self, i: usize) -> u64 {
        hash_option(&self.mixer, self.column.get(i))
    }
}

// The hash of a text, or that of null.
#[inline]
fn hash_option<M: Mixer>(mixer: &RowMixer<M>, text: Option<&str>) -> u64
    ensures { result ≡ hash_of w64 (M.seed_of mixer.now) (M.mix_of mixer.now)
        (text_slot text.entry) }
{
    match text {
        None => mixer.hash_null(),
        Some(text) => mixer.hash_text(text.as_bytes()),
    }
}
