//! What gives the hashes of its slots.

ghost use Rattle.std.specs.Prelude.{◌≡◌, None, length, IsOk, IfErr, OnOk, OnErr};
ghost use Rattle.gb_base.specs.PolarsError.{Explains};
ghost use Rattle.gb_defs.specs.Fault.{key_fault};
ghost use Rattle.gb_row_hash.specs.Hashes.{combined_hashes, slot_hashes};

use gb_base::error::PolarsResult;
use gb_cols::series_trait::SeriesTrait;
use gb_hash::dirty_hash::Mixer;

/// A column whose slots have hashes. Columns of lists, arrays and structs have none, and say so by
/// `InvalidOperation` with their name. Each call is one pass.
pub trait VecHash: SeriesTrait {
    /// The hash of each slot in order, in place of what the buffer held. After a refusal the buffer holds
    /// what it did.
    fn vec_hash<M: Mixer>(&self, random_state: M, buf: &mut Vec<u64>) -> PolarsResult<()>
        ensures ok { let c = Self.value self.now in OnOk result
            (buf.new.items ≡ slot_hashes (M.seed_of random_state) (M.mix_of random_state) c) }
        ensures sound { OnOk result (key_fault (Self.value self.now) ≡ None) }
        ensures err { IfErr result (λ e. Explains e (key_fault (Self.value self.now))) }
        ensures unchanged { OnErr result (buf.new.items ≡ buf.old.items) };

    /// The hash of each slot put to the hash of its row so far. It takes no memory, so that only a column
    /// without hashes refuses, and then the hashes stay.
    fn vec_hash_combine<M: Mixer>(&self, random_state: M, hashes: &mut [u64]) -> PolarsResult<()>
        requires { length hashes.old ≡ length (Self.value self.now).slots }
        ensures ok { let seed = M.seed_of random_state in
            let mix = M.mix_of random_state in
            OnOk result (hashes.new ≡ combined_hashes seed mix (Self.value self.now) hashes.old) }
        ensures sound { OnOk result (key_fault (Self.value self.now) ≡ None) }
        ensures flat { key_fault (Self.value self.now) ≡ None → IsOk result }
        ensures err { IfErr result (λ e. Explains e (key_fault (Self.value self.now))) }
        ensures unchanged { OnErr result (hashes.new ≡ hashes.old) };
}
