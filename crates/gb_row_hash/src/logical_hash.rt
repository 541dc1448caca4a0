//! The hashes of columns of numbers that mean something else, and of categories: those of the numbers.

ghost use Rattle.std.specs.Prelude.{◌≡◌, ℕ};
ghost use Rattle.gb_defs.specs.ColumnType.{Flat};
ghost use Rattle.gb_defs.specs.Hash.{combine_of};
ghost use Rattle.gb_defs.specs.Slot.{Slot};
ghost use Rattle.gb_row_hash.specs.Hashes.{slot_hash};

use crate::vec_hash::VecHash;
use gb_base::error::PolarsResult;
use gb_flat_series::of_column;
use gb_flat_series::series::FlatSeries;
use gb_hash::dirty_hash::Mixer;
use gb_logical::categorical::CategoricalChunked;
use gb_logical::logical::{
    DateKind, DatetimeKind, DecimalKind, DurationKind, Logical, LogicalKind, TimeKind,
};

/// A meaning of numbers that hash as the stored ones do.
pub trait HashKind: LogicalKind {
    // A slot has one hash under both types.
    ghost alike: { (kind : Self) (seed : ℕ) (mix : ℕ → ℕ) (slot : Slot)
        → slot_hash (Flat (Self.flat kind)) seed mix slot
        ≡ slot_hash (Flat Self.Physical.Native.flat) seed mix slot };

    // It is put to an earlier hash in one way under both.
    ghost combined: { (kind : Self) (hash before : ℕ)
        → combine_of (Flat (Self.flat kind)) hash before
        ≡ combine_of (Flat Self.Physical.Native.flat) hash before };
}

impl HashKind for DateKind {
    ghost use Rattle.std.specs.Prelude.{refl};
    ghost use Rattle.gb_row_hash.specs.Alike.{narrow_alike};

    ghost alike = { λ kind. narrow_alike };

    ghost combined = { λ kind hash before. refl };
}

impl HashKind for TimeKind {
    ghost use Rattle.std.specs.Prelude.{refl};

    ghost alike = { λ kind seed mix slot. refl };

    ghost combined = { λ kind hash before. refl };
}

impl HashKind for DatetimeKind {
    ghost use Rattle.std.specs.Prelude.{refl};

    ghost alike = { λ kind seed mix slot. refl };

    ghost combined = { λ kind hash before. refl };
}

impl HashKind for DurationKind {
    ghost use Rattle.std.specs.Prelude.{refl};

    ghost alike = { λ kind seed mix slot. refl };

    ghost combined = { λ kind hash before. refl };
}

impl HashKind for DecimalKind {
    ghost use Rattle.std.specs.Prelude.{refl};

    ghost alike = { λ kind seed mix slot. refl };

    ghost combined = { λ kind hash before. refl };
}

impl<K: HashKind> VecHash for Logical<K> {
    fn vec_hash<M: Mixer>(&self, random_state: M, buf: &mut Vec<u64>) -> PolarsResult<()> {
        // The call tells the column's type.
        let _ = self.kind();
        self.physical().vec_hash(random_state, buf)
    }

    fn vec_hash_combine<M: Mixer>(&self, random_state: M, hashes: &mut [u64]) -> PolarsResult<()> {
        // The call tells the column's type.
        let _ = self.kind();
        self.physical().vec_hash_combine(random_state, hashes)
    }
}

impl VecHash for CategoricalChunked {
    fn vec_hash<M: Mixer>(&self, random_state: M, buf: &mut Vec<u64>) -> PolarsResult<()> {
        // The call tells the column's type.
        let _ = self.get_rev_map();
        self.physical().vec_hash(random_state, buf)
    }

    fn vec_hash_combine<M: Mixer>(&self, random_state: M, hashes: &mut [u64]) -> PolarsResult<()> {
        // The call tells the column's type.
        let _ = self.get_rev_map();
        self.physical().vec_hash_combine(random_state, hashes)
    }
}

impl VecHash for FlatSeries {
    fn vec_hash<M: Mixer>(&self, random_state: M, buf: &mut Vec<u64>) -> PolarsResult<()> {
        of_column!(self, column => column.vec_hash(random_state, buf))
    }

    fn vec_hash_combine<M: Mixer>(&self, random_state: M, hashes: &mut [u64]) -> PolarsResult<()> {
        of_column!(self, column => column.vec_hash_combine(random_state, hashes))
    }
}
