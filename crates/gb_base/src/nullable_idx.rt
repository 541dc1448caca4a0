//! Row numbers.

ghost use Rattle.std.specs.Prelude.{◌≡◌, ◌<◌, Some, None, is_none};

use std::marker::Model;

/// A row, or a count of rows.
pub type IdxSize = u32;

/// A row number that may be missing. It takes no more room than a row number: the greatest one means null.
#[derive(Clone, Copy, Debug, PartialEq, Eq)]
pub struct NullableIdxSize {
    stored: IdxSize,
}

impl Model for NullableIdxSize {
    ghost use Rattle.std.specs.Prelude.{Option, ℕ};
    ghost use Rattle.std.proofs.Common.{ap};
    ghost use Rattle.gb_base.specs.NullableIdx.{index_of, stored_for, stored_again};

    ghost Value = { Option ℕ };

    ghost view = { λ i. index_of i.stored };

    ghost inverse = { λ index. record { stored = stored_for index } };

    ghost inverse_ok = { λ i h. ap (λ n. record { stored = n }) (stored_again i.stored) };
}

impl NullableIdxSize {
    /// The row with this number.
    pub fn some(v: IdxSize) -> NullableIdxSize
        requires { v < 4294967295 }
        ensures { result ≡ Some v }
    {
        NullableIdxSize { stored: v }
    }

    /// No row.
    pub fn null() -> NullableIdxSize
        ensures { result ≡ None }
    {
        NullableIdxSize {
            stored: IdxSize::MAX,
        }
    }

    pub fn is_null_idx(&self) -> bool
        ensures { result ≡ is_none self.now }
    {
        self.stored == IdxSize::MAX
    }

    /// The number, `None` for null alone.
    pub fn get(&self) -> Option<IdxSize>
        ensures { result ≡ self.now }
    {
        if self.stored == IdxSize::MAX {
            None
        } else {
            Some(self.stored)
        }
    }
}
