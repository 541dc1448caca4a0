//! The slots of columns of numbers, flags, texts, bytes and nulls.

ghost use Rattle.std.specs.Prelude.{◌≡◌};
ghost use Rattle.gb_defs.specs.Slot.{Num};
ghost use Rattle.gb_values.specs.Array.{native_slot};
ghost use Rattle.gb_compare.specs.Placed.{value_slot};

use crate::inner::{TotalEqInner, TotalOrdInner};
use crate::null_order::NullOrderCmp;
use crate::total_ord::{Number, TotalEq};
use gb_cols::boolean::BooleanChunked;
use gb_cols::chunked::ChunkedArray;
use gb_cols::null::NullChunked;
use gb_cols::series_trait::SeriesTrait;
use gb_logical::logical::{Logical, LogicalKind};
use gb_numbers::numeric::{Native, PolarsNumericType};
use gb_values::bytes::{ByteKind, ByteValues};
use gb_values::primitive::NumberValues;
use std::cmp::Ordering;

// A number that may be null, as a value.
#[inline]
fn number_of<N: Native>(number: Option<N>) -> Option<Number<N>>
    ensures { value_slot (λ n. Num (N.number n.0)) result ≡ native_slot N.number number }
{
    match number {
        Some(number) => Some(Number(number)),
        None => None,
    }
}

impl<T: PolarsNumericType> TotalEqInner for ChunkedArray<NumberValues<T>> {
    ghost column = { λ c. c };

    fn eq_element(&self, idx_a: usize, idx_b: usize) -> bool {
        number_of(self.get(idx_a)).tot_eq(&number_of(self.get(idx_b)))
    }
}

impl<T: PolarsNumericType> TotalOrdInner for ChunkedArray<NumberValues<T>> {
    ghost column = { λ c. c };

    fn cmp_element(&self, idx_a: usize, idx_b: usize, nulls_last: bool) -> Ordering {
        // The name tells the type.
        let _ = self.name();
        let b = number_of(self.get(idx_b));
        number_of(self.get(idx_a)).null_order_cmp(&b, nulls_last)
    }
}

impl TotalEqInner for BooleanChunked {
    ghost column = { λ c. c };

    fn eq_element(&self, idx_a: usize, idx_b: usize) -> bool {
        self.get(idx_a).tot_eq(&self.get(idx_b))
    }
}

impl TotalOrdInner for BooleanChunked {
    ghost column = { λ c. c };

    fn cmp_element(&self, idx_a: usize, idx_b: usize, nulls_last: bool) -> Ordering {
        let _ = self.name();
        self.get(idx_a).null_order_cmp(&self.get(idx_b), nulls_last)
    }
}

impl<K: ByteKind> TotalEqInner for ChunkedArray<ByteValues<K>> {
    ghost column = { λ c. c };

    fn eq_element(&self, idx_a: usize, idx_b: usize) -> bool {
        self.bytes_at(idx_a).tot_eq(&self.bytes_at(idx_b))
    }
}

impl<K: ByteKind> TotalOrdInner for ChunkedArray<ByteValues<K>> {
    ghost column = { λ c. c };

    fn cmp_element(&self, idx_a: usize, idx_b: usize, nulls_last: bool) -> Ordering {
        self.bytes_at(idx_a)
            .null_order_cmp(&self.bytes_at(idx_b), nulls_last)
    }
}

impl<K: LogicalKind> TotalEqInner for Logical<K> {
    ghost column = { λ c. c };

    fn eq_element(&self, idx_a: usize, idx_b: usize) -> bool {
        self.physical().eq_element(idx_a, idx_b)
    }
}

impl<K: LogicalKind> TotalOrdInner for Logical<K> {
    ghost column = { λ c. c };

    fn cmp_element(&self, idx_a: usize, idx_b: usize, nulls_last: bool) -> Ordering {
        // The kind tells the type.
        let _ = self.kind();
        self.physical().cmp_element(idx_a, idx_b, nulls_last)
    }
}

impl TotalEqInner for NullChunked {
    ghost column = { λ c. c };

    fn eq_element(&self, idx_a: usize, idx_b: usize) -> bool {
        self.get(idx_a) == self.get(idx_b)
    }
}

impl TotalOrdInner for NullChunked {
    ghost column = { λ c. c };

    fn cmp_element(&self, idx_a: usize, idx_b: usize, _nulls_last: bool) -> Ordering {
        self.get(idx_a).cmp(&self.get(idx_b))
    }
}
