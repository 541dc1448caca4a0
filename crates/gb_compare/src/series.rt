//! The slots of columns of any type.

ghost use Rattle.gb_flat_series.specs.FlatSeries.{IsFlat, column_of};
ghost use Rattle.gb_series.specs.Series.{value_of};

use crate::inner::{TotalEqInner, TotalOrdInner};
use gb_flat_series::of_column;
use gb_flat_series::series::FlatSeries;
use gb_series::series::Series;
use std::cmp::Ordering;

impl TotalEqInner for FlatSeries {
    ghost column = { column_of };

    fn eq_element(&self, idx_a: usize, idx_b: usize) -> bool {
        of_column!(self, column => column.eq_element(idx_a, idx_b))
    }
}

impl TotalOrdInner for FlatSeries {
    ghost column = { column_of };

    fn cmp_element(&self, idx_a: usize, idx_b: usize, nulls_last: bool) -> Ordering {
        of_column!(self, column => column.cmp_element(idx_a, idx_b, nulls_last))
    }
}

impl TotalEqInner for Series {
    ghost column = { value_of };

    #[cycle(eq_element)]
    fn eq_element(&self, idx_a: usize, idx_b: usize) -> bool {
        match self {
            Series::Flat(column) => column.eq_element(idx_a, idx_b),
            Series::List(column) => column.eq_element(idx_a, idx_b),
            Series::Array(column) => column.eq_element(idx_a, idx_b),
            Series::Struct(column) => column.eq_element(idx_a, idx_b),
        }
    }
}

impl TotalOrdInner for Series {
    ghost column = { value_of };

    ghost compares = { λ s. IsFlat (value_of s).dtype };

    #[tactic(auto, using(gb_series::proofs::TypeLemmas::no_flat_lists, gb_series::proofs::TypeLemmas::no_flat_arrays, gb_series::proofs::TypeLemmas::no_flat_structs))]
    fn cmp_element(&self, idx_a: usize, idx_b: usize, nulls_last: bool) -> Ordering {
        self.tell_variant();
        match self {
            Series::Flat(column) => column.cmp_element(idx_a, idx_b, nulls_last),
            // Their types hold others.
            Series::List(_) => unreachable!(),
            Series::Array(_) => unreachable!(),
            Series::Struct(_) => unreachable!(),
        }
    }
}
