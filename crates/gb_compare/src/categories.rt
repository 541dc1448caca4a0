//! The slots of columns of categories: equal by their codes, and in the order of their texts.

ghost use Rattle.std.specs.Prelude.{◌≡◌, length, pos};
ghost use Rattle.gb_values.specs.Array.{native_slot, text_slot};
ghost use Rattle.gb_cols.specs.Codes.{IsCodeBelow};
ghost use Rattle.gb_compare.specs.Layout.{ComparesLike, HasTexts, local_column};
ghost use Rattle.gb_compare.specs.Placed.{text_in};

use crate::inner::{TotalEqInner, TotalOrdInner};
use crate::null_order::NullOrderCmp;
use gb_base::rev_mapping::RevMapping;
use gb_cols::primitive::UInt32Chunked;
use gb_cols::series_trait::SeriesTrait;
use gb_logical::categorical::CategoricalChunked;
use std::cmp::Ordering;

/// Codes, with the text of each. To compare them by their texts, every code has to have one.
#[derive(Clone, Copy)]
pub struct LocalCategorical<'a> {
    pub rev_map: &'a RevMapping,
    pub cats: &'a UInt32Chunked,
}

// The text of a code that may be null.
#[inline]
fn text_of(rev_map: &RevMapping, code: Option<u32>) -> Option<&str>
    requires { IsCodeBelow (length rev_map.now) (native_slot (λ n. pos n) code) }
    ensures { text_slot result ≡ text_in rev_map.now (native_slot (λ n. pos n) code) }
{
    match code {
        Some(code) => Some(rev_map.get(code)),
        None => None,
    }
}

impl TotalEqInner for LocalCategorical<'_> {
    ghost column = { local_column };

    fn eq_element(&self, idx_a: usize, idx_b: usize) -> bool {
        self.cats.eq_element(idx_a, idx_b)
    }
}

impl TotalOrdInner for LocalCategorical<'_> {
    ghost column = { local_column };

    ghost compares = { HasTexts };

    fn cmp_element(&self, idx_a: usize, idx_b: usize, nulls_last: bool) -> Ordering {
        let a = text_of(self.rev_map, self.cats.get(idx_a));
        let b = text_of(self.rev_map, self.cats.get(idx_b));
        a.null_order_cmp(&b, nulls_last)
    }
}

impl TotalEqInner for CategoricalChunked {
    ghost column = { λ c. c };

    fn eq_element(&self, idx_a: usize, idx_b: usize) -> bool {
        self.physical().eq_element(idx_a, idx_b)
    }
}

/// The codes of a column of categories, and their texts.
pub fn local_categorical(column: &CategoricalChunked) -> LocalCategorical<'_>
    ensures column { ComparesLike column.now (local_column result) }
    ensures texts { HasTexts result }
{
    // The length tells that every code has a text.
    let _ = column.len();
    LocalCategorical {
        rev_map: column.get_rev_map(),
        cats: column.physical(),
    }
}

impl TotalOrdInner for CategoricalChunked {
    ghost column = { λ c. c };

    fn cmp_element(&self, idx_a: usize, idx_b: usize, nulls_last: bool) -> Ordering {
        local_categorical(self).cmp_element(idx_a, idx_b, nulls_last)
    }
}
