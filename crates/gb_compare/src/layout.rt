//! The layouts in which a series is compared: by its chunks, its nulls and its type.

ghost use Rattle.std.specs.Prelude.{◌≡◌};
ghost use Rattle.gb_flat_series.specs.FlatSeries.{IsFlat};
ghost use Rattle.gb_series.specs.Series.{value_of};
ghost use Rattle.gb_series.specs.declared.series.Series.{Series};
ghost use Rattle.gb_compare.specs.Layout.{ComparesLike, HasOrder, eq_column, eq_layout, eq_layout_for, ord_column, ord_layout, ord_layout_for, plain_layout};

use crate::categories::{LocalCategorical, local_categorical};
use crate::inner::{TotalEqInner, TotalOrdInner};
use crate::null_order::NonNull;
use gb_cols::null::NullChunked;
use gb_cols::series_trait::SeriesTrait;
use gb_flat_series::series::FlatSeries;
use gb_series::series::Series;
use std::cmp::Ordering;

/// A series whose slots can be told to be equal, by its layout. What each layout says of nulls is known of
/// the series when it is made.
#[derive(Clone, Copy)]
pub enum EqInner<'a> {
    /// One chunk, and no null.
    SingleNoNull(NonNull<&'a Series>),
    /// One chunk, with a null.
    Single(&'a Series),
    /// Several chunks, and no null.
    MultiNoNull(NonNull<&'a Series>),
    /// Several chunks, with a null.
    Multi(&'a Series),
    /// Nothing but nulls.
    Null(&'a NullChunked),
}

/// A series whose slots have an order, by its layout.
#[derive(Clone, Copy)]
pub enum OrdInner<'a> {
    /// One chunk, and no null.
    SingleNoNull(NonNull<&'a Series>),
    /// One chunk, with a null.
    Single(&'a Series),
    /// Several chunks, and no null.
    MultiNoNull(NonNull<&'a Series>),
    /// Several chunks, with a null.
    Multi(&'a Series),
    /// Nothing but nulls.
    Null(&'a NullChunked),
    /// Codes with their texts.
    Local(LocalCategorical<'a>),
}

impl TotalEqInner for EqInner<'_> {
    ghost column = { eq_column };

    fn eq_element(&self, idx_a: usize, idx_b: usize) -> bool {
        match self {
            EqInner::SingleNoNull(series) => series.0.eq_element(idx_a, idx_b),
            EqInner::Single(series) => series.eq_element(idx_a, idx_b),
            EqInner::MultiNoNull(series) => series.0.eq_element(idx_a, idx_b),
            EqInner::Multi(series) => series.eq_element(idx_a, idx_b),
            EqInner::Null(column) => column.eq_element(idx_a, idx_b),
        }
    }
}

impl TotalEqInner for OrdInner<'_> {
    ghost column = { ord_column };

    fn eq_element(&self, idx_a: usize, idx_b: usize) -> bool {
        match self {
            OrdInner::SingleNoNull(series) => series.0.eq_element(idx_a, idx_b),
            OrdInner::Single(series) => series.eq_element(idx_a, idx_b),
            OrdInner::MultiNoNull(series) => series.0.eq_element(idx_a, idx_b),
            OrdInner::Multi(series) => series.eq_element(idx_a, idx_b),
            OrdInner::Null(column) => column.eq_element(idx_a, idx_b),
            OrdInner::Local(local) => local.eq_element(idx_a, idx_b),
        }
    }
}

impl TotalOrdInner for OrdInner<'_> {
    ghost column = { ord_column };

    ghost compares = { HasOrder };

    fn cmp_element(&self, idx_a: usize, idx_b: usize, nulls_last: bool) -> Ordering {
        match self {
            OrdInner::SingleNoNull(series) => series.0.cmp_element(idx_a, idx_b, nulls_last),
            OrdInner::Single(series) => series.cmp_element(idx_a, idx_b, nulls_last),
            OrdInner::MultiNoNull(series) => series.0.cmp_element(idx_a, idx_b, nulls_last),
            OrdInner::Multi(series) => series.cmp_element(idx_a, idx_b, nulls_last),
            OrdInner::Null(column) => column.cmp_element(idx_a, idx_b, nulls_last),
            OrdInner::Local(local) => local.cmp_element(idx_a, idx_b, nulls_last),
        }
    }
}

/// What is compared slot by slot, once its layout is known.
pub trait IntoTotalInner {
    // The series.
    ghost series: { Self → Series };

    /// One pass over the chunks, no memory.
    fn into_total_eq_inner(&self) -> EqInner<'_>
        ensures column { eq_column result ≡ value_of (series self.now) }
        ensures layout { eq_layout result ≡ eq_layout_for (series self.now) };

    /// The layout of categories is theirs, however many chunks there are. Lists, arrays and structs have no
    /// order. One pass over the chunks, no memory.
    fn into_total_ord_inner(&self) -> OrdInner<'_>
        requires { IsFlat (value_of (series self.now)).dtype }
        ensures column { ComparesLike (value_of (series self.now)) (ord_column result) }
        ensures compares { HasOrder result }
        ensures layout { ord_layout result ≡ ord_layout_for (series self.now) };
}

impl IntoTotalInner for Series {
    ghost series = { λ s. s };

    fn into_total_eq_inner(&self) -> EqInner<'_> {
        match self {
            Series::Flat(FlatSeries::Null(column)) => EqInner::Null(column),
            _ => plain_inner(self),
        }
    }

    fn into_total_ord_inner(&self) -> OrdInner<'_> {
        match self {
            Series::Flat(FlatSeries::Null(column)) => OrdInner::Null(column),
            Series::Flat(FlatSeries::Categorical(column)) => {
                OrdInner::Local(local_categorical(column))
            }
            _ => ordered_inner(plain_inner(self)),
        }
    }
}

// By how many chunks there are, and whether some slot is null.
fn plain_inner(series: &Series) -> EqInner<'_>
    ensures column { eq_column result ≡ value_of series.now }
    ensures layout { eq_layout result ≡ plain_layout (value_of series.now) }
{
    match (series.n_chunks() == 1, series.has_nulls()) {
        (true, false) => EqInner::SingleNoNull(NonNull(series)),
        (true, true) => EqInner::Single(series),
        (false, false) => EqInner::MultiNoNull(NonNull(series)),
        (false, true) => EqInner::Multi(series),
    }
}

// The same layout, for its order.
fn ordered_inner(inner: EqInner<'_>) -> OrdInner<'_>
    requires { IsFlat (eq_column inner).dtype }
    ensures column { ord_column result ≡ eq_column inner.entry }
    ensures compares { HasOrder result }
    ensures layout { ord_layout result ≡ eq_layout inner.entry }
{
    match inner {
        EqInner::SingleNoNull(series) => OrdInner::SingleNoNull(series),
        EqInner::Single(series) => OrdInner::Single(series),
        EqInner::MultiNoNull(series) => OrdInner::MultiNoNull(series),
        EqInner::Multi(series) => OrdInner::Multi(series),
        EqInner::Null(column) => OrdInner::Null(column),
    }
}
