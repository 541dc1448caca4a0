//! The columns that rows are grouped by.

ghost use Rattle.std.specs.Prelude.{◌≡◌, None, map, IfErr, IfOk, OnOk};
ghost use Rattle.gb_base.specs.PlSmallStr.{IsNoMemory};
ghost use Rattle.gb_base.specs.PolarsError.{Explains};
ghost use Rattle.gb_defs.specs.Answer.{height_of};
ghost use Rattle.gb_defs.specs.Classes.{longest};
ghost use Rattle.gb_defs.specs.Column.{IsFrame};
ghost use Rattle.gb_defs.specs.Fault.{shape_fault};
ghost use Rattle.gb_defs.specs.Groups.{HasRowNumbers};
ghost use Rattle.gb_paths.specs.Tuples.{slots_of};
ghost use Rattle.gb_rows.specs.Lent.{keys_in};
ghost use Rattle.gb_series.specs.Series.{value_of};
ghost use Rattle.gb_frame.specs.Key.{AreOrOne, columns_of, high_keys, stretched_keys};
ghost use Rattle.gb_frame.specs.Refusals.{keys_fault};

use crate::checks::check_height;
use gb_base::error::{PolarsError, PolarsResult};
use gb_cols::series_trait::SeriesTrait;
use gb_series::frame::DataFrame;
use gb_series::series::Series;
use std::alloc::{AllocError, Global};

/// A column to group by, lent or owned.
#[derive(Drop)]
pub enum Key<'a> {
    Lent(&'a Series),
    Owned(Series),
}

impl<'a> Key<'a> {
    ghost use Rattle.std.specs.Prelude.{◌≡◌, IfErr, IfOk};
    ghost use Rattle.gb_base.specs.PlSmallStr.{IsNoMemory};
    ghost use Rattle.gb_defs.specs.Answer.{stretched_key};
    ghost use Rattle.gb_defs.specs.Groups.{HasRowNumbers};
    ghost use Rattle.gb_series.specs.Series.{value_of};
    ghost use Rattle.gb_frame.specs.Key.{IsOrOne, key_value};

    /// The column.
    pub fn column(&self) -> &Series
        ensures { value_of result.now ≡ key_value self.now }
    {
        match self {
            Key::Lent(column) => column,
            Key::Owned(column) => column,
        }
    }

    // The key as it is, or its slot so many times.
    fn stretched(self, height: usize) -> PolarsResult<Key<'a>>
        requires long { IsOrOne height (key_value self) }
        requires few { HasRowNumbers height }
        ensures ok { IfOk result (λ key.
            key_value key ≡ stretched_key height (key_value self.entry)) }
        ensures err { IfErr result IsNoMemory }
    {
        if self.column().len() == height {
            return Ok(self);
        }
        Ok(Key::Owned(self.column().new_from_index(0, height)?))
    }
}

/// Keys that are lent.
pub(crate) fn lent_keys<'a>(
    alloc: Global,
    columns: &[&'a Series],
) -> Result<Vec<Key<'a>>, AllocError>
    ensures { IfOk result (λ keys. columns_of keys.items ≡ keys_in columns.now) }
{
    let mut keys = Vec::with_capacity(alloc, columns.len())?;
    for column in columns {
        keys.push(Key::Lent(*column))?;
    }
    Ok(keys)
}

/// Keys that are owned.
pub(crate) fn owned_keys<'a>(
    alloc: Global,
    columns: Vec<Series>,
) -> Result<Vec<Key<'a>>, AllocError>
    ensures { IfOk result (λ keys. columns_of keys.items ≡ map value_of columns.items) }
{
    let mut keys = Vec::with_capacity(alloc, columns.len())?;
    for column in columns {
        keys.push(Key::Owned(column))?;
    }
    Ok(keys)
}

/// The columns of keys, lent.
pub(crate) fn lend<'k>(alloc: Global, keys: &'k [Key<'_>]) -> Result<Vec<&'k Series>, AllocError>
    ensures { IfOk result (λ columns. keys_in columns.items ≡ columns_of keys.now) }
{
    let mut columns = Vec::with_capacity(alloc, keys.len())?;
    for key in keys {
        columns.push(key.column())?;
    }
    Ok(columns)
}

// How many rows the longest key has.
fn longest_key(keys: &[Key<'_>]) -> usize
    ensures { result ≡ longest (slots_of (columns_of keys.now)) }
{
    let mut most = 0;
    for key in keys {
        most = key.column().len().max(most);
    }
    most
}

// The frame's height where it has columns, else the length of the longest key.
fn height_by(frame: &DataFrame, keys: &[Key<'_>]) -> usize
    ensures height { result ≡ height_of frame.now (columns_of keys.now) }
    ensures frame { IsFrame frame.now }
{
    let height = frame.height();
    if frame.get_columns().is_empty() {
        return longest_key(keys);
    }
    height
}

// That each key has so many rows, or one.
fn check_lengths(keys: &[Key<'_>], height: usize) -> PolarsResult<()>
    ensures ok { OnOk result (AreOrOne height (columns_of keys.now)) }
    ensures err { IfErr result (λ e. Explains e (shape_fault height (columns_of keys.now))) }
{
    for key in keys {
        let long = key.column().len();
        if long != height && long != 1 {
            return Err(PolarsError::ShapeMismatch);
        }
    }
    Ok(())
}

// Each key as it is, or its slot so many times.
fn stretch_keys<'a>(alloc: Global, keys: Vec<Key<'a>>, height: usize) -> PolarsResult<Vec<Key<'a>>>
    requires long { AreOrOne height (columns_of keys.items) }
    requires few { HasRowNumbers height }
    ensures ok { IfOk result (λ all.
        columns_of all.items ≡ high_keys height (columns_of keys.entry.items)) }
    ensures err { IfErr result IsNoMemory }
{
    let mut all = Vec::with_capacity(alloc, keys.len())?;
    for key in keys {
        all.push(key.stretched(height)?)?;
    }
    Ok(all)
}

/// The keys, each of the height of what is grouped, unless rows are not grouped by them.
pub(crate) fn fit_keys<'a>(
    alloc: Global,
    frame: &DataFrame,
    keys: Vec<Key<'a>>,
) -> PolarsResult<Vec<Key<'a>>>
    ensures ok { IfOk result (λ fit.
        columns_of fit.items ≡ stretched_keys frame.now (columns_of keys.entry.items)) }
    ensures fits { OnOk result (keys_fault frame.now (columns_of keys.entry.items) ≡ None) }
    ensures frame { IsFrame frame.now }
    ensures err { IfErr result (λ e.
        Explains e (keys_fault frame.now (columns_of keys.entry.items))) }
{
    let height = height_by(frame, &keys);
    if keys.is_empty() {
        return Err(PolarsError::ComputeError);
    }
    check_lengths(&keys, height)?;
    check_height(height)?;
    let all = stretch_keys(alloc, keys, height)?;
    Ok(all)
}
