//! Frames of columns.

ghost use Rattle.std.specs.Prelude.{[], ◌≡◌, ◌==◌, ℕ, ◌+◌, ◌<◌, ◌^◌, length, map, sum, None, Some, IfOk, IfErr, OnOk, OnErr, IfSome, IfNone, All, option_map, slice_get};
ghost use Rattle.gb_defs.specs.Column.{all_have_length as are_all_long, find_column, first_repeated, frame_height, names_of, IsFrame};
ghost use Rattle.gb_base.specs.PlSmallStr.{name_of, IsNoMemory};
ghost use Rattle.gb_base.specs.PolarsError.{Explains};
ghost use Rattle.gb_series.specs.Append.{append_fault, appended_frame};
ghost use Rattle.gb_series.specs.Frame.{are_aligned, are_all_chunked, first_missing, missing_column};
ghost use Rattle.gb_series.specs.Series.{value_of};

use crate::append::{append_all, refuse_unlike};
use crate::flatten::part_of;
use crate::series::{Column, Series};
use gb_base::error::{PolarsError, PolarsResult};
use gb_base::name_set::{NameSet, repeated};
use gb_base::nullable_idx::IdxSize;
use gb_base::small_str::PlSmallStr;
use gb_cols::series_trait::SeriesTrait;
use std::alloc::Global;
use std::marker::Model;

/// Columns of one length with different names.
#[derive(Drop)]
pub struct DataFrame {
    columns: Vec<Series>,
}

impl Model for DataFrame {
    ghost use Rattle.std.specs.Prelude.{map};
    ghost use Rattle.gb_defs.specs.Column.{Frame, frame_code};
    ghost use Rattle.gb_series.specs.Frame.{IsSmallFrame};
    ghost use Rattle.gb_series.specs.Series.{value_of};

    ghost Value = { Frame };

    ghost coded = { frame_code };

    ghost view = { λ f. map value_of f.columns.items };

    ghost invariant = { λ f. IsSmallFrame (map value_of f.columns.items) };
}

impl DataFrame {
    ghost use Rattle.gb_series.specs.Frame.{are_aligned, frame_chunks, frame_fault, missing_column, select_fault};
    ghost use Rattle.gb_series.specs.Series.{part_at, value_of};
    ghost use Rattle.gb_defs.specs.Column.{rechunked, sliced, taken};

    /// The frame of no columns. It takes no memory.
    pub fn empty(alloc: Global) -> DataFrame
        ensures { result ≡ [] }
    {
        DataFrame {
            columns: Vec::new(alloc),
        }
    }

    /// The frame of these columns, unless two have one name or their lengths differ.
    pub fn new(columns: Vec<Column>) -> PolarsResult<DataFrame>
        ensures ok { let frame = map value_of columns.items in
            IfOk result (λ f. (f ≡ frame) × (frame_fault frame ≡ None)) }
        ensures err { IfErr result (λ e. Explains e (frame_fault (map value_of columns.items))) }
    {
        if let Some(name) = repeated_name(&columns)? {
            return Err(PolarsError::Duplicate(name.try_clone()?));
        }
        let height = height_of(&columns);
        if !all_have_length(&columns, height) {
            return Err(PolarsError::ShapeMismatch);
        }
        Ok(DataFrame { columns })
    }

    /// How many rows there are, 0 without columns.
    pub fn height(&self) -> usize
        ensures value { result ≡ frame_height self.now }
        ensures small { result < 2 ^ 63 }
        ensures frame { IsFrame self.now }
    {
        height_of(&self.columns)
    }

    /// How many columns there are.
    pub fn width(&self) -> usize
        ensures { result ≡ length self.now }
    {
        self.columns.len()
    }

    /// Whether there are no rows.
    pub fn is_empty(&self) -> bool
        ensures { result ≡ (frame_height self.now == 0) }
    {
        self.height() == 0
    }

    pub fn get_columns(&self) -> &[Column]
        ensures { map value_of result.now ≡ self.now }
    {
        &self.columns
    }

    /// Where the column of this name stands.
    pub fn position(&self, name: &str) -> Option<usize>
        ensures within { IfSome result (λ place. place < length self.now) }
        ensures some { IfSome result
            (λ place. slice_get self.now place ≡ find_column self.now name.now) }
        ensures none { IfNone result (find_column self.now name.now ≡ None) }
    {
        position_of(&self.columns, name)
    }

    /// The column of this name.
    pub fn column(&self, name: &str) -> PolarsResult<&Column>
        ensures ok { IfOk result
            (λ column. find_column self.now name.now ≡ Some (value_of column.now)) }
        ensures err { IfErr result (λ e. Explains e (missing_column self.now name.now)) }
    {
        match position_of(&self.columns, name) {
            Some(place) => Ok(&self.columns[place]),
            None => {
                let name = PlSmallStr::from_str(*self.columns.allocator(), name)?;
                Err(PolarsError::ColumnNotFound(name))
            }
        }
    }

    /// The slots of these rows, in one chunk a column.
    pub fn take(&self, rows: &[IdxSize]) -> PolarsResult<DataFrame>
        requires { All (λ row. row < frame_height self.now) rows.now }
        ensures ok { IfOk result (λ f. f ≡ map (taken rows.now) self.now) }
        ensures err { IfErr result IsNoMemory }
    {
        let mut columns = Vec::with_capacity(*self.columns.allocator(), self.columns.len())?;
        for column in &self.columns {
            columns.push(column.take(rows)?)?;
        }
        Ok(DataFrame { columns })
    }

    /// The rows from an offset on, so many at most. A negative offset counts from the end. Copies what
    /// it shows.
    pub fn slice(&self, offset: i64, len: usize) -> PolarsResult<DataFrame>
        ensures ok { IfOk result (λ f. f ≡ map (sliced offset len) self.now) }
        ensures err { IfErr result IsNoMemory }
    {
        let mut columns = Vec::with_capacity(*self.columns.allocator(), self.columns.len())?;
        for column in &self.columns {
            columns.push(column.slice(offset, len)?)?;
        }
        Ok(DataFrame { columns })
    }

    /// The same rows, in one chunk a column. Copies them all.
    pub fn rechunk(&self) -> PolarsResult<DataFrame>
        ensures ok { IfOk result (λ f. f ≡ map rechunked self.now) }
        ensures err { IfErr result IsNoMemory }
    {
        let mut columns = Vec::with_capacity(*self.columns.allocator(), self.columns.len())?;
        for column in &self.columns {
            columns.push(column.rechunk()?)?;
        }
        Ok(DataFrame { columns })
    }

    /// The same frame. Copies all rows.
    pub fn try_clone(&self) -> PolarsResult<DataFrame>
        ensures ok { IfOk result (λ f. f ≡ self.now) }
        ensures err { IfErr result IsNoMemory }
    {
        let mut columns = Vec::with_capacity(*self.columns.allocator(), self.columns.len())?;
        for column in &self.columns {
            columns.push(column.try_clone()?)?;
        }
        Ok(DataFrame { columns })
    }

    /// Whether all columns have chunks of the same lengths. It lists the lengths of each column, which
    /// takes memory.
    pub fn is_aligned(&self) -> PolarsResult<bool>
        ensures ok { IfOk result (λ aligned. aligned ≡ are_aligned self.now) }
        ensures err { IfErr result IsNoMemory }
    {
        have_equal_chunks(&self.columns)
    }

    // The lengths of the first column's chunks, none without columns.
    pub(crate) fn chunk_lengths(&self) -> PolarsResult<Vec<usize>>
        ensures ok { IfOk result (λ lengths. lengths.items ≡ frame_chunks self.now) }
        ensures sum { sum (frame_chunks self.now) ≡ frame_height self.now }
        ensures err { IfErr result IsNoMemory }
    {
        match self.columns.first() {
            Some(column) => {
                // It tells that the chunks are all rows.
                let _ = column.len();
                column.chunk_lengths()
            }
            None => Ok(Vec::new(*self.columns.allocator())),
        }
    }

    // So many rows from a row on, with no flags. Copies them.
    pub(crate) fn part(&self, start: usize, len: usize) -> PolarsResult<DataFrame>
        requires { start < 2 ^ 63 }
        ensures ok { IfOk result (λ f. f ≡ map (part_at start len) self.now) }
        ensures err { IfErr result IsNoMemory }
    {
        let mut columns = Vec::with_capacity(*self.columns.allocator(), self.columns.len())?;
        for column in &self.columns {
            columns.push(part_of(column, start, len)?)?;
        }
        Ok(DataFrame { columns })
    }

    /// Puts the rows of another frame behind these, as chunks of their own: no cell is copied. The other's
    /// columns have these names and types, in this order.
    pub fn append_chunk(&mut self, other: DataFrame) -> PolarsResult<()>
        requires { frame_height self.old + frame_height other < 2 ^ 63 }
        ensures ok { OnOk result (self.new ≡ appended_frame self.old other) }
        ensures sound { OnOk result (append_fault self.old other ≡ None) }
        ensures err { IfErr result (λ e. Explains e (append_fault self.old other)) }
        ensures unchanged { OnErr result (self.new ≡ self.old) }
    {
        refuse_unlike(&self.columns, &other.columns)?;
        let DataFrame { columns } = other;
        append_all(&mut self.columns, columns)
    }

    /// Copies of the columns of these names, in the order of the names. The names are looked at before
    /// anything is copied.
    pub fn select_columns(&self, names: &[PlSmallStr]) -> PolarsResult<Vec<Column>>
        ensures ok { let found = map (find_column self.now) (map name_of names.now) in
            IfOk result (λ columns. map Some (map value_of columns.items) ≡ found) }
        ensures sound { let fault = select_fault self.now (map name_of names.now) in
            IfOk result (λ _. fault ≡ None) }
        ensures err { let fault = select_fault self.now (map name_of names.now) in
            IfErr result (λ e. Explains e fault) }
    {
        find_all(&self.columns, names)?;
        if let Some(name) = repeated(*self.columns.allocator(), names)? {
            return Err(PolarsError::Duplicate(name.try_clone()?));
        }
        Ok(copies_of(&self.columns, names, *self.columns.allocator())?)
    }
}

// The length of the first column, 0 without columns.
fn height_of(columns: &Vec<Series>) -> usize
    ensures value { result ≡ frame_height (map value_of columns.now.items) }
    ensures small { result < 2 ^ 63 }
{
    match columns.first() {
        Some(column) => column.len(),
        None => 0,
    }
}

// Whether all columns have a length.
pub(crate) fn all_have_length(columns: &[Series], height: usize) -> bool
    ensures { result ≡ are_all_long height (map value_of columns.now) }
{
    for column in columns {
        if column.len() != height {
            return false;
        }
    }
    true
}

// The first name that stood before.
pub(crate) fn repeated_name(columns: &Vec<Series>) -> PolarsResult<Option<&PlSmallStr>>
    ensures ok { let names = names_of (map value_of columns.now.items) in
        IfOk result (λ name. option_map (λ n. name_of n.now) name ≡ first_repeated names) }
    ensures err { IfErr result IsNoMemory }
{
    let mut seen = NameSet::new(*columns.allocator());
    for column in columns {
        if !seen.insert(column.name().as_str())? {
            return Ok(Some(column.name()));
        }
    }
    Ok(None)
}

// Where the first column of this name stands.
fn position_of(columns: &[Series], name: &str) -> Option<usize>
    ensures within { IfSome result (λ place. place < length columns.now) }
    ensures some { let frame = map value_of columns.now in
        IfSome result (λ place. slice_get frame place ≡ find_column frame name.now) }
    ensures none { IfNone result (find_column (map value_of columns.now) name.now ≡ None) }
{
    for (place, column) in columns.iter().enumerate() {
        if column.name().as_str() == name {
            return Some(place);
        }
    }
    None
}

// Whether all columns have chunks of the same lengths.
fn have_equal_chunks(columns: &[Series]) -> PolarsResult<bool>
    ensures ok { IfOk result (λ same. same ≡ are_aligned (map value_of columns.now)) }
    ensures err { IfErr result IsNoMemory }
{
    match columns.split_first() {
        Some((first, rest)) => all_have_chunks(rest, first.chunk_lengths()?.as_slice()),
        None => Ok(true),
    }
}

// Whether all columns have chunks of these lengths.
fn all_have_chunks(columns: &[Series], lengths: &[usize]) -> PolarsResult<bool>
    ensures ok { let all = are_all_chunked lengths.now (map value_of columns.now) in
        IfOk result (λ have. have ≡ all) }
    ensures err { IfErr result IsNoMemory }
{
    for column in columns {
        let same = column.chunk_lengths()?.as_slice() == lengths;
        if !same {
            return Ok(false);
        }
    }
    Ok(true)
}

// Refuses the first of the names that no column has.
fn find_all(columns: &[Series], names: &[PlSmallStr]) -> PolarsResult<()>
    ensures ok { let fault = first_missing (map value_of columns.now) (map name_of names.now) in
        OnOk result (fault ≡ None) }
    ensures err { let fault = first_missing (map value_of columns.now) (map name_of names.now) in
        IfErr result (λ e. Explains e fault) }
{
    for name in names {
        named_column(columns, name)?;
    }
    Ok(())
}

// Copies of the columns of these names, in the order of the names.
fn copies_of(columns: &[Series], names: &[PlSmallStr], alloc: Global) -> PolarsResult<Vec<Series>>
    ensures ok { let found = map (find_column (map value_of columns.now)) (map name_of names.now) in
        IfOk result (λ copies. map Some (map value_of copies.items) ≡ found) }
    ensures sound { let fault = first_missing (map value_of columns.now) (map name_of names.now) in
        IfOk result (λ _. fault ≡ None) }
    ensures err { let fault = first_missing (map value_of columns.now) (map name_of names.now) in
        IfErr result (λ e. Explains e fault) }
{
    let mut copies = Vec::with_capacity(alloc, names.len())?;
    for name in names {
        copies.push(named_column(columns, name)?.try_clone()?)?;
    }
    Ok(copies)
}

// The column of this name.
fn named_column<'a>(columns: &'a [Series], name: &PlSmallStr) -> PolarsResult<&'a Series>
    ensures ok { let found = find_column (map value_of columns.now) (name_of name.now) in
        IfOk result (λ column. found ≡ Some (value_of column.now)) }
    ensures err { let fault = missing_column (map value_of columns.now) (name_of name.now) in
        IfErr result (λ e. Explains e fault) }
{
    match position_of(columns, name.as_str()) {
        Some(place) => Ok(&columns[place]),
        None => Err(PolarsError::ColumnNotFound(name.try_clone()?)),
    }
}
