//! Makers of columns of lists, arrays and structs. A check pays for each place where a function may let go of a
//! column that holds others: so a maker hands on what it makes, and what failed goes through `refused`.

ghost use Rattle.std.specs.Prelude.{◌≡◌, [], length, IfOk, IsErr, OnOk};
ghost use Rattle.gb_defs.specs.ColumnType.{ArrayOf, ListOf};
ghost use Rattle.gb_series.specs.Series.{value_of};

use gb_base::data_type::DataType;
use gb_base::error::{PolarsError, PolarsResult};
use gb_base::small_str::PlSmallStr;
use gb_cols::chunked::StringChunked;
use gb_cols::primitive::Int32Chunked;
use gb_cols::series_trait::SeriesTrait;
use gb_series::into_series::IntoSeries;
use gb_series::nested::array::ArrayChunked;
use gb_series::nested::list::ListChunked;
use gb_series::nested::structs::StructChunked;
use gb_series::series::Series;
use std::alloc::Global;

/// Whether a test holds of a column.
pub(crate) fn holds<C: Drop, F: Fn(&C) -> bool>(column: PolarsResult<C>, test: F) -> bool
    requires { F.IsAlwaysCallable test }
{
    match column {
        Ok(column) => test(&column),
        Err(_) => false,
    }
}

// Why a column did not grow. The column is let go.
fn refused<C: Drop>(_column: C, error: PolarsError) -> PolarsResult<C>
    ensures { IsErr result }
{
    Err(error)
}

/// A column, and its rows once more behind them.
pub(crate) fn twice<C: SeriesTrait>(column: &C) -> PolarsResult<C> {
    let mut copy = column.try_clone()?;
    if copy.len() < 9 {
        copy.append(column.try_clone()?)?;
    }
    Ok(copy)
}

fn numbers(alloc: Global, values: &[Option<i32>]) -> PolarsResult<Series> {
    let name = PlSmallStr::from_str(alloc, "items")?;
    Ok(Int32Chunked::from_slice_options(alloc, name, values)?.into_series())
}

// The texts `a"`, `b\`, and a null.
fn texts(alloc: Global) -> PolarsResult<Series> {
    let mut column = StringChunked::new(alloc, PlSmallStr::from_str(alloc, "t")?);
    column.push(Some("a\""))?;
    column.push(Some("b\\"))?;
    column.push(None)?;
    Ok(column.into_series())
}

fn two_texts(alloc: Global) -> PolarsResult<Series> {
    let column = texts(alloc)?;
    column.slice(0, 2)
}

// ---- lists

// The rows of a column as a list, and a null list, behind no lists.
fn push_lists(column: &mut ListChunked, items: &Series) -> PolarsResult<()>
    requires none { column.old.slots ≡ [] }
    requires typed { ListOf (value_of items.now).dtype ≡ column.old.dtype }
    ensures { OnOk result (length column.new.slots ≡ 2) }
{
    column.push(Some(items))?;
    column.push(None)?;
    Ok(())
}

// The rows of a column as a list, and a null list.
fn list_and_null(alloc: Global, items: &Series) -> PolarsResult<ListChunked>
    ensures { IfOk result (λ c. length c.slots ≡ 2) }
{
    let name = PlSmallStr::from_str(alloc, "l")?;
    let mut column = ListChunked::new(alloc, name, items.slice(0, 0)?);
    match push_lists(&mut column, items) {
        Ok(()) => Ok(column),
        Err(error) => refused(column, error),
    }
}

/// A list of 1, 2 and a null list.
pub(crate) fn two_lists(alloc: Global) -> PolarsResult<ListChunked>
    ensures { IfOk result (λ c. length c.slots ≡ 2) }
{
    let items = numbers(alloc, &[Some(1), Some(2)])?;
    list_and_null(alloc, &items)
}

/// A list of 1, 2 and a null list, as a series.
pub(crate) fn lists(alloc: Global) -> PolarsResult<Series>
    ensures { IfOk result (λ c. length (value_of c).slots ≡ 2) }
{
    Ok(Series::from_lists(two_lists(alloc)?)?)
}

// The rows of a column as a list, and a null list, as a series.
fn in_list(items: &Series) -> PolarsResult<Series> {
    Ok(Series::from_lists(list_and_null(items.allocator(), items)?)?)
}

/// A list without items, and a null list.
pub(crate) fn empty_lists(alloc: Global) -> PolarsResult<Series> {
    let items = numbers(alloc, &[])?;
    in_list(&items)
}

/// A list of three texts, and a null list.
pub(crate) fn text_lists(alloc: Global) -> PolarsResult<Series> {
    let items = texts(alloc)?;
    in_list(&items)
}

/// Lists of lists of numbers.
pub(crate) fn lists_of_lists(alloc: Global) -> PolarsResult<Series> {
    let items = lists(alloc)?;
    in_list(&items)
}

fn lists_of_text_lists(alloc: Global) -> PolarsResult<Series> {
    let items = text_lists(alloc)?;
    in_list(&items)
}

/// Lists of lists of lists of texts.
pub(crate) fn deep_texts(alloc: Global) -> PolarsResult<Series> {
    let items = lists_of_text_lists(alloc)?;
    in_list(&items)
}

// Three lists, of which two are null.
fn three_lists(alloc: Global) -> PolarsResult<Series> {
    let two = lists(alloc)?;
    two.take(&[0, 1, 1])
}

/// The two lists, and once more behind them.
pub(crate) fn lists_twice(alloc: Global) -> PolarsResult<Series> {
    let two = lists(alloc)?;
    twice(&two)
}

// ---- arrays

// The rows of a column as an array, and a null array, behind no arrays.
fn push_arrays(column: &mut ArrayChunked, items: &Series) -> PolarsResult<()>
    requires none { column.old.slots ≡ [] }
    requires typed { let slots = value_of items.now in
        ArrayOf slots.dtype (length slots.slots) ≡ column.old.dtype }
{
    column.push(Some(items))?;
    column.push(None)?;
    Ok(())
}

// The rows of a column as an array, and a null array.
fn array_and_null(alloc: Global, items: &Series) -> PolarsResult<ArrayChunked> {
    let name = PlSmallStr::from_str(alloc, "r")?;
    let mut column = ArrayChunked::new(alloc, name, items.slice(0, 0)?, items.len());
    match push_arrays(&mut column, items) {
        Ok(()) => Ok(column),
        Err(error) => refused(column, error),
    }
}

/// An array of 1 and a null, and a null array.
pub(crate) fn two_arrays(alloc: Global) -> PolarsResult<ArrayChunked> {
    let items = numbers(alloc, &[Some(1), None])?;
    array_and_null(alloc, &items)
}

/// An array of 1 and a null, and a null array, as a series.
pub(crate) fn arrays(alloc: Global) -> PolarsResult<Series> {
    Series::from_arrays(two_arrays(alloc)?)
}

// ---- structs

fn two_of<C: Drop>(
    alloc: Global,
    first: PolarsResult<C>,
    second: PolarsResult<C>,
) -> PolarsResult<Vec<C>> {
    let mut both = Vec::with_capacity(alloc, 2)?;
    both.push(first?)?;
    both.push(second?)?;
    Ok(both)
}

/// A struct of a list and a text, and a null one.
pub(crate) fn two_structs(alloc: Global) -> PolarsResult<StructChunked> {
    let name = PlSmallStr::from_str(alloc, "s")?;
    let present = Vec::from_slice(alloc, &[true, false])?;
    let fields = two_of(alloc, lists(alloc), two_texts(alloc))?;
    StructChunked::from_fields(name, present, fields)
}

fn three_structs(alloc: Global) -> PolarsResult<StructChunked> {
    let name = PlSmallStr::from_str(alloc, "s")?;
    let present = Vec::from_slice(alloc, &[true, false, true])?;
    let fields = two_of(alloc, three_lists(alloc), texts(alloc))?;
    StructChunked::from_fields(name, present, fields)
}

/// Structs of a list and a text: one with both, one that is null, and one of two nulls.
pub(crate) fn structs(alloc: Global) -> PolarsResult<Series> {
    Series::from_structs(three_structs(alloc)?)
}

// ---- nulls

/// Two null lists.
#[tactic(auto, using(gb_series::proofs::ColumnLemmas::lists_have_nulls))]
pub(crate) fn null_lists(alloc: Global) -> PolarsResult<Series> {
    let name = PlSmallStr::from_str(alloc, "n")?;
    let items = Box::new(alloc, DataType::Int32)?;
    Series::full_null(alloc, name, 2, DataType::List(items))
}

/// Two null arrays.
#[tactic(auto, using(gb_series::proofs::ColumnLemmas::arrays_have_nulls))]
pub(crate) fn null_arrays(alloc: Global) -> PolarsResult<Series> {
    let name = PlSmallStr::from_str(alloc, "n")?;
    let items = Box::new(alloc, DataType::Int32)?;
    Series::full_null(alloc, name, 2, DataType::Array(items, 3))
}
