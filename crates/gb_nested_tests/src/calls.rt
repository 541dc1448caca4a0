//! Each call of the trait of columns once on a column of each kind: a row that is no null, and a null.

ghost use Rattle.gb_cols.specs.Column.{ReadsCells};

use crate::makers::{holds, twice, two_arrays, two_lists, two_structs};
use gb_base::data_type::IsSorted;
use gb_base::error::PolarsResult;
use gb_base::small_str::PlSmallStr;
use gb_cols::series_trait::SeriesTrait;
use gb_series::nested::array::ArrayChunked;
use gb_series::nested::list::ListChunked;
use gb_series::nested::structs::StructChunked;
use std::test::Fail;

// Whether the cell of a row has a text.
fn writes<C: SeriesTrait>(column: &C, row: usize, text: &str) -> bool {
    if row >= column.len() {
        return false;
    }
    let mut cell = Vec::new(column.allocator());
    match column.write_cell(row, "-", &mut cell) {
        Ok(()) => cell.as_slice() == text.as_bytes(),
        Err(_) => false,
    }
}

fn has_lengths<C: SeriesTrait>(column: &C, wanted: &[usize]) -> bool {
    match column.chunk_lengths() {
        Ok(lengths) => lengths.as_slice() == wanted && column.n_chunks() == wanted.len(),
        Err(_) => false,
    }
}

fn has_a_null<C: SeriesTrait>(column: &C) -> bool {
    column.len() == 2
        && !column.is_empty()
        && column.has_nulls()
        && column.null_count() == 1
        && column.is_valid(0)
        && !column.is_valid(1)
        && column.first_non_null() == Some(0)
        && column.last_non_null() == Some(0)
}

// What holds others is in no order.
fn has_no_order<C: SeriesTrait>(column: &C) -> bool {
    let order = column.order();
    !order.ascending
        && !order.descending
        && column.is_sorted_flag() == IsSorted::Not
        && !column.is_sorted_ascending_flag()
        && !column.is_sorted_descending_flag()
        && !column.is_sorted_any()
        && !column.check_sorted(IsSorted::Ascending)
        && column.detect_sorted() == IsSorted::Not
}

// Whether columns that are made of this one have its rows.
fn copies<C: SeriesTrait>(column: &C, text: &str) -> bool {
    column.len() == 2
        && holds(
            column.take(&[1, 0]),
            |c| writes(c, 0, "-") && writes(c, 1, text),
        )
        && holds(column.slice(-2, 1), |c| c.len() == 1 && writes(c, 0, text))
        && holds(
            column.rechunk(),
            |c| has_lengths(c, &[2]) && writes(c, 0, text),
        )
        && holds(
            column.new_from_index(0, 3),
            |c| c.len() == 3 && writes(c, 2, text),
        )
}

fn renamed<C: SeriesTrait>(column: &C) -> PolarsResult<C> {
    let name = PlSmallStr::from_str(column.allocator(), "other")?;
    let mut copy = column.try_clone()?;
    copy.rename(name);
    copy.set_sorted_flag(IsSorted::Not);
    Ok(copy)
}

fn with_null<C: SeriesTrait>(column: &C) -> PolarsResult<C> {
    let mut copy = column.try_clone()?;
    if copy.len() < 9 {
        copy.push_null()?;
    }
    Ok(copy)
}

fn with_cell<C: SeriesTrait>(column: &C, cell: &[u8]) -> PolarsResult<C>
    requires { ReadsCells (C.value column.now).dtype }
{
    let mut copy = column.try_clone()?;
    if copy.len() < 9 {
        copy.push_cell(cell, false, "-")?;
    }
    Ok(copy)
}

// Whether columns that were changed have what was changed, and the rest of this one.
fn changes<C: SeriesTrait>(column: &C, text: &str) -> bool {
    holds(
        renamed(column),
        |c| c.name().as_str() == "other" && writes(c, 0, text),
    ) && holds(with_null(column), |c| c.len() == 3 && writes(c, 2, "-"))
        && holds(
            twice(column),
            |c| has_lengths(c, &[2, 2]) && writes(c, 2, text),
        )
}

// Of the cells of a table only the null word reads.
fn reads_nulls<C: SeriesTrait>(column: &C) -> bool
    requires { ReadsCells (C.value column.now).dtype }
{
    column.reads_cell(b"-", false, "-")
        && !column.reads_cell(b"[1]", false, "-")
        && holds(
            with_cell(column, b"-"),
            |c| c.len() == 3 && writes(c, 2, "-"),
        )
        && holds(with_cell(column, b"[1]"), |c| c.len() == 2)
}

fn answers<C: SeriesTrait>(column: &C, name: &str, text: &str) -> bool
    requires { ReadsCells (C.value column.now).dtype }
{
    column.name().as_str() == name
        && column.dtype().is_ok()
        && has_lengths(column, &[2])
        && writes(column, 0, text)
        && writes(column, 1, "-")
        && has_a_null(column)
        && has_no_order(column)
        && copies(column, text)
        && changes(column, text)
        && reads_nulls(column)
}

fn list_answers(column: &ListChunked) -> bool {
    column.tell_type();
    answers(column, "l", "[1,2]")
}

fn array_answers(column: &ArrayChunked) -> bool {
    column.tell_type();
    answers(column, "r", "[1,null]")
}

fn struct_answers(column: &StructChunked) -> bool {
    column.tell_type();
    answers(column, "s", "[[1,2],\"a\\\"\"]")
}

#[test]
fn calls_on_each_kind(rt: HostRuntime) -> Result<(), Fail> {
    assert!(rt; holds(two_lists(rt.alloc()), list_answers));
    assert!(rt; holds(two_arrays(rt.alloc()), array_answers));
    assert!(rt; holds(two_structs(rt.alloc()), struct_answers));
    Ok(())
}
