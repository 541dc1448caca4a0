//! Columns of lists, arrays and structs: the text of their cells, their values, and what is put behind them.

use crate::makers::{
    arrays, deep_texts, empty_lists, holds, lists, lists_of_lists, lists_twice, null_arrays,
    null_lists, structs, text_lists, two_arrays, two_lists,
};
use gb_base::any_value::AnyValue;
use gb_base::data_type::DataType;
use gb_base::error::PolarsResult;
use gb_cols::series_trait::SeriesTrait;
use gb_compare::inner::TotalEqInner;
use gb_compare::layout::IntoTotalInner;
use gb_series::nested::array::ArrayChunked;
use gb_series::nested::list::ListChunked;
use gb_series::series::Series;
use std::test::Fail;

// Whether the cell of a row has a text.
fn has_cell(column: &Series, row: usize, text: &str) -> bool {
    if row >= column.len() {
        return false;
    }
    let mut cell = Vec::new(column.allocator());
    match column.write_cell(row, "-", &mut cell) {
        Ok(()) => cell.as_slice() == text.as_bytes(),
        Err(_) => false,
    }
}

// Whether a column has the cell of a text, and then a null one.
fn has_cell_and_null(column: PolarsResult<Series>, text: &str) -> bool {
    holds(column, |c| has_cell(c, 0, text) && has_cell(c, 1, "-"))
}

#[test]
fn cells_of_lists_and_arrays(rt: HostRuntime) -> Result<(), Fail> {
    let alloc = rt.alloc();
    assert!(rt; has_cell_and_null(lists(alloc), "[1,2]"));
    assert!(rt; has_cell_and_null(empty_lists(alloc), "[]"));
    assert!(rt; has_cell_and_null(text_lists(alloc), "[\"a\\\"\",\"b\\\\\",null]"));
    assert!(rt; has_cell_and_null(arrays(alloc), "[1,null]"));
    assert!(rt; has_cell_and_null(lists_of_lists(alloc), "[[1,2],null]"));
    let deep = "[[[\"a\\\"\",\"b\\\\\",null],null],null]";
    assert!(rt; has_cell_and_null(deep_texts(alloc), deep));
    Ok(())
}

fn has_struct_cells(column: &Series) -> bool {
    has_cell(column, 0, "[[1,2],\"a\\\"\"]")
        && has_cell(column, 1, "-")
        && has_cell(column, 2, "[null,null]")
}

#[test]
fn cells_of_structs(rt: HostRuntime) -> Result<(), Fail> {
    assert!(rt; holds(structs(rt.alloc()), has_struct_cells));
    Ok(())
}

fn first_is_empty(column: &Series) -> bool {
    holds(column.slice(-2, 1), |part| has_cell(part, 0, "[]"))
}

#[test]
fn cells_of_parts(rt: HostRuntime) -> Result<(), Fail> {
    assert!(rt; holds(empty_lists(rt.alloc()), first_is_empty));
    Ok(())
}

// Whether the value of a row is a list of so many.
fn has_items(column: &Series, row: usize, count: usize) -> bool {
    if row >= column.len() {
        return false;
    }
    match column.get(row) {
        Ok(AnyValue::Items(items)) => items.as_slice().len() == count,
        _ => false,
    }
}

fn has_null_value(column: &Series, row: usize) -> bool {
    if row >= column.len() {
        return false;
    }
    match column.get(row) {
        Ok(AnyValue::Null) => true,
        _ => false,
    }
}

#[test]
fn values(rt: HostRuntime) -> Result<(), Fail> {
    let alloc = rt.alloc();
    assert!(rt; holds(lists(alloc), |c| has_items(c, 0, 2) && has_null_value(c, 1)));
    assert!(rt;
        holds(
            arrays(alloc),
            |c| has_items(c, 0, 2) && has_null_value(c, 1)
        )
    );
    assert!(rt;
        holds(
            structs(alloc),
            |c| has_items(c, 2, 2) && has_null_value(c, 1)
        )
    );
    Ok(())
}

fn rows_are_equal(column: &Series, a: usize, b: usize) -> bool {
    if a >= column.len() || b >= column.len() {
        return false;
    }
    column.eq_element(a, b)
}

// Three rows in another order, the first and the second twice.
fn rows_again(column: &Series) -> PolarsResult<Series> {
    if column.len() != 3 {
        return column.try_clone();
    }
    column.take(&[0, 2, 0, 1, 1])
}

fn tells_rows(column: &Series) -> bool {
    rows_are_equal(column, 0, 2)
        && !rows_are_equal(column, 0, 1)
        && !rows_are_equal(column, 1, 3)
        && rows_are_equal(column, 3, 4)
}

// The same by the layout of the series. What holds others has no order.
fn layout_tells_rows(column: &Series) -> bool {
    let inner = column.into_total_eq_inner();
    column.len() == 5
        && inner.eq_element(0, 2)
        && !inner.eq_element(0, 1)
        && inner.eq_element(3, 4)
        && !column.has_order()
}

fn tells_rows_again(column: &Series) -> bool {
    holds(
        rows_again(column),
        |c| tells_rows(c) && layout_tells_rows(c),
    )
}

#[test]
fn equal_rows(rt: HostRuntime) -> Result<(), Fail> {
    assert!(rt; holds(structs(rt.alloc()), tells_rows_again));
    assert!(rt; holds(arrays(rt.alloc()), |c| !c.has_order()));
    Ok(())
}

fn has_appended(column: &Series) -> bool {
    column.n_chunks() == 2
        && column.null_count() == 2
        && has_cell(column, 2, "[1,2]")
        && holds(
            column.rechunk(),
            |c| c.n_chunks() == 1 && has_cell(c, 2, "[1,2]"),
        )
}

#[test]
fn lists_behind_lists(rt: HostRuntime) -> Result<(), Fail> {
    assert!(rt; holds(lists_twice(rt.alloc()), has_appended));
    Ok(())
}

fn are_two_nulls(column: &Series) -> bool {
    column.len() == 2 && column.null_count() == 2 && column.n_chunks() == 1
}

#[test]
fn nulls_by_type(rt: HostRuntime) -> Result<(), Fail> {
    assert!(rt; holds(null_lists(rt.alloc()), are_two_nulls));
    assert!(rt; holds(null_arrays(rt.alloc()), are_two_nulls));
    Ok(())
}

// Whether what was found is a column of which a test holds.
fn found<C: Drop, F: Fn(&C) -> bool>(column: PolarsResult<Option<C>>, test: F) -> bool
    requires { F.IsAlwaysCallable test }
{
    match column {
        Ok(Some(column)) => test(&column),
        _ => false,
    }
}

fn found_none<C: Drop>(column: PolarsResult<Option<C>>) -> bool {
    matches!(column, Ok(None))
}

fn are_two_from_one(column: &Series) -> bool {
    column.len() == 2 && has_cell(column, 0, "1")
}

fn gives_lists(column: &ListChunked) -> bool {
    column.len() == 2
        && found(column.get_as_series(0), are_two_from_one)
        && found_none(column.get_as_series(1))
}

fn gives_arrays(column: &ArrayChunked) -> bool {
    column.len() == 2
        && column.width() == 2
        && found(column.get_as_series(0), are_two_from_one)
        && found_none(column.get_as_series(1))
}

#[test]
fn rows_as_series(rt: HostRuntime) -> Result<(), Fail> {
    assert!(rt; holds(two_lists(rt.alloc()), gives_lists));
    assert!(rt; holds(two_arrays(rt.alloc()), gives_arrays));
    Ok(())
}

fn has_type(column: &Series, dtype: &DataType) -> bool {
    match column.dtype() {
        Ok(found) => found == *dtype,
        Err(_) => false,
    }
}

fn are_lists_of_numbers(column: &Series) -> bool {
    match Box::new(column.allocator(), DataType::Int32) {
        Ok(items) => has_type(column, &DataType::List(items)) && !column.has_order(),
        Err(_) => false,
    }
}

#[test]
fn types_of_lists(rt: HostRuntime) -> Result<(), Fail> {
    assert!(rt; holds(lists(rt.alloc()), are_lists_of_numbers));
    Ok(())
}
