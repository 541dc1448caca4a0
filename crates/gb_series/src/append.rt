//! The columns of a frame behind those of another, all of them or none.

ghost use Rattle.std.specs.Prelude.{◌≡◌, true, length, map, None, Some, IfErr, IfSome, IfNone, IfOk, OnOk, OnErr};
ghost use Rattle.gb_defs.specs.Column.{UsesAll};
ghost use Rattle.gb_defs.specs.Fault.{SchemaMismatch};
ghost use Rattle.gb_base.specs.PlSmallStr.{IsNoMemory};
ghost use Rattle.gb_base.specs.PolarsError.{Explains};
ghost use Rattle.gb_series.specs.Append.{AreMarksOf, CanAppend, CanUndo, CanUndoFrom, IsMarkOf, append_fault, appended_frame, are_named_alike as are_all_named_alike, type_fault, undone, undone_from};
ghost use Rattle.gb_series.specs.Series.{value_of};

use crate::same_type::{same_name, same_type};
use crate::series::Series;
use gb_base::data_type::IsSorted;
use gb_base::error::{PolarsError, PolarsResult};
use gb_cols::series_trait::SeriesTrait;
use gb_cols::undo_append::UndoAppend;
use std::alloc::Global;

// What a column is taken back to: its chunks, so many, and its flags.
#[derive(Clone, Copy)]
pub(crate) struct Mark {
    chunks: usize,
    sorted: IsSorted,
    uses_all: bool,
}

// The mark of a column as it is.
fn mark_of(column: &Series) -> Mark
    ensures { IsMarkOf (value_of column.now) result }
{
    // It tells that the chunks are all rows.
    let _ = column.len();
    Mark {
        chunks: column.n_chunks(),
        sorted: column.is_sorted_flag(),
        uses_all: column.uses_all(),
    }
}

// Takes a column back to a mark. It takes no memory.
fn undo(column: &mut Series, mark: Mark)
    requires { CanUndo mark (value_of column.old) }
    ensures { value_of column.new ≡ undone mark (value_of column.old) }
{
    column.keep_chunks(mark.chunks);
    column.set_sorted_flag(mark.sorted);
    if mark.uses_all {
        note_all_used(column);
    }
}

// Notes that every code of a column of categories occurs.
#[tactic(auto, using(crate::proofs::AppendLemmas::uses_flat))]
fn note_all_used(column: &mut Series)
    requires { let c = value_of column.old in UsesAll c.dtype c.slots }
    ensures { value_of column.new ≡ record (value_of column.old) { all_used = true } }
{
    column.tell_variant();
    match column {
        Series::Flat(column) => column.note_all_used(),
        // No other type has codes.
        _ => unreachable!(),
    }
}

// ---- why columns are not put behind others

// Refuses columns that are not as many as the others, or have other names or types at their places.
pub(crate) fn refuse_unlike(columns: &[Series], others: &[Series]) -> PolarsResult<()>
    ensures ok { let fault = append_fault (map value_of columns.now) (map value_of others.now) in
        OnOk result (fault ≡ None) }
    ensures err { let fault = append_fault (map value_of columns.now) (map value_of others.now) in
        IfErr result (λ e. Explains e fault) }
{
    if !are_named_alike(columns, others) {
        return Err(PolarsError::ShapeMismatch);
    }
    match first_unlike(columns, others) {
        Some(column) => Err(PolarsError::SchemaMismatch(column.name().try_clone()?)),
        None => Ok(()),
    }
}

// Whether the columns are as many as the others, and have their names.
fn are_named_alike(columns: &[Series], others: &[Series]) -> bool
    ensures { let frame = map value_of columns.now in
        result ≡ are_all_named_alike frame (map value_of others.now) }
{
    if columns.len() != others.len() {
        return false;
    }
    for (place, column) in columns.iter().enumerate() {
        if !same_name(column, &others[place]) {
            return false;
        }
    }
    true
}

// The first column that has another type than that of the others at its place.
fn first_unlike<'a>(columns: &'a [Series], others: &[Series]) -> Option<&'a Series>
    requires { length columns.now ≡ length others.now }
    ensures some { let fault = type_fault (map value_of columns.now) (map value_of others.now) in
        IfSome result (λ c. fault ≡ Some (SchemaMismatch (value_of c.now).name)) }
    ensures none { let fault = type_fault (map value_of columns.now) (map value_of others.now) in
        IfNone result (fault ≡ None) }
{
    for (place, column) in columns.iter().enumerate() {
        if !same_type(column, &others[place]) {
            return Some(column);
        }
    }
    None
}

// ---- all columns

// Puts each of the others behind the column at its place. Where memory is wanting, the columns are as
// they were.
pub(crate) fn append_all(columns: &mut Vec<Series>, others: Vec<Series>) -> PolarsResult<()>
    requires { CanAppend (map value_of columns.old.items) (map value_of others.items) }
    ensures ok { let frame = map value_of columns.old.items in
        OnOk result
        (map value_of columns.new.items ≡ appended_frame frame (map value_of others.items)) }
    ensures err { IfErr result IsNoMemory }
    ensures unchanged { OnErr result
        (map value_of columns.new.items ≡ map value_of columns.old.items) }
{
    let marks = marks_of(columns, *columns.allocator())?;
    append_each(columns, others, &marks)
}

// The marks of all columns.
fn marks_of(columns: &[Series], alloc: Global) -> PolarsResult<Vec<Mark>>
    ensures ok { IfOk result (λ marks. AreMarksOf (map value_of columns.now) marks.items) }
    ensures err { IfErr result IsNoMemory }
{
    let mut marks = Vec::with_capacity(alloc, columns.len())?;
    for column in columns {
        marks.push(mark_of(column))?;
    }
    Ok(marks)
}

// Puts each of the others behind the column at its place, from the last on. Where memory is wanting, the
// columns are taken back to their marks.
fn append_each(
    columns: &mut Vec<Series>,
    mut others: Vec<Series>,
    marks: &[Mark],
) -> PolarsResult<()>
    requires fit { CanAppend (map value_of columns.old.items) (map value_of others.items) }
    requires marks { AreMarksOf (map value_of columns.old.items) marks.now }
    ensures ok { let frame = map value_of columns.old.items in
        OnOk result
        (map value_of columns.new.items ≡ appended_frame frame (map value_of others.items)) }
    ensures err { IfErr result IsNoMemory }
    ensures unchanged { OnErr result
        (map value_of columns.new.items ≡ map value_of columns.old.items) }
{
    while let Some(other) = others.pop() {
        let place = others.len();
        if let Err(e) = columns[place].append(other) {
            undo_from(columns, place + 1, marks);
            return Err(e);
        }
    }
    Ok(())
}

// Takes the columns from a place on back to their marks.
fn undo_from(columns: &mut Vec<Series>, start: usize, marks: &[Mark])
    requires { CanUndoFrom start marks.now (map value_of columns.old.items) }
    ensures { map value_of columns.new.items
        ≡ undone_from start marks.now (map value_of columns.old.items) }
{
    for place in start..columns.len() {
        undo(&mut columns[place], marks[place]);
    }
}
