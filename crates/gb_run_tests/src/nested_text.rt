//! A word that is no type's, and the text of a frame with a column of lists.

ghost use Rattle.std.specs.Prelude.{◌≡◌, [], IfOk};
ghost use Rattle.gb_defs.specs.ColumnType.{ListOf, text};
ghost use Rattle.gb_series.specs.Series.{value_of};

use gb_base::data_type::DataType;
use gb_base::error::PolarsResult;
use gb_base::small_str::PlSmallStr;
use gb_cols::chunked::StringChunked;
use gb_cols::series_trait::SeriesTrait;
use gb_series::frame::DataFrame;
use gb_series::into_series::IntoSeries;
use gb_series::nested::list::ListChunked;
use gb_series::series::Series;
use gb_text::status::TableError;
use gb_text::table::blocks::Reading;
use gb_text::table::table_of;
use gb_text::text::text_of;
use std::alloc::Global;
use std::test::Fail;
use std::thread::Threads;

// The text `a"`, and a null.
fn texts(alloc: Global) -> PolarsResult<StringChunked>
    ensures { IfOk result (λ c. c.dtype ≡ text) }
{
    let mut column = StringChunked::new(alloc, PlSmallStr::from_str(alloc, "t")?);
    column.push(Some("a\""))?;
    column.push(None)?;
    Ok(column)
}

fn no_lists(alloc: Global) -> PolarsResult<ListChunked>
    ensures none { IfOk result (λ c. c.slots ≡ []) }
    ensures typed { IfOk result (λ c. c.dtype ≡ ListOf text) }
{
    let name = PlSmallStr::from_str(alloc, "l")?;
    let none = Series::new_empty(alloc, PlSmallStr::from_str(alloc, "t")?, DataType::String);
    Ok(ListChunked::new(alloc, name, none))
}

fn with_list(mut column: ListChunked, items: &Series) -> PolarsResult<ListChunked>
    requires none { column.slots ≡ [] }
    requires typed { ListOf (value_of items.now).dtype ≡ column.dtype }
{
    column.push(Some(items))?;
    Ok(column)
}

fn list_of(alloc: Global, items: &Series) -> PolarsResult<ListChunked>
    requires { (value_of items.now).dtype ≡ text }
{
    with_list(no_lists(alloc)?, items)
}

// One list, of the texts.
fn lists(alloc: Global) -> PolarsResult<ListChunked> {
    let items = texts(alloc)?.into_series();
    list_of(alloc, &items)
}

fn frame_of(alloc: Global) -> PolarsResult<DataFrame> {
    let mut columns = Vec::new(alloc);
    columns.push(Series::from_lists(lists(alloc)?)?)?;
    DataFrame::new(columns)
}

fn is_written<R: Threads + Sync>(
    rt: &R,
    frame: PolarsResult<DataFrame>,
    alloc: Global,
    wanted: &str,
) -> bool {
    match frame {
        Ok(frame) => match text_of(rt, alloc, &frame, "-", 1) {
            Ok(parts) => parts.len() == 1 && parts[0].as_slice() == wanted.as_bytes(),
            Err(_) => false,
        },
        Err(_) => false,
    }
}

fn is_text_column(read: Result<DataFrame, TableError>, name: &str) -> bool {
    match read {
        Ok(frame) => match frame.column(name) {
            Ok(column) => column.len() == 1 && matches!(column.dtype(), Ok(DataType::String)),
            Err(_) => false,
        },
        Err(_) => false,
    }
}

#[test]
fn texts_of_nested_frames(rt: HostRuntime) -> Result<(), Fail> {
    let alloc = rt.alloc();
    let reading = Reading {
        names: &["x:foo"],
        null_word: "-",
        workers: 1,
        block: 1,
        seed: 7,
    };
    let read = table_of(&rt, alloc, b"x:foo\n1\n", &reading);
    assert!(rt; is_text_column(read, "x:foo"));
    let wanted = "l:list[str]\n\"[\"\"a\\\"\"\"\",null]\"\n";
    assert!(rt; is_written(&rt, frame_of(alloc), alloc, wanted));
    Ok(())
}
