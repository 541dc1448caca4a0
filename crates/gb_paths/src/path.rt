//! Which way rows are grouped: what a column's type, its flags and its length choose.

ghost use Rattle.std.specs.Prelude.{◌≡◌, ◌==◌, length};
ghost use Rattle.gb_defs.specs.Column.{IsFlagTrue};
ghost use Rattle.gb_defs.specs.Path.{ByteLists, Codes, Numbers, Sorted, hashed_path};
ghost use Rattle.gb_defs.specs.Path as path;
ghost use Rattle.gb_base.specs.Pool.{threshold_of, workers_of};
ghost use Rattle.gb_base.specs.Sorted.{flag_of};
ghost use Rattle.gb_series.specs.Series.{value_of};
ghost use Rattle.gb_runs.specs.Runs.{AreTogether};
ghost use Rattle.gb_paths.specs.Tuples.{column_path, key_path_value, ordered, path_by, path_value};

use crate::keys::{KeyColumn, KeyKind};
use gb_base::data_type::IsSorted;
use gb_base::pool::Pool;
use gb_cols::series_trait::SeriesTrait;
use gb_cols::undo_append::UndoAppend;
use gb_series::series::Series;
use std::fmt;

/// Which way rows are grouped.
#[derive(Clone, Copy, Debug, PartialEq, Eq)]
pub enum Path {
    /// All rows are one run.
    Nulls,
    /// By runs of one key.
    Sorted,
    /// By codes.
    Perfect,
    /// By one table.
    Table,
    /// By a table for each partition.
    Threaded,
}

impl fmt::Display for Path {
    ghost use Rattle.std.specs.Prelude.{Some};
    ghost use Rattle.gb_defs.specs.Notes.{path_name};
    ghost use Rattle.gb_paths.specs.Tuples.{path_value};

    ghost output = { λ path. Some (path_name (path_value path)) };

    fn fmt<W: fmt::Write>(&self, f: &mut fmt::Formatter<W>) -> fmt::Result {
        match self {
            Path::Nulls => write!(f, "nulls"),
            Path::Sorted => write!(f, "sorted"),
            Path::Perfect => write!(f, "perfect"),
            Path::Table => write!(f, "table"),
            Path::Threaded => write!(f, "threaded"),
        }
    }
}

/// Which way rows are grouped by the key of each.
#[derive(Clone, Copy, Debug, PartialEq, Eq)]
pub enum KeyPath {
    /// By one table.
    Table,
    /// By a table for each partition.
    Threaded,
}

impl From<KeyPath> for Path {
    ghost use Rattle.std.specs.Prelude.{◌≡◌};
    ghost use Rattle.gb_paths.specs.Tuples.{key_path_value, path_value};

    ghost from_gives = { λ keyed path. path_value path ≡ key_path_value keyed };

    fn from(keyed: KeyPath) -> Path {
        match keyed {
            KeyPath::Table => Path::Table,
            KeyPath::Threaded => Path::Threaded,
        }
    }
}

/// What is known of how the slots of a column stand.
#[derive(Clone, Copy, Debug, PartialEq, Eq)]
pub struct KeyOrder {
    /// The order that they are in.
    pub sorted: IsSorted,
    /// Whether the column is seen as one chunk, however many it has.
    pub whole: bool,
}

/// What a column's flag and its chunks tell.
pub fn order_of<C: KeyColumn>(column: &C) -> KeyOrder
    ensures told { ordered result (C.value column.now) ≡ C.value column.now }
    ensures holds { let c = C.value column.now in
        IsFlagTrue (flag_of result.sorted) c.dtype c.slots }
{
    KeyOrder {
        sorted: column.is_sorted_flag(),
        whole: false,
    }
}

/// The path of a column's rows.
pub fn plan_path(key: &Series, multithreaded: bool, pool: &Pool) -> Path
    ensures { path_value result ≡ column_path (value_of key.now) multithreaded pool.now }
{
    path_of(key, order_of(key), multithreaded, pool)
}

/// The path of a column's rows where they stand in an order. Those that go by runs stand together where
/// they hold one slot.
pub fn path_of<C: KeyColumn>(column: &C, order: KeyOrder, multithreaded: bool, pool: &Pool) -> Path
    requires holds { let c = C.value column.now in
        IsFlagTrue (flag_of order.sorted) c.dtype c.slots }
    ensures path { let key = ordered order (C.value column.now) in
        path_value result ≡ column_path key multithreaded pool.now }
    ensures together { path_value result ≡ Sorted → AreTogether (C.value column.now).slots }
{
    match column.key_kind() {
        KeyKind::NoValues => Path::Nulls,
        KeyKind::Numbers => number_path_of(column, order, multithreaded, pool),
        KeyKind::Codes => code_path_of(column, order, multithreaded, pool),
        KeyKind::ByteLists => byte_path_of(column, order, multithreaded, pool),
        KeyKind::Parts => Path::from(choose_path(true, column.len(), multithreaded, pool)),
    }
}

// The path of numbers, or of codes as such.
fn number_path_of<C: KeyColumn>(
    column: &C,
    order: KeyOrder,
    multithreaded: bool,
    pool: &Pool,
) -> Path
    requires holds { let c = C.value column.now in
        IsFlagTrue (flag_of order.sorted) c.dtype c.slots }
    ensures path { let key = ordered order (C.value column.now) in
        path_value result ≡ path_by Numbers key multithreaded pool.now }
    ensures together { path_value result ≡ Sorted → AreTogether (C.value column.now).slots }
{
    // The call tells that the slots fit the type.
    let rows = column.len();
    if is_flagged(order.sorted) {
        Path::Sorted
    } else {
        Path::from(choose_path(false, rows, multithreaded, pool))
    }
}

// The path of codes of categories.
fn code_path_of<C: KeyColumn>(column: &C, order: KeyOrder, multithreaded: bool, pool: &Pool) -> Path
    requires holds { let c = C.value column.now in
        IsFlagTrue (flag_of order.sorted) c.dtype c.slots }
    ensures path { let key = ordered order (C.value column.now) in
        path_value result ≡ path_by Codes key multithreaded pool.now }
    ensures together { path_value result ≡ Sorted → AreTogether (C.value column.now).slots }
{
    if column.is_empty() || column.uses_all() {
        Path::Perfect
    } else {
        number_path_of(column, order, multithreaded, pool)
    }
}

// The path of texts and other bytes.
fn byte_path_of<C: KeyColumn>(column: &C, order: KeyOrder, multithreaded: bool, pool: &Pool) -> Path
    requires holds { let c = C.value column.now in
        IsFlagTrue (flag_of order.sorted) c.dtype c.slots }
    ensures path { let key = ordered order (C.value column.now) in
        path_value result ≡ path_by ByteLists key multithreaded pool.now }
    ensures together { path_value result ≡ Sorted → AreTogether (C.value column.now).slots }
{
    let rows = column.len();
    if is_flagged(order.sorted) && !column.has_nulls() && is_whole(column, order) {
        Path::Sorted
    } else {
        Path::from(choose_path(true, rows, multithreaded, pool))
    }
}

// Whether the column has one chunk, or is seen so.
fn is_whole<C: KeyColumn>(column: &C, order: KeyOrder) -> bool
    ensures { let key = ordered order (C.value column.now) in result ≡ (length key.chunks == 1) }
{
    if order.whole {
        return true;
    }
    column.n_chunks() == 1
}

// Whether a flag says that slots are in order.
fn is_flagged(sorted: IsSorted) -> bool
    ensures { result ≡ path.is_flagged (flag_of sorted) }
{
    match sorted {
        IsSorted::Ascending => true,
        IsSorted::Descending => true,
        IsSorted::Not => false,
    }
}

/// The path of so many keys of bytes, or of numbers, in no known order: to start threads pays at many rows,
/// or where keys are long.
pub fn choose_path(by_bytes: bool, rows: usize, multithreaded: bool, pool: &Pool) -> KeyPath
    ensures { let workers = workers_of pool.now in
        let threshold = threshold_of pool.now in
        key_path_value result ≡ hashed_path by_bytes rows multithreaded workers threshold }
{
    if multithreaded && pool.workers() > 1 && (by_bytes || rows > pool.row_threshold()) {
        KeyPath::Threaded
    } else {
        KeyPath::Table
    }
}
