//! What a grouping did.

ghost use Rattle.std.specs.Prelude.{◌≡◌, length, IfOk, IfErr};
ghost use Rattle.gb_defs.specs.Groups.{HasRowNumbers, IsWellFormed};
ghost use Rattle.gb_defs.specs.Notes.{trace_of};
ghost use Rattle.gb_base.specs.PlSmallStr.{IsNoMemory};
ghost use Rattle.gb_groups.specs.GroupsType.{groups_of};
ghost use Rattle.gb_series.specs.Series.{value_of};
ghost use Rattle.gb_paths.specs.Tuples.{column_path, path_value, trace_value, tuples_of};

use crate::into_groups::group_tuples_gated;
use crate::path::{Path, plan_path};
use gb_base::device::Gate;
use gb_base::error::PolarsResult;
use gb_base::pool::Pool;
use gb_cols::series_trait::SeriesTrait;
use gb_groups::groups_type::GroupsType;
use gb_series::series::Series;
use std::fmt;
use std::thread::Threads;

/// Which way rows were grouped, how many groups there are, and how many keys went into a hash table.
#[derive(Clone, Copy, Debug, PartialEq, Eq)]
pub struct Trace {
    pub path: Path,
    pub groups: u64,
    pub keys_read: u64,
}

impl Trace {
    /// That of so many rows in so many groups.
    pub fn new(path: Path, rows: usize, groups: usize) -> Trace
        ensures { trace_value result ≡ trace_of (path_value path) rows groups }
    {
        let keys_read = match path {
            Path::Nulls => 0,
            Path::Sorted => 0,
            Path::Perfect => 0,
            Path::Table => rows as u64,
            Path::Threaded => rows as u64,
        };
        Trace {
            path,
            groups: groups as u64,
            keys_read,
        }
    }
}

impl fmt::Display for Trace {
    ghost use Rattle.std.specs.Prelude.{Some};
    ghost use Rattle.gb_defs.specs.Notes.{trace_text};
    ghost use Rattle.gb_paths.specs.Tuples.{trace_value};

    ghost output = { λ trace. Some (trace_text (trace_value trace)) };

    fn fmt<W: fmt::Write>(&self, f: &mut fmt::Formatter<W>) -> fmt::Result {
        let path = self.path;
        let groups = self.groups;
        let keys_read = self.keys_read;
        write!(f, "path {path}, groups {groups}, keys read {keys_read}")
    }
}

/// `group_tuples_gated`, and what it did.
pub fn group_tuples_traced<T: Threads + Sync, G: Gate + Sync>(
    rt: &T,
    key: &Series,
    multithreaded: bool,
    sorted: bool,
    pool: &Pool,
    gate: &G,
) -> PolarsResult<(GroupsType, Trace)>
    requires few { HasRowNumbers (length (value_of key.now).slots) }
    ensures ok { IfOk result (λ made.
        groups_of made.0 ≡ tuples_of (value_of key.now) multithreaded sorted pool.now) }
    ensures traced { let key = value_of key.now in IfOk result (λ made. trace_value made.1
        ≡ trace_of (column_path key multithreaded pool.now) (length key.slots)
        (length (groups_of made.0).pairs)) }
    ensures formed { IfOk result (λ made.
        IsWellFormed (length (value_of key.now).slots) (groups_of made.0).pairs) }
    ensures err { IfErr result IsNoMemory }
{
    let groups = group_tuples_gated(rt, key, multithreaded, sorted, pool, gate)?;
    let trace = Trace::new(plan_path(key, multithreaded, pool), key.len(), groups.len());
    Ok((groups, trace))
}
