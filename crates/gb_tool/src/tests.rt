//! `run` over devices in memory, once for each way in which it may end.

ghost use Rattle.std.specs.Prelude.{◌≤◌};

use gb_base::device::{Failed, Gate, Source};
use gb_base::memory::{FreeGate, MemSink, SoundSource};
use gb_run::limits::Limits;
use gb_run::run::run;
use gb_text::status::{Status, TableError, TableFault};
use std::alloc::Global;
use std::test::Fail;
use std::thread::Threads;

const DAYS: &str =
    "date,temp:i64\n2020-08-21,20\n2020-08-21,10\n2020-08-22,7\n2020-08-23,9\n2020-08-22,1\n";

const SUMS: &str = "group --by date --agg sum:temp --agg count:temp";

/// A source that fails at each call.
#[derive(Drop)]
struct FailingSource {
    faults: u64,
}

impl Source for FailingSource {
    ghost use Rattle.std.specs.Prelude.{None};

    ghost left = { λ _. None };

    ghost faults = { λ s. s.faults };

    fn read(&mut self, _room: &mut [u8]) -> Result<usize, Failed> {
        self.faults = self.faults.saturating_add(1);
        Err(Failed)
    }
}

/// A source that tells its bytes.
pub(crate) fn source_of(alloc: Global, input: &[u8]) -> Result<SoundSource, Fail> {
    Ok(SoundSource::new(Vec::from_slice(alloc, input)?))
}

// How a run of these words ends, through a gate that holds nothing up.
fn status_of<R: Threads + Sync, S: Source>(
    rt: &R,
    alloc: Global,
    words: &str,
    limit: u64,
    source: &mut S,
    sink: &mut MemSink,
) -> Result<Status, Fail>
    requires { limit ≤ 4294967295 }
{
    status_through(rt, alloc, words, limit, source, sink, &FreeGate)
}

/// How a run of these words ends, through this gate.
pub(crate) fn status_through<R: Threads + Sync, S: Source, G: Gate + Sync>(
    rt: &R,
    alloc: Global,
    words: &str,
    limit: u64,
    source: &mut S,
    sink: &mut MemSink,
    gate: &G,
) -> Result<Status, Fail>
    requires { limit ≤ 4294967295 }
{
    let mut spelled = Vec::new(alloc);
    for word in words.split(' ') {
        spelled.push(String::from_str(alloc, word)?)?;
    }
    let mut notes = MemSink::new(alloc, 0, 1, Vec::new(alloc))?;
    let limits = Limits {
        input_bytes: limit,
        salt: 0,
    };
    Ok(run(
        rt,
        alloc,
        spelled.as_slice(),
        limits,
        source,
        sink,
        &mut notes,
        gate,
    ))
}

/// Words, an input, the exit status and what is written.
struct Row {
    words: &'static str,
    input: &'static str,
    code: u8,
    wrote: &'static str,
}

const ROWS: [Row; 17] = [
    Row {
        words: "group --by k --agg sum:v",
        input: "k:i128,v:i32\n1,5\n4294967297,6\n1,7\n",
        code: 0,
        wrote: "k:i128,v_sum:i32\n1,12\n4294967297,6\n",
    },
    Row {
        words: "group --by k --agg sum:v",
        input: "k,v:i32\nx,2147483647\nx,1\n",
        code: 0,
        wrote: "k:str,v_sum:i32\nx,-2147483648\n",
    },
    Row {
        words: SUMS,
        input: DAYS,
        code: 0,
        wrote: "date:str,temp_sum:i64,temp_count:u32\n2020-08-21,30,2\n2020-08-22,8,2\n2020-08-23,9,1\n",
    },
    Row {
        words: "group --by k --agg sum:v",
        input: "k:i64,v:i64\n,5\n1,6\n,7\n",
        code: 0,
        wrote: "k:i64,v_sum:i64\n,12\n1,6\n",
    },
    Row {
        words: "group --by k --agg sum:v",
        input: "k,v:i64\n,5\n1,6\n,7\n",
        code: 0,
        wrote: "k:str,v_sum:i64\n,12\n1,6\n",
    },
    Row {
        words: "group --by k --agg sum:v",
        input: "k,v:i64\n",
        code: 0,
        wrote: "k:str,v_sum:i64\n",
    },
    Row {
        words: SUMS,
        input: "date,temp:i64\n2020-08-21,20\n2020-08-22,",
        code: 0,
        wrote: "date:str,temp_sum:i64,temp_count:u32\n2020-08-21,20,1\n2020-08-22,0,1\n",
    },
    Row {
        words: SUMS,
        input: "date,temp:i64",
        code: 0,
        wrote: "date:str,temp_sum:i64,temp_count:u32\n",
    },
    Row {
        words: "group --by date --agg sum:temp --agg min:temp --agg count:temp",
        input: DAYS,
        code: 0,
        wrote: "date:str,temp_sum:i64,temp_min:i64,temp_count:u32\n2020-08-21,30,10,2\n2020-08-22,8,1,2\n2020-08-23,9,9,1\n",
    },
    Row {
        words: "group --by date --agg groups --agg list:temp --agg n_unique:temp",
        input: DAYS,
        code: 0,
        wrote: "date:str,groups:list[u32],temp_agg_list:list[i64],temp_n_unique:u32\n2020-08-21,\"[0,1]\",\"[20,10]\",2\n2020-08-22,\"[2,4]\",\"[7,1]\",2\n2020-08-23,[3],[9],1\n",
    },
    Row {
        words: "group --by g --agg min:c",
        input: "g:i32,c:lexcat\n1,b\n1,a\n",
        code: 0,
        wrote: "g:i32,c_min:lexcat\n1,a\n",
    },
    Row {
        words: "group --by g --agg min:c",
        input: "g:i32,c:cat\n1,b\n1,a\n",
        code: 0,
        wrote: "g:i32,c_min:cat\n1,b\n",
    },
    Row {
        words: "group --by k --agg sum:b --agg min:b --agg valid:b",
        input: "k,b:bool\nx,true\nx,\nx,true\nx,false\n",
        code: 0,
        wrote: "k:str,b_sum:u32,b_min:bool,b_count:u32\nx,2,false,3\n",
    },
    Row {
        words: "group --by day",
        input: DAYS,
        code: 4,
        wrote: "",
    },
    Row {
        words: "group --null - --agg sum:v --workers 2 --explain --by k",
        input: "k,v:i64\n-,5\n1,-\n-,7\n",
        code: 0,
        wrote: "k:str,v_sum:i64\n-,12\n1,0\n",
    },
    Row {
        words: "group --by date --workers 65",
        input: DAYS,
        code: 2,
        wrote: "",
    },
    Row {
        words: "group",
        input: DAYS,
        code: 2,
        wrote: "",
    },
];

#[test]
fn rows_end_as_they_say(rt: HostRuntime) -> Result<(), Fail> {
    for row in &ROWS {
        let mut source = source_of(rt.alloc(), row.input.as_bytes())?;
        let mut sink = MemSink::new(rt.alloc(), 4096, 4096, Vec::new(rt.alloc()))?;
        let status = status_of(&rt, rt.alloc(), row.words, 4096, &mut source, &mut sink)?;
        assert_eq!(rt; status.code(), row.code);
        assert_eq!(rt; sink.bytes(), row.wrote.as_bytes());
    }
    Ok(())
}

/// A type's word, the ends of its range, and the numbers one past them.
struct Range {
    word: &'static str,
    least: &'static str,
    greatest: &'static str,
    below: &'static str,
    above: &'static str,
}

const RANGES: [Range; 9] = [
    Range {
        word: "u8",
        least: "0",
        greatest: "255",
        below: "-1",
        above: "256",
    },
    Range {
        word: "u16",
        least: "0",
        greatest: "65535",
        below: "-1",
        above: "65536",
    },
    Range {
        word: "u32",
        least: "0",
        greatest: "4294967295",
        below: "-1",
        above: "4294967296",
    },
    Range {
        word: "u64",
        least: "0",
        greatest: "18446744073709551615",
        below: "-1",
        above: "18446744073709551616",
    },
    Range {
        word: "i8",
        least: "-128",
        greatest: "127",
        below: "-129",
        above: "128",
    },
    Range {
        word: "i16",
        least: "-32768",
        greatest: "32767",
        below: "-32769",
        above: "32768",
    },
    Range {
        word: "i32",
        least: "-2147483648",
        greatest: "2147483647",
        below: "-2147483649",
        above: "2147483648",
    },
    Range {
        word: "i64",
        least: "-9223372036854775808",
        greatest: "9223372036854775807",
        below: "-9223372036854775809",
        above: "9223372036854775808",
    },
    Range {
        word: "i128",
        least: "-170141183460469231731687303715884105728",
        greatest: "170141183460469231731687303715884105727",
        below: "-170141183460469231731687303715884105729",
        above: "170141183460469231731687303715884105728",
    },
];

// The rows have both ends as keys and as values; each sum but one goes past an end.
fn groups_as_it_wraps<R: Threads + Sync>(
    rt: &R,
    alloc: Global,
    range: &Range,
    words: &str,
) -> Result<bool, Fail> {
    let (word, least, greatest) = (range.word, range.least, range.greatest);
    let head = format!(in alloc; "k:{word},v:{word}\n{least},{greatest}\n{greatest},1\n")?;
    let input = format!(in alloc; "{head}{least},1\n,{least}\n,\n{greatest},\n")?;
    let first = format!(in alloc; "k:{word},v_sum:{word},v_count:u32\n{least},{least},2\n")?;
    let wanted = format!(in alloc; "{first}{greatest},1,2\n,{least},2\n")?;
    let mut source = source_of(alloc, input.as_bytes())?;
    let mut sink = MemSink::new(alloc, 4096, 4096, Vec::new(alloc))?;
    let status = status_of(rt, alloc, words, 4096, &mut source, &mut sink)?;
    Ok(status.code() == 0 && sink.bytes() == wanted.as_bytes())
}

// Whether a cell of the type is refused at its place.
fn is_refused<R: Threads + Sync>(
    rt: &R,
    alloc: Global,
    word: &str,
    cell: &str,
) -> Result<bool, Fail> {
    let input = format!(in alloc; "a,k:{word}\nx,1\ny,{cell}\n")?;
    let mut source = source_of(alloc, input.as_bytes())?;
    let mut sink = MemSink::new(alloc, 4096, 4096, Vec::new(alloc))?;
    let status = status_of(rt, alloc, "group --by a", 4096, &mut source, &mut sink)?;
    Ok(matches!(status, Status::Table(TableFault::BadCell(2, 2))))
}

#[test]
fn each_number_type(rt: HostRuntime) -> Result<(), Fail> {
    let alloc = rt.alloc();
    let alone = "group --by k --agg sum:v --agg count:v";
    let four = "group --by k --agg sum:v --agg count:v --workers 4 --threshold 1";
    for range in &RANGES {
        assert!(rt; groups_as_it_wraps(&rt, alloc, range, alone)?);
        assert!(rt; groups_as_it_wraps(&rt, alloc, range, four)?);
        assert!(rt; is_refused(&rt, alloc, range.word, range.below)?);
        assert!(rt; is_refused(&rt, alloc, range.word, range.above)?);
    }
    Ok(())
}

/// A table's bytes and its fault.
struct BadTable {
    input: &'static [u8],
    fault: TableFault,
}

const BAD_TABLES: [BadTable; 12] = [
    BadTable {
        input: b"",
        fault: TableFault::NoHeader,
    },
    BadTable {
        input: b"\n\n",
        fault: TableFault::NoHeader,
    },
    BadTable {
        input: b"\xff",
        fault: TableFault::BadCell(0, 1),
    },
    BadTable {
        input: b"a\n\xff\n",
        fault: TableFault::BadCell(1, 1),
    },
    BadTable {
        input: b"a:i64,a\n1,2\n",
        fault: TableFault::SameName(2),
    },
    BadTable {
        input: b"a,b:cat\nx,\xFF\n",
        fault: TableFault::BadCell(1, 2),
    },
    BadTable {
        input: b"a,a,b:i32\n",
        fault: TableFault::SameName(2),
    },
    BadTable {
        input: b"a,b\n1\n",
        fault: TableFault::Ragged(1, 1, 2),
    },
    BadTable {
        input: b"a,b:i64\nx,1\n\ny,2\nz,3,4\nw,v\n",
        fault: TableFault::Ragged(3, 3, 2),
    },
    BadTable {
        input: b"a,b:i64\n\"x\n\",1\ny,12z\n",
        fault: TableFault::BadCell(2, 2),
    },
    BadTable {
        input: b"a:i64\n9223372036854775807\n9223372036854775808\n",
        fault: TableFault::BadCell(2, 1),
    },
    BadTable {
        input: b"date,temp:i64\n2020-08-21,20\n2020-08",
        fault: TableFault::Ragged(2, 1, 2),
    },
];

#[test]
fn bad_tables_tell_the_place(rt: HostRuntime) -> Result<(), Fail> {
    for row in &BAD_TABLES {
        let mut source = source_of(rt.alloc(), row.input)?;
        let mut sink = MemSink::new(rt.alloc(), 4096, 4096, Vec::new(rt.alloc()))?;
        let words = "group --by a";
        let status = status_of(&rt, rt.alloc(), words, 4096, &mut source, &mut sink)?;
        let told = match status {
            Status::Table(fault) => Some(fault),
            _ => None,
        };
        assert_eq!(rt; told, Some(row.fault));
        assert!(rt; sink.bytes().is_empty());
    }
    Ok(())
}

#[test]
fn table_errors_print_their_lines(rt: HostRuntime) -> Result<(), Fail> {
    let rows = [
        (TableFault::NoHeader, "table: no header"),
        (TableFault::SameName(2), "table: column 2: name used before"),
        (
            TableFault::Ragged(5, 1, 2),
            "table: row 5: 1 fields, 2 wanted",
        ),
        (
            TableFault::BadCell(1, 3),
            "table: row 1, column 3: bad cell",
        ),
    ];
    for (fault, line) in rows {
        let error = TableError::Fault(fault);
        let printed = format!(in rt.alloc(); "{error}")?;
        assert_eq!(rt; printed.as_str(), line);
    }
    let error = TableError::NoMemory;
    let printed = format!(in rt.alloc(); "{error}")?;
    assert_eq!(rt; printed.as_str(), "no memory");
    Ok(())
}

/// Words of a grouping with a fault, and what its error says.
struct Faulty {
    words: &'static str,
    told: &'static str,
}

const FAULTY: [Faulty; 7] = [
    Faulty {
        words: "group --by day",
        told: "column not found: day",
    },
    Faulty {
        words: "group --by date --agg sum:date --agg sum:warmth",
        told: "column not found: warmth",
    },
    Faulty {
        words: "group --by day --agg sum:warmth",
        told: "column not found: day",
    },
    Faulty {
        words: "group --by date --agg sum:date",
        told: "invalid operation: sum of date",
    },
    Faulty {
        words: "group --by date --agg sum:temp --agg sum:temp",
        told: "duplicate column: temp_sum",
    },
    Faulty {
        words: "group --by date --by date",
        told: "duplicate column: date",
    },
    Faulty {
        words: "group --by date --agg groups --agg groups",
        told: "duplicate column: groups",
    },
];

#[test]
fn faults_are_told(rt: HostRuntime) -> Result<(), Fail> {
    for row in &FAULTY {
        let mut source = source_of(rt.alloc(), DAYS.as_bytes())?;
        let mut sink = MemSink::new(rt.alloc(), 4096, 4096, Vec::new(rt.alloc()))?;
        let status = status_of(&rt, rt.alloc(), row.words, 4096, &mut source, &mut sink)?;
        let told = match &status {
            Status::Group(error) => format!(in rt.alloc(); "{error}")?,
            _ => String::new(rt.alloc()),
        };
        assert_eq!(rt; told.as_str(), row.told);
        assert!(rt; sink.bytes().is_empty());
    }
    Ok(())
}

#[test]
fn devices_fail(rt: HostRuntime) -> Result<(), Fail> {
    let mut source = source_of(rt.alloc(), DAYS.as_bytes())?;
    let failing = Vec::from_slice(rt.alloc(), &[2])?;
    let mut sink = MemSink::new(rt.alloc(), 4096, 7, failing)?;
    let status = status_of(&rt, rt.alloc(), SUMS, 4096, &mut source, &mut sink)?;
    assert_eq!(rt; status.code(), 6);
    assert_eq!(rt; sink.bytes(), b"date:st".as_slice());

    let mut source = source_of(rt.alloc(), DAYS.as_bytes())?;
    let status = status_of(&rt, rt.alloc(), SUMS, 10, &mut source, &mut sink)?;
    assert_eq!(rt; status.code(), 7);

    let mut source = FailingSource { faults: 0 };
    let status = status_of(&rt, rt.alloc(), SUMS, 4096, &mut source, &mut sink)?;
    assert_eq!(rt; status.code(), 5);
    assert_eq!(rt; sink.bytes(), b"date:st".as_slice());
    Ok(())
}
