//! Tables that read, and faults at their places.

ghost use Rattle.std.specs.Prelude.{◌≤◌, ◌<◌, length};

use gb_base::device::{Failed, Source};
use gb_base::memory::SoundSource;
use gb_cols::series_trait::SeriesTrait;
use gb_series::frame::DataFrame;
use gb_series::series::Series;
use gb_text::status::{Status, TableError, TableFault};
use gb_text::table::blocks::{Reading, read_table};
use gb_text::table::plain::plain_table;
use gb_text::table::{csv_table, table_of};
use std::alloc::{AllocError, Global};
use std::test::Fail;
use std::thread::Threads;

// The cells of a column, with a bar before each.
fn cells_of(alloc: Global, column: &Series) -> Result<Vec<u8>, AllocError> {
    let mut shown = Vec::new(alloc);
    for row in 0..column.len() {
        shown.push(b'|')?;
        column.write_cell(row, "null", &mut shown)?;
    }
    Ok(shown)
}

fn shown(alloc: Global, frame: &DataFrame) -> Result<Vec<u8>, AllocError> {
    let mut shown = Vec::new(alloc);
    for column in frame.get_columns() {
        shown.extend_from_slice(column.name().as_str().as_bytes())?;
        shown.extend_from_slice(cells_of(alloc, column)?.as_slice())?;
        shown.push(b';')?;
    }
    Ok(shown)
}

// All names of the tables below.
const NAMES: [&str; 8] = ["date", "temp", "k", "v", "a:b", "k:i65", "c", "d"];

// How a table is read for these names by four workers.
fn reading<'a>(names: &'a [&'a str], null_word: &'a str) -> Reading<'a> {
    Reading {
        names,
        null_word,
        workers: 4,
        block: 1_048_576,
        seed: 7,
    }
}

#[test]
fn tables_and_faults(rt: HostRuntime) -> Result<(), Fail> {
    let alloc = rt.alloc();
    let cases: [(&[u8], &str, Result<&str, TableFault>); 29] = [
        (
            b"date,temp:i64\n2020-08-21,20\n2020-08-22,-7\n",
            "",
            Ok("date|2020-08-21|2020-08-22;temp|20|-7;"),
        ),
        (b"k,v:i64\n,5\n1,6\n,7\n", "", Ok("k|null|1|null;v|5|6|7;")),
        (
            b"a:b:str,k:i64\nna,na\n\"q,\"\"\",+7\n",
            "na",
            Ok("a:b|null|q,\";k|null|7;"),
        ),
        (b"\xEF\xBB\xBFk:i64\r\n9\r\n", "", Ok("k|9;")),
        (b"k:i64\n", "", Ok("k;")),
        (b"k:i65\nx", "", Ok("k:i65|x;")),
        (b"c:cat\nb\na\n-\nb\n", "-", Ok("c|b|a|null|b;")),
        (b"c:lexcat,d:cat\nb,-\n-,z\n", "-", Ok("c|b|null;d|null|z;")),
        // The header.
        (b"", "", Err(TableFault::NoHeader)),
        (b"\n\n", "", Err(TableFault::NoHeader)),
        (b"a,a:i64\n", "", Err(TableFault::SameName(2))),
        (b"k,\xFF\n", "", Err(TableFault::BadCell(0, 2))),
        (b"\xFF,k,k\n", "", Err(TableFault::BadCell(0, 1))),
        (b"k,k,v:i32\n", "", Err(TableFault::SameName(2))),
        (b"\r\n\"a\",b,a\n", "", Err(TableFault::SameName(3))),
        // Records below it.
        (
            b"k,v:i64\na,1\nb\nc,x\n",
            "",
            Err(TableFault::Ragged(2, 1, 2)),
        ),
        (b"a,b\n1,2,3\n", "", Err(TableFault::Ragged(1, 3, 2))),
        (b"k:i64\n1\n12x\n", "", Err(TableFault::BadCell(2, 1))),
        (
            b"k:i64\n9223372036854775808\n",
            "",
            Err(TableFault::BadCell(1, 1)),
        ),
        (b"k\n\xFF\n", "", Err(TableFault::BadCell(1, 1))),
        (b"k:cat\nx\n\xFF\n", "", Err(TableFault::BadCell(2, 1))),
        (b"k,v:i64\na,1\nb,\n", "na", Err(TableFault::BadCell(2, 2))),
        (
            b"k,v:i64\nx,y,z\na,b\n",
            "",
            Err(TableFault::Ragged(1, 3, 2)),
        ),
        // Behind a quoted field, and behind a line end inside one.
        (
            b"k,v:i64\n\"a,\",1\nb,x\n",
            "",
            Err(TableFault::BadCell(2, 2)),
        ),
        (
            b"k,v:i64\n\"a\n\n\",1\nb\n",
            "",
            Err(TableFault::Ragged(2, 1, 2)),
        ),
        // Blank lines are no records.
        (
            b"k,v:i64\n\n\na,1\n\nb,x\n",
            "",
            Err(TableFault::BadCell(2, 2)),
        ),
        (
            b"k:i64\r\n\r\n1\r\nx\r\n",
            "",
            Err(TableFault::BadCell(2, 1)),
        ),
        (b"\n\nk,k\n", "", Err(TableFault::SameName(2))),
        // A blank line where a field is wanted is no record either.
        (b"k:i64\n\n", "na", Ok("k;")),
    ];
    for (text, null_word, want) in cases {
        assert!(rt; text.len() < 100, "at {text:?}");
        match table_of(&rt, alloc, text, &reading(&NAMES, null_word)) {
            Ok(frame) => {
                let shown = shown(alloc, &frame)?;
                let shown = shown.as_slice();
                assert!(rt;
                    want.map(str::as_bytes) == Ok(shown),
                    "at {text:?}: {shown:?}"
                );
            }
            Err(TableError::Fault(fault)) => {
                assert!(rt; want == Err(fault), "at {text:?}: {fault:?}");
            }
            Err(TableError::NoMemory) => return Err(Fail::from(AllocError)),
        }
    }
    Ok(())
}

// What is read where some columns alone are asked for.
#[test]
fn columns_that_are_asked(rt: HostRuntime) -> Result<(), Fail> {
    let alloc = rt.alloc();
    let cases: [(&[u8], &[&str], Result<&str, TableFault>); 15] = [
        (
            b"a,b:i64,c:cat\nx,1,y\n\xC3\xA9,,\n",
            &["b"],
            Ok("b|1|null;"),
        ),
        (
            b"a,b:i64,c:cat\nx,1,y\nz,,\n",
            &["c", "a"],
            Ok("a|x|z;c|y|null;"),
        ),
        (b"a,b:i64\n\"x\",1\n", &["a"], Ok("a|x;")),
        (b"a,b:i64\nx,1\n", &["z"], Ok("")),
        (b"a,b:i64\nx,1\n", &[], Ok("")),
        // Every cell is checked, whoever asks.
        (
            b"a,b:i64\nx,1\ny,x\n",
            &["a"],
            Err(TableFault::BadCell(2, 2)),
        ),
        (
            b"a,b\nx,y\nx,\xFF\n",
            &["a"],
            Err(TableFault::BadCell(2, 2)),
        ),
        (b"a,b:cat\nx,\xFF\n", &["a"], Err(TableFault::BadCell(1, 2))),
        (
            b"a,b:i64\n\"x\",1\ny,x\n",
            &["a"],
            Err(TableFault::BadCell(2, 2)),
        ),
        // Digits that are passed over, and such that are not.
        (
            b"k,v:i64,d:u64\nx,123456789012345,007\ny,9223372036854775807,1234567890123456\n",
            &["k"],
            Ok("k|x|y;"),
        ),
        (
            b"k,v:i64\nx,12\r\n\ny,-5\nz,+5\n,\n\"q\",\"8\"\nlonger than a word,9",
            &["k"],
            Ok("k|x|y|z|null|q|longer than a word;"),
        ),
        (
            b"k,v:i64,c\nx,12e,and some bytes more\n",
            &["k"],
            Err(TableFault::BadCell(1, 2)),
        ),
        (
            b"k,v:i64,c\nx,9223372036854775808,and some bytes more\n",
            &["k"],
            Err(TableFault::BadCell(1, 2)),
        ),
        (
            b"k,v:i32,c\nx,9999999999,and some bytes more\n",
            &["k"],
            Err(TableFault::BadCell(1, 2)),
        ),
        (
            b"k,v:i64,c\nx,1,and some bytes more\nx,2\nx,3,and some bytes more\n",
            &["k"],
            Err(TableFault::Ragged(2, 2, 3)),
        ),
    ];
    for (text, names, want) in cases {
        match table_of(&rt, alloc, text, &reading(names, "")) {
            Ok(frame) => {
                let shown = shown(alloc, &frame)?;
                assert!(rt;
                    want.map(str::as_bytes) == Ok(shown.as_slice()),
                    "at {text:?}"
                );
            }
            Err(TableError::Fault(fault)) => {
                assert!(rt; want == Err(fault), "at {text:?}: {fault:?}");
            }
            Err(TableError::NoMemory) => return Err(Fail::from(AllocError)),
        }
    }
    Ok(())
}

// The cells of a table that is read in so many parts, if it is plain and reads.
fn shown_in_parts<R: Threads + Sync>(
    rt: &R,
    alloc: Global,
    text: &[u8],
    parts: usize,
) -> Result<Option<Vec<u8>>, TableError>
    requires few { length text.now ≤ 1000000 }
    requires some { 1 ≤ parts }
{
    match plain_table(rt, alloc, text, &reading(&NAMES, ""), parts)? {
        Some(frame) => Ok(Some(shown(alloc, &frame)?)),
        None => Ok(None),
    }
}

// The cells of a table that `csv` reads, if it reads.
fn shown_by_csv(alloc: Global, text: &[u8]) -> Result<Option<Vec<u8>>, AllocError>
    requires { length text.now ≤ 1000000 }
{
    match csv_table(alloc, text, &reading(&NAMES, "")) {
        Ok(frame) => Ok(Some(shown(alloc, &frame)?)),
        Err(TableError::Fault(_)) => Ok(None),
        Err(TableError::NoMemory) => Err(AllocError),
    }
}

// The same three lines so many times.
fn push_lines(text: &mut Vec<u8>, count: usize) -> Result<(), AllocError> {
    for _ in 0..count {
        text.extend_from_slice(b"a,1,x,\n,-22,,longer\nb,,y,z\n")?;
    }
    Ok(())
}

// A header, behind a byte order mark or none, a line whose first cell has so many bytes, so many times the
// same lines, and what stands behind them.
fn repeated(alloc: Global, long: usize, count: usize, end: &[u8]) -> Result<Vec<u8>, AllocError> {
    let mut text = Vec::new(alloc);
    if count > 2 {
        text.extend_from_slice(b"\xEF\xBB\xBF")?;
    }
    text.extend_from_slice(b"k,v:i64,c:cat,d\n")?;
    for _ in 0..long {
        text.push(b'k')?;
    }
    text.extend_from_slice(b",7,,\n")?;
    push_lines(&mut text, count)?;
    text.extend_from_slice(end)?;
    Ok(text)
}

// Whether a table is read in parts, from one to eight, as `csv` reads it: at least in so many parts as are
// sure, and in none where none is.
fn are_alike<R: Threads + Sync>(
    rt: &R,
    alloc: Global,
    text: &[u8],
    sure: usize,
) -> Result<bool, Fail> {
    if text.len() > 1_000_000 {
        return Ok(false);
    }
    let whole = shown_by_csv(alloc, text)?;
    for parts in 1..9 {
        let found = shown_in_parts(rt, alloc, text, parts)?;
        if found.is_none() && parts <= sure {
            return Ok(false);
        }
        if found.is_some() && (sure == 0 || found != whole) {
            return Ok(false);
        }
    }
    Ok(true)
}

// Parts, wherever they are cut, are read as the whole is by `csv`. With each end stands for how many parts
// that is sure: none where a record does not read or is not plain, and one where a field has a line end.
#[test]
fn tables_in_parts(rt: HostRuntime) -> Result<(), Fail> {
    let alloc = rt.alloc();
    let ends: [(&[u8], usize); 13] = [
        (b"", 8),
        (b"a,1,x,last", 8),
        (b"a,1,x,\xC3\xA9\n", 8),
        (b"a,1,x,last\r\na,1,x,last\rb,,,\r", 8),
        (b"\n\r\n\na,1,x,last\n\n", 8),
        (b"a,1,\"x\",\"\"\n\"a\",\"1\",,\"last\"\r\n", 8),
        (b"a,1,x,\"q\"\",\"\"\"\nb,2,,q\"", 8),
        (b"a,1,x,\"q\n,\"\n", 1),
        (b"a,1,x,\"q\"q\n", 0),
        (b"a,1,x,\"q\n", 0),
        (b"a,1,x\n", 0),
        (b"a,bad,x,last\n", 0),
        (b"a,1,x,\xFF\n", 0),
    ];
    for (end, sure) in ends {
        for count in 0..4 {
            for long in 0..7 {
                let text = repeated(alloc, long, count, end)?;
                assert!(rt; are_alike(&rt, alloc, text.as_slice(), sure)?, "{text:?}");
            }
        }
    }
    Ok(())
}

// ---- a table read from its source block by block

/// A source that gives at most so many bytes a call.
#[derive(Drop)]
struct SlowSource {
    inner: SoundSource,
    most: usize,
    ghost some: { 0 < most },
}

impl Source for SlowSource {
    ghost use Rattle.gb_base.specs.Memory.{bytes_left};
    ghost use Rattle.std.specs.Prelude.{Some};

    ghost left = { λ s. Some (bytes_left s.inner) };

    ghost faults = { λ _. 0 };

    fn read(&mut self, room: &mut [u8]) -> Result<usize, Failed> {
        let count = room.len().min(self.most);
        self.inner.read(&mut room[..count])
    }
}

// The cells of a table that is read from a source of slow pieces, in blocks of so many bytes, if it reads.
fn shown_in_blocks<R: Threads + Sync>(
    rt: &R,
    alloc: Global,
    text: &[u8],
    workers: usize,
    block: usize,
) -> Result<Option<Vec<u8>>, AllocError>
    requires { 0 < block }
{
    let inner = SoundSource::new(Vec::from_slice(alloc, text)?);
    let mut source = SlowSource { inner, most: block };
    let reading = Reading {
        names: &NAMES,
        null_word: "",
        workers,
        block,
        seed: 7,
    };
    match read_table(rt, alloc, &mut source, 1_000_000, &reading) {
        Ok(frame) => Ok(Some(shown(alloc, &frame)?)),
        Err(Status::Table(_)) => Ok(None),
        Err(_) => Err(AllocError),
    }
}

// Whether a table is read in blocks of several sizes as `csv` reads it.
fn are_alike_in_blocks<R: Threads + Sync>(
    rt: &R,
    alloc: Global,
    text: &[u8],
) -> Result<bool, Fail> {
    if text.len() > 1_000_000 {
        return Ok(false);
    }
    let whole = shown_by_csv(alloc, text)?;
    for step in 1..6 {
        let found = shown_in_blocks(rt, alloc, text, 2, 13 * step)?;
        if found != whole {
            return Ok(false);
        }
    }
    Ok(true)
}

#[test]
fn tables_in_blocks(rt: HostRuntime) -> Result<(), Fail> {
    let alloc = rt.alloc();
    let ends: [&[u8]; 11] = [
        b"",
        b"a,1,x,last",
        b"a,1,x,\xC3\xA9\n",
        b"a,1,x,last\r\na,1,x,last\rb,,,\r",
        b"\n\r\n\na,1,x,last\n\n",
        b"a,1,x,\"q\n,\"\nb,2,,\"\n\n\"\n\xEF\xBB\xBF,3,,\n",
        b"a,1,x,\"q\"q\n\xEF\xBB\xBF,3,,\n",
        b"a,1,x,\"q\n",
        b"a,1,x\nb,2,x\n",
        b"a,1,x,y\na,bad,x,last\nb,2\n",
        b"a,1,x,\xFF\n",
    ];
    for end in ends {
        for count in 1..4 {
            let text = repeated(alloc, count, count, end)?;
            assert!(rt;
                are_alike_in_blocks(&rt, alloc, text.as_slice())?,
                "{text:?}"
            );
        }
    }
    Ok(())
}

// Blocks that are long enough for a part a worker, of which the second does not read in some tables.
#[test]
fn tables_in_blocks_of_parts(rt: HostRuntime) -> Result<(), Fail> {
    let alloc = rt.alloc();
    let middles: [&[u8]; 3] = [b"", b"a,1,\xC3\xA9,\"q\n,\"\n", b"a,bad,x,last\n"];
    for middle in middles {
        let mut text = repeated(alloc, 1, 6000, middle)?;
        push_lines(&mut text, 6000)?;
        let found = shown_in_blocks(&rt, alloc, text.as_slice(), 3, 150_000)?;
        assert!(rt; text.len() < 1_000_000);
        assert!(rt; found == shown_by_csv(alloc, text.as_slice())?);
    }
    Ok(())
}
