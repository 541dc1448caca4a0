//! Tables that are grouped by each pair of columns of all kinds, beside a plain grouping of the texts of
//! their cells, and what the program answers to words with several keys.

use gb_base::error::PolarsError;
use gb_base::memory::{FreeGate, MemSink, SoundSource};
use gb_run::limits::Limits;
use gb_run::run::run;
use gb_text::status::Status;
use std::alloc::{AllocError, Global};
use std::test::Fail;
use std::thread::Threads;

const ROWS: usize = 12;

const COUNT: usize = 21;

/// A word of a header, and cells that print as they read.
#[derive(Drop)]
struct Kind {
    word: &'static str,
    cells: [&'static str; 4],
}

const KINDS: [Kind; COUNT] = [
    Kind {
        word: "null",
        cells: ["NA", "NA", "NA", "NA"],
    },
    Kind {
        word: "bool",
        cells: ["NA", "false", "true", "false"],
    },
    Kind {
        word: "u8",
        cells: ["NA", "0", "255", "1"],
    },
    Kind {
        word: "u16",
        cells: ["NA", "0", "65535", "255"],
    },
    Kind {
        word: "u32",
        cells: ["NA", "0", "4294967295", "256"],
    },
    Kind {
        word: "u64",
        cells: ["NA", "0", "18446744073709551615", "256"],
    },
    Kind {
        word: "i8",
        cells: ["NA", "-128", "127", "0"],
    },
    Kind {
        word: "i16",
        cells: ["NA", "-32768", "32767", "0"],
    },
    Kind {
        word: "i32",
        cells: ["NA", "-2147483648", "2147483647", "-1"],
    },
    Kind {
        word: "i64",
        cells: ["NA", "-9223372036854775808", "9223372036854775807", "0"],
    },
    Kind {
        word: "i128",
        cells: [
            "NA",
            "-170141183460469231731687303715884105728",
            "170141183460469231731687303715884105727",
            "18446744073709551616",
        ],
    },
    Kind {
        word: "date",
        cells: ["NA", "-2147483648", "2147483647", "0"],
    },
    Kind {
        word: "time",
        cells: ["NA", "-1", "9223372036854775807", "0"],
    },
    Kind {
        word: "datetime_us",
        cells: ["NA", "-1", "1", "0"],
    },
    Kind {
        word: "duration_ns",
        cells: ["NA", "-1", "1", "0"],
    },
    Kind {
        word: "dec2",
        cells: ["NA", "-0.01", "0.01", "0.00"],
    },
    Kind {
        word: "str",
        cells: ["NA", "", "a", "a\0b"],
    },
    Kind {
        word: "str",
        cells: ["NA", "ba", "b", "\0"],
    },
    Kind {
        word: "bin",
        cells: ["NA", "", "00", "ff"],
    },
    Kind {
        word: "cat",
        cells: ["NA", "", "b", "a"],
    },
    Kind {
        word: "lexcat",
        cells: ["NA", "b", "a", ""],
    },
];

// The cell of a column at a row: the columns go through their cells at different paces.
fn cell_at(place: usize, row: usize) -> &'static str {
    match KINDS.get(place) {
        Some(kind) => {
            let pace = place % 3;
            let turn = row.wrapping_add(place).wrapping_mul(pace.wrapping_add(1)) / 2;
            kind.cells[turn % 4]
        }
        None => "",
    }
}

fn word_at(place: usize) -> &'static str {
    match KINDS.get(place) {
        Some(kind) => kind.word,
        None => "",
    }
}

// A table with these two columns and one that is counted.
fn table(alloc: Global, first: usize, second: usize) -> Result<String, Fail> {
    let (one, other) = (word_at(first), word_at(second));
    let mut text = format!(in alloc; "a:{one},b:{other},v:i64\n")?;
    for row in 0..ROWS {
        let (one, other) = (cell_at(first, row), cell_at(second, row));
        text.push_str(format!(in alloc; "{one},{other},{row}\n")?.as_str())?;
    }
    Ok(text)
}

/// The rows of one pair of cells.
#[derive(Clone, Copy, Drop)]
struct Class {
    first: &'static str,
    second: &'static str,
    sum: usize,
}

fn add_row(
    classes: &mut Vec<Class>,
    first: &'static str,
    second: &'static str,
    row: usize,
) -> Result<(), AllocError> {
    for class in classes.iter_mut() {
        if class.first == first && class.second == second {
            class.sum = class.sum.wrapping_add(row);
            return Ok(());
        }
    }
    classes.push(Class {
        first,
        second,
        sum: row,
    })?;
    Ok(())
}

// The groups by both columns, as the program is to write them.
fn plain_groups(alloc: Global, first: usize, second: usize) -> Result<String, Fail> {
    let mut classes = Vec::new(alloc);
    for row in 0..ROWS {
        add_row(&mut classes, cell_at(first, row), cell_at(second, row), row)?;
    }
    let (one, other) = (word_at(first), word_at(second));
    let mut text = format!(in alloc; "a:{one},b:{other},v_sum:i64\n")?;
    for class in &classes {
        let (one, other, sum) = (class.first, class.second, class.sum);
        text.push_str(format!(in alloc; "{one},{other},{sum}\n")?.as_str())?;
    }
    Ok(text)
}

// How a run of these words over an input ends, and what it writes.
fn written<R: Threads + Sync>(
    rt: &R,
    alloc: Global,
    words: &str,
    input: &str,
) -> Result<(Status, MemSink), Fail> {
    let mut spelled = Vec::new(alloc);
    for word in words.split(' ') {
        spelled.push(String::from_str(alloc, word)?)?;
    }
    let mut source = SoundSource::new(Vec::from_slice(alloc, input.as_bytes())?);
    let mut sink = MemSink::new(alloc, 4096, 4096, Vec::new(alloc))?;
    let mut notes = MemSink::new(alloc, 0, 1, Vec::new(alloc))?;
    let limits = Limits {
        input_bytes: 65536,
        salt: 0,
    };
    let status = run(
        rt,
        alloc,
        spelled.as_slice(),
        limits,
        &mut source,
        &mut sink,
        &mut notes,
        &FreeGate,
    );
    Ok((status, sink))
}

// Whether the program groups by a pair of columns as the plain grouping does.
fn groups_alike<R: Threads + Sync>(
    rt: &R,
    alloc: Global,
    words: &str,
    first: usize,
    second: usize,
) -> Result<bool, Fail> {
    let input = table(alloc, first, second)?;
    let (status, sink) = written(rt, alloc, words, input.as_str())?;
    Ok(status.code() == 0 && sink.bytes() == plain_groups(alloc, first, second)?.as_bytes())
}

const BY_ONE: &str = "group --by a --by b --agg sum:v --null NA --workers 1";

const BY_THREE: &str = "group --by a --by b --agg sum:v --null NA --workers 3";

#[test]
fn each_pair_of_kinds(rt: HostRuntime) -> Result<(), Fail> {
    let alloc = rt.alloc();
    for first in 0..COUNT {
        for second in first..COUNT {
            assert!(rt; groups_alike(&rt, alloc, BY_ONE, first, second)?);
            assert!(rt; groups_alike(&rt, alloc, BY_THREE, first, second)?);
        }
    }
    Ok(())
}

/// Words, an input, and what is written.
struct Row {
    words: &'static str,
    input: &'static str,
    wrote: &'static str,
}

const WORKED: [Row; 6] = [
    Row {
        words: "group --by n --by k --agg sum:v",
        input: "n:null,k,v:i64\n,x,1\n,y,2\n,x,3\n",
        wrote: "n:null,k:str,v_sum:i64\n,x,4\n,y,2\n",
    },
    Row {
        words: "group --by a --by b --agg sum:v",
        input: "a,b,v:i64\nab,c,1\na,bc,2\nab,c,3\n",
        wrote: "a:str,b:str,v_sum:i64\nab,c,4\na,bc,2\n",
    },
    Row {
        words: "group --agg sum:v --by b --by a",
        input: "a,b,v:i64\nab,c,1\na,bc,2\nab,c,3\n",
        wrote: "b:str,a:str,v_sum:i64\nc,ab,4\nbc,a,2\n",
    },
    Row {
        words: "group --by n --by m --agg count:v",
        input: "n:null,m:null,v:i64\n,,1\n,,2\n",
        wrote: "n:null,m:null,v_count:u32\n,,2\n",
    },
    Row {
        words: "group --by n --by m --agg count:v",
        input: "n:null,m:null,v:i64\n",
        wrote: "n:null,m:null,v_count:u32\n",
    },
    Row {
        words: "group --by a --by b --by c --agg count:a",
        input: "a:bool,b:i8,c\ntrue,1,x\ntrue,1,\ntrue,,x\ntrue,1,x\n",
        wrote: "a:bool,b:i8,c:str,a_count:u32\ntrue,1,x,2\ntrue,1,,1\ntrue,,x,1\n",
    },
];

#[test]
fn answers_by_several_keys(rt: HostRuntime) -> Result<(), Fail> {
    let alloc = rt.alloc();
    for row in WORKED.iter() {
        let (status, sink) = written(&rt, alloc, row.words, row.input)?;
        assert!(rt; status.code() == 0 && sink.bytes() == row.wrote.as_bytes());
    }
    Ok(())
}

fn is_missing(status: &Status, wanted: &str) -> bool {
    match status {
        Status::Group(PolarsError::ColumnNotFound(name)) => name.as_str() == wanted,
        _ => false,
    }
}

#[test]
fn first_missing_key(rt: HostRuntime) -> Result<(), Fail> {
    let words = "group --by k --by day --by month --agg sum:night";
    let (status, sink) = written(&rt, rt.alloc(), words, "k\nx\n")?;
    assert!(rt; is_missing(&status, "day") && sink.bytes().is_empty());
    let (twice, _) = written(&rt, rt.alloc(), "group --by k --by k", "k\nx\n")?;
    assert!(rt; twice.code() == 4);
    Ok(())
}

// ---- keys whose numbers are more than a word can tell apart

const KEYS: usize = 13;

const VALUES: usize = 32;

// The cell of a key at a row: rows that are so many apart agree in each key, but for the first ones, which differ in
// one.
fn digit_at(key: usize, row: usize) -> usize {
    let value = row % VALUES;
    if row >= VALUES && value < 26 && value % KEYS == key {
        return value.wrapping_add(VALUES);
    }
    value
}

// The cells of all keys at a row, and one behind them.
fn push_row(alloc: Global, text: &mut String, row: usize, last: usize) -> Result<(), Fail> {
    for key in 0..KEYS {
        let cell = digit_at(key, row);
        text.push_str(format!(in alloc; "{cell},")?.as_str())?;
    }
    text.push_str(format!(in alloc; "{last}\n")?.as_str())?;
    Ok(())
}

// The header of the keys, and a field behind them.
fn header(alloc: Global, last: &str) -> Result<String, Fail> {
    let mut text = String::new(alloc);
    for key in 0..KEYS {
        text.push_str(format!(in alloc; "k{key}:i64,")?.as_str())?;
    }
    text.push_str(format!(in alloc; "{last}:i64\n")?.as_str())?;
    Ok(text)
}

fn table_of_many(alloc: Global) -> Result<String, Fail> {
    let mut text = header(alloc, "v")?;
    for row in 0..64usize {
        push_row(alloc, &mut text, row, row)?;
    }
    Ok(text)
}

fn answer_of_many(alloc: Global) -> Result<String, Fail> {
    let mut text = header(alloc, "v_sum")?;
    for row in 0..58usize {
        let other = row.wrapping_add(VALUES);
        let sum = if row >= 26 && row < VALUES {
            row.wrapping_add(other)
        } else {
            row
        };
        push_row(alloc, &mut text, row, sum)?;
    }
    Ok(text)
}

fn words_of_many(alloc: Global, workers: usize) -> Result<String, Fail> {
    let mut words = String::from_str(alloc, "group")?;
    for key in 0..KEYS {
        words.push_str(format!(in alloc; " --by k{key}")?.as_str())?;
    }
    words.push_str(format!(in alloc; " --agg sum:v --workers {workers}")?.as_str())?;
    Ok(words)
}

#[test]
fn numbers_of_many_keys(rt: HostRuntime) -> Result<(), Fail> {
    let alloc = rt.alloc();
    let (input, wrote) = (table_of_many(alloc)?, answer_of_many(alloc)?);
    for workers in [1, 3].iter() {
        let words = words_of_many(alloc, *workers)?;
        let (status, sink) = written(&rt, alloc, words.as_str(), input.as_str())?;
        assert!(rt; status.code() == 0 && sink.bytes() == wrote.as_bytes());
    }
    Ok(())
}
