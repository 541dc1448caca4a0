//! A table with a column of every word that is read, grouped by each of its columns in turn, beside a
//! plain grouping of the texts of the cells.

use crate::tests::{source_of, status_through};
use gb_base::memory::{FreeGate, MemSink};
use std::alloc::{AllocError, Global};
use std::test::Fail;
use std::thread::Threads;

const ROWS: usize = 1000;

/// The words but those of decimals, which have the places behind them.
const WORDS: [&str; 24] = [
    "null",
    "bool",
    "u8",
    "u16",
    "u32",
    "u64",
    "i8",
    "i16",
    "i32",
    "i64",
    "i128",
    "date",
    "time",
    "datetime_ns",
    "datetime_us",
    "datetime_ms",
    "duration_ns",
    "duration_us",
    "duration_ms",
    "str",
    "bin",
    "cat",
    "lexcat",
    "dec0",
];

const COLUMNS: usize = 62;

// The word of the column at a place.
fn word_at(alloc: Global, place: usize) -> Result<String, Fail> {
    match WORDS.get(place) {
        Some(word) => Ok(String::from_str(alloc, word)?),
        None => Ok(format!(in alloc; "dec{}", scale_at(place))?),
    }
}

// How many digits the decimals at a place have behind the point.
fn scale_at(place: usize) -> usize {
    place.saturating_sub(23)
}

// A cell, which prints as it reads.
fn cell_at(alloc: Global, place: usize, row: usize) -> Result<String, Fail> {
    let class = row.wrapping_mul(7).wrapping_add(place) % 23;
    if class == 0 {
        return Ok(String::new(alloc));
    }
    match WORDS.get(place) {
        Some(word) => word_cell(alloc, word, class),
        None => decimal_cell(alloc, scale_at(place), class),
    }
}

fn word_cell(alloc: Global, word: &str, class: usize) -> Result<String, Fail> {
    match word {
        "null" => Ok(String::new(alloc)),
        "bool" => {
            let flag = if class % 2 == 0 { "true" } else { "false" };
            Ok(String::from_str(alloc, flag)?)
        }
        "u8" | "u16" | "u32" | "u64" => Ok(format!(in alloc; "{class}")?),
        "str" | "cat" | "lexcat" => Ok(format!(in alloc; "t{class}")?),
        "bin" => Ok(format!(in alloc; "{}", class.wrapping_add(10))?),
        _ => Ok(format!(in alloc; "-{class}")?),
    }
}

fn decimal_cell(alloc: Global, scale: usize, class: usize) -> Result<String, Fail> {
    let mut cell = format!(in alloc; "{}.", class % 2)?;
    for _digit in 0..scale {
        cell.push('0')?;
    }
    Ok(cell)
}

// The header and the rows; the last column counts the rows.
fn table(alloc: Global) -> Result<String, Fail> {
    let mut text = String::new(alloc);
    for place in 0..COLUMNS {
        let word = word_at(alloc, place)?;
        text.push_str(format!(in alloc; "c{place}:{word},")?.as_str())?;
    }
    text.push_str("v:i64\n")?;
    for row in 0..ROWS {
        push_row(alloc, row, &mut text)?;
    }
    Ok(text)
}

fn push_row(alloc: Global, row: usize, text: &mut String) -> Result<(), Fail> {
    for place in 0..COLUMNS {
        text.push_str(cell_at(alloc, place, row)?.as_str())?;
        text.push_str(",")?;
    }
    text.push_str(format!(in alloc; "{row}\n")?.as_str())?;
    Ok(())
}

/// The rows of one cell, by its text.
#[derive(Drop)]
struct Class {
    text: String,
    sum: usize,
    count: usize,
}

fn add_row(classes: &mut Vec<Class>, text: String, row: usize) -> Result<(), AllocError> {
    for class in classes.iter_mut() {
        if class.text == text {
            class.sum = class.sum.wrapping_add(row);
            class.count = class.count.wrapping_add(1);
            return Ok(());
        }
    }
    classes.push(Class {
        text,
        sum: row,
        count: 1,
    })?;
    Ok(())
}

// The groups of the column at a place, as the program is to write them.
fn plain_groups(alloc: Global, place: usize) -> Result<String, Fail> {
    let mut classes = Vec::new(alloc);
    for row in 0..ROWS {
        add_row(&mut classes, cell_at(alloc, place, row)?, row)?;
    }
    let word = word_at(alloc, place)?;
    let mut text = format!(in alloc; "c{place}:{word},v_sum:i64,v_count:u32\n")?;
    for class in &classes {
        let (cell, sum, count) = (class.text.as_str(), class.sum, class.count);
        text.push_str(format!(in alloc; "{cell},{sum},{count}\n")?.as_str())?;
    }
    Ok(text)
}

// Whether the program groups the table by a column as the plain grouping does.
fn groups_alike<R: Threads + Sync>(
    rt: &R,
    alloc: Global,
    table: &str,
    place: usize,
    workers: usize,
) -> Result<bool, Fail> {
    let asked = format!(in alloc; "group --by c{place} --agg sum:v --agg count:v")?;
    let words = format!(in alloc; "{} --workers {workers} --threshold 1", asked.as_str())?;
    let mut source = source_of(alloc, table.as_bytes())?;
    let mut sink = MemSink::new(alloc, 65536, 65536, Vec::new(alloc))?;
    let limit = 4194304;
    let status = status_through(
        rt,
        alloc,
        words.as_str(),
        limit,
        &mut source,
        &mut sink,
        &FreeGate,
    )?;
    Ok(status.code() == 0 && sink.bytes() == plain_groups(alloc, place)?.as_bytes())
}

#[test]
fn each_column_as_key(rt: HostRuntime) -> Result<(), Fail> {
    let alloc = rt.alloc();
    let table = table(alloc)?;
    for place in 0..COLUMNS {
        assert!(rt; groups_alike(&rt, alloc, table.as_str(), place, 1)?);
        assert!(rt; groups_alike(&rt, alloc, table.as_str(), place, 4)?);
    }
    Ok(())
}
