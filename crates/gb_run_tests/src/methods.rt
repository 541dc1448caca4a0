//! Each method on a column of each type: over all rows, over a group a row, and over no rows, beside what a plain
//! look at the cells makes.

use gb_base::memory::{FreeGate, MemSink, SoundSource};
use gb_run::limits::Limits;
use gb_run::run::run;
use std::alloc::Global;
use std::test::Fail;
use std::thread::Threads;

/// A type of columns, with three of its cells.
#[derive(Drop)]
struct Kind {
    word: &'static str,
    cells: [&'static str; 3],
    // How the cells lie in the order of folds.
    order: [u8; 3],
    // The type of a sum, empty where there is none, and the sums of each cell, of no cell and of all.
    sum: &'static str,
    sums: [&'static str; 3],
    zero: &'static str,
    total: &'static str,
}

const WORDS: [&str; 25] = [
    "null",
    "bool",
    "u8",
    "u16",
    "u32",
    "u64",
    "i8",
    "i16",
    "i32",
    "i64",
    "i128",
    "date",
    "time",
    "datetime_ns",
    "datetime_us",
    "datetime_ms",
    "duration_ns",
    "duration_us",
    "duration_ms",
    "str",
    "bin",
    "cat",
    "lexcat",
    "dec0",
    "dec2",
];

fn kind_of(word: &'static str) -> Kind {
    match word {
        "null" => without_sum(word, ["", "", ""], [0, 0, 0]),
        "bool" => Kind {
            word,
            cells: ["true", "false", "true"],
            order: [1, 0, 1],
            sum: "u32",
            sums: ["1", "0", "1"],
            zero: "0",
            total: "3",
        },
        "date" | "time" | "datetime_ns" | "datetime_us" | "datetime_ms" => {
            without_sum(word, ["1", "7", "3"], [0, 2, 1])
        }
        "bin" => without_sum(word, ["6d", "7a", "61"], [1, 2, 0]),
        "str" | "lexcat" => without_sum(word, ["m", "z", "a"], [1, 2, 0]),
        // By their codes, which are given in the order of the rows.
        "cat" => without_sum(word, ["m", "z", "a"], [0, 1, 2]),
        "dec2" => Kind {
            word,
            cells: ["1.00", "7.00", "3.00"],
            order: [0, 2, 1],
            sum: word,
            sums: ["1.00", "7.00", "3.00"],
            zero: "0.00",
            total: "12.00",
        },
        _ => Kind {
            word,
            cells: ["1", "7", "3"],
            order: [0, 2, 1],
            sum: word,
            sums: ["1", "7", "3"],
            zero: "0",
            total: "12",
        },
    }
}

fn without_sum(word: &'static str, cells: [&'static str; 3], order: [u8; 3]) -> Kind {
    Kind {
        word,
        cells,
        order,
        sum: "",
        sums: ["", "", ""],
        zero: "",
        total: "",
    }
}

// The text of one of three, and of none.
fn one_of(texts: &[&'static str; 3], none: &'static str, row: usize) -> &'static str {
    match row {
        0 | 4 => texts[0],
        2 => texts[1],
        3 => texts[2],
        _ => none,
    }
}

impl Kind {
    // The cell of a row: the first, none, the second, the third, the first, none.
    fn cell(&self, row: usize) -> &'static str {
        one_of(&self.cells, "", row)
    }

    fn rank(&self, row: usize) -> u8 {
        match row {
            0 | 4 => self.order[0],
            2 => self.order[1],
            _ => self.order[2],
        }
    }

    // The cell of the least or the greatest of the rows that have one.
    fn extreme(&self, rows: &[usize], greatest: bool) -> &'static str {
        let mut found: Option<usize> = None;
        for row in rows {
            let better = match found {
                Some(best) if greatest => self.rank(*row) > self.rank(best),
                Some(best) => self.rank(*row) < self.rank(best),
                None => true,
            };
            if !self.cell(*row).is_empty() && better {
                found = Some(*row);
            }
        }
        match found {
            Some(row) => self.cell(row),
            None => "",
        }
    }

    fn sum(&self, rows: &[usize]) -> &'static str {
        match rows.split_first() {
            Some((row, [])) => one_of(&self.sums, self.zero, *row),
            _ => self.total,
        }
    }

    // How many cells of the rows differ.
    fn distinct(&self, rows: &[usize]) -> usize {
        let mut count: usize = 0;
        for (place, row) in rows.iter().enumerate() {
            let mut earlier = rows.iter().take(place);
            if !earlier.any(|other| self.cell(*other) == self.cell(*row)) {
                count = count.saturating_add(1);
            }
        }
        count
    }

    fn valid(&self, rows: &[usize]) -> usize {
        rows.iter()
            .filter(|row| !self.cell(**row).is_empty())
            .count()
    }

    // The cells of the rows as the text of a list.
    fn list(&self, alloc: Global, rows: &[usize]) -> Result<String, Fail> {
        let mut text = String::new(alloc);
        for row in rows {
            text.push_str(if text.is_empty() { "[" } else { "," })?;
            let cell = self.cell(*row);
            if cell.is_empty() {
                text.push_str("null")?;
            } else if matches!(self.word, "str" | "cat" | "lexcat") {
                text.push_str(format!(in alloc; "\"{cell}\"")?.as_str())?;
            } else {
                text.push_str(cell)?;
            }
        }
        text.push(']')?;
        Ok(text)
    }
}

// The rows as the text of a list.
fn row_list(alloc: Global, rows: &[usize]) -> Result<String, Fail> {
    let mut text = String::new(alloc);
    for row in rows {
        text.push_str(if text.is_empty() { "[" } else { "," })?;
        text.push_str(format!(in alloc; "{row}")?.as_str())?;
    }
    text.push(']')?;
    Ok(text)
}

/// What is asked, and the name of its column.
struct Asked {
    agg: &'static str,
    name: &'static str,
}

const METHODS: [Asked; 10] = [
    Asked {
        agg: "sum:v",
        name: "v_sum",
    },
    Asked {
        agg: "min:v",
        name: "v_min",
    },
    Asked {
        agg: "max:v",
        name: "v_max",
    },
    Asked {
        agg: "first:v",
        name: "v_first",
    },
    Asked {
        agg: "last:v",
        name: "v_last",
    },
    Asked {
        agg: "n_unique:v",
        name: "v_n_unique",
    },
    Asked {
        agg: "count:v",
        name: "v_count",
    },
    Asked {
        agg: "valid:v",
        name: "v_count",
    },
    Asked {
        agg: "list:v",
        name: "v_agg_list",
    },
    Asked {
        agg: "groups",
        name: "groups",
    },
];

// What is made of the cells at the rows, as it is printed, but for the quotes of a cell.
fn made(alloc: Global, kind: &Kind, asked: &Asked, rows: &[usize]) -> Result<String, Fail> {
    let text = match asked.agg {
        "sum:v" => kind.sum(rows),
        "min:v" => kind.extreme(rows, false),
        "max:v" => kind.extreme(rows, true),
        "first:v" => kind.cell(*rows.first().unwrap_or(&0)),
        "last:v" => kind.cell(*rows.last().unwrap_or(&0)),
        "n_unique:v" => return Ok(format!(in alloc; "{}", kind.distinct(rows))?),
        "count:v" => return Ok(format!(in alloc; "{}", rows.len())?),
        "valid:v" => return Ok(format!(in alloc; "{}", kind.valid(rows))?),
        "list:v" => return kind.list(alloc, rows),
        _ => return row_list(alloc, rows),
    };
    Ok(String::from_str(alloc, text)?)
}

// The type of the answer, empty where there is none.
fn made_type(alloc: Global, kind: &Kind, asked: &Asked) -> Result<String, Fail> {
    let word = match asked.agg {
        "sum:v" => kind.sum,
        "min:v" | "max:v" if kind.word == "null" => "",
        "min:v" | "max:v" | "first:v" | "last:v" => kind.word,
        "list:v" => return Ok(format!(in alloc; "list[{}]", kind.word)?),
        "groups" => "list[u32]",
        _ => "u32",
    };
    Ok(String::from_str(alloc, word)?)
}

// A field of the answer, between quotes where it must stand so.
fn push_field(field: &str, to: &mut String) -> Result<(), Fail> {
    if !field.contains(',') && !field.contains('"') {
        to.push_str(field)?;
        return Ok(());
    }
    to.push('"')?;
    for letter in field.chars() {
        if letter == '"' {
            to.push('"')?;
        }
        to.push(letter)?;
    }
    to.push('"')?;
    Ok(())
}

// The rows that are one group, under the key `k`, or each a group of its own, under its number.
fn push_rows(kind: &Kind, apart: bool, rows: usize, to: &mut String) -> Result<(), Fail> {
    for row in 0..rows {
        push_key(apart, row, to)?;
        to.push_str(kind.cell(row))?;
        to.push('\n')?;
    }
    Ok(())
}

fn push_key(apart: bool, row: usize, to: &mut String) -> Result<(), Fail> {
    let key = ["a", "b", "c", "d", "e", "f"];
    let place = if apart { row } else { 0 };
    to.push_str(key.get(place).unwrap_or(&"g"))?;
    to.push(',')?;
    Ok(())
}

// The answer over so many rows.
fn wanted(
    alloc: Global,
    kind: &Kind,
    asked: &Asked,
    apart: bool,
    rows: &[usize],
) -> Result<String, Fail> {
    let dtype = made_type(alloc, kind, asked)?;
    let mut text = String::new(alloc);
    if dtype.is_empty() {
        return Ok(text);
    }
    text.push_str(format!(in alloc; "g:str,{}:{dtype}\n", asked.name)?.as_str())?;
    if apart {
        for row in rows {
            push_key(true, *row, &mut text)?;
            push_field(made(alloc, kind, asked, &[*row])?.as_str(), &mut text)?;
            text.push('\n')?;
        }
    } else if !rows.is_empty() {
        push_key(false, 0, &mut text)?;
        push_field(made(alloc, kind, asked, rows)?.as_str(), &mut text)?;
        text.push('\n')?;
    }
    Ok(text)
}

// Whether a run over so many rows writes what is wanted, and is refused where the type has no such answer.
fn runs_so<R: Threads + Sync>(
    rt: &R,
    alloc: Global,
    kind: &Kind,
    asked: &Asked,
    apart: bool,
    rows: &[usize],
) -> Result<bool, Fail> {
    let mut input = format!(in alloc; "g,v:{}\n", kind.word)?;
    push_rows(kind, apart, rows.len(), &mut input)?;
    let mut words = Vec::new(alloc);
    for word in ["group", "--by", "g", "--agg", asked.agg, "--threshold", "1"] {
        words.push(String::from_str(alloc, word)?)?;
    }
    let mut source = SoundSource::new(Vec::from_slice(alloc, input.as_bytes())?);
    let mut sink = MemSink::new(alloc, 4096, 4096, Vec::new(alloc))?;
    let mut notes = MemSink::new(alloc, 0, 1, Vec::new(alloc))?;
    let limits = Limits {
        input_bytes: 4096,
        salt: 0,
    };
    let status = run(
        rt,
        alloc,
        words.as_slice(),
        limits,
        &mut source,
        &mut sink,
        &mut notes,
        &FreeGate,
    );
    let text = wanted(alloc, kind, asked, apart, rows)?;
    let code = if text.is_empty() { 4 } else { 0 };
    Ok(status.code() == code && sink.bytes() == text.as_bytes())
}

#[test]
fn each_method_on_each_type(rt: HostRuntime) -> Result<(), Fail> {
    let alloc = rt.alloc();
    for word in WORDS {
        let kind = kind_of(word);
        for asked in &METHODS {
            let at = format!(in alloc; "{} of {word}", asked.agg)?;
            let all = [0, 1, 2, 3, 4, 5];
            assert!(rt; runs_so(&rt, alloc, &kind, asked, false, &all)?, "{at}");
            assert!(rt; runs_so(&rt, alloc, &kind, asked, true, &all)?, "{at}");
            assert!(rt; runs_so(&rt, alloc, &kind, asked, false, &[])?, "{at}");
        }
    }
    Ok(())
}
