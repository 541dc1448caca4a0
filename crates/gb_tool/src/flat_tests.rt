//! Each type of a table's columns, but for numbers, through `run`: its cells read at both ends of their
//! range, as a key and as a value, and printed.

use crate::tests::{source_of, status_through};
use gb_base::memory::{FreeGate, MemSink};
use gb_text::status::{Status, TableFault};
use std::alloc::Global;
use std::test::Fail;
use std::thread::Threads;

/// A type's word, two cells with their printed forms, and one that does not read; and the type of its
/// sums with the sum of the first cell, empty where it has none.
struct Case {
    word: &'static str,
    least: &'static str,
    greatest: &'static str,
    shown_least: &'static str,
    shown_greatest: &'static str,
    bad: &'static str,
    sum_word: &'static str,
    sum: &'static str,
}

const CASES: [Case; 13] = [
    Case {
        word: "bool",
        least: "false",
        greatest: "true",
        shown_least: "false",
        shown_greatest: "true",
        bad: "True",
        sum_word: "u32",
        sum: "0",
    },
    Case {
        word: "date",
        least: "-2147483648",
        greatest: "2147483647",
        shown_least: "-2147483648",
        shown_greatest: "2147483647",
        bad: "2147483648",
        sum_word: "",
        sum: "",
    },
    Case {
        word: "time",
        least: "-9223372036854775808",
        greatest: "9223372036854775807",
        shown_least: "-9223372036854775808",
        shown_greatest: "9223372036854775807",
        bad: "9223372036854775808",
        sum_word: "",
        sum: "",
    },
    Case {
        word: "datetime_ns",
        least: "-9223372036854775808",
        greatest: "9223372036854775807",
        shown_least: "-9223372036854775808",
        shown_greatest: "9223372036854775807",
        bad: "9223372036854775808",
        sum_word: "",
        sum: "",
    },
    Case {
        word: "datetime_us",
        least: "-9223372036854775808",
        greatest: "9223372036854775807",
        shown_least: "-9223372036854775808",
        shown_greatest: "9223372036854775807",
        bad: "9223372036854775808",
        sum_word: "",
        sum: "",
    },
    Case {
        word: "datetime_ms",
        least: "-9223372036854775808",
        greatest: "9223372036854775807",
        shown_least: "-9223372036854775808",
        shown_greatest: "9223372036854775807",
        bad: "9223372036854775808",
        sum_word: "",
        sum: "",
    },
    Case {
        word: "duration_ns",
        least: "-9223372036854775808",
        greatest: "9223372036854775807",
        shown_least: "-9223372036854775808",
        shown_greatest: "9223372036854775807",
        bad: "9223372036854775808",
        sum_word: "duration_ns",
        sum: "-9223372036854775808",
    },
    Case {
        word: "duration_us",
        least: "-9223372036854775808",
        greatest: "9223372036854775807",
        shown_least: "-9223372036854775808",
        shown_greatest: "9223372036854775807",
        bad: "9223372036854775808",
        sum_word: "duration_us",
        sum: "-9223372036854775808",
    },
    Case {
        word: "duration_ms",
        least: "-9223372036854775808",
        greatest: "9223372036854775807",
        shown_least: "-9223372036854775808",
        shown_greatest: "9223372036854775807",
        bad: "9223372036854775808",
        sum_word: "duration_ms",
        sum: "-9223372036854775808",
    },
    Case {
        word: "dec0",
        least: "-170141183460469231731687303715884105728",
        greatest: "+170141183460469231731687303715884105727.",
        shown_least: "-170141183460469231731687303715884105728",
        shown_greatest: "170141183460469231731687303715884105727",
        bad: "170141183460469231731687303715884105728",
        sum_word: "dec0",
        sum: "-170141183460469231731687303715884105728",
    },
    Case {
        word: "dec2",
        least: "-1701411834604692317316873037158841057.28",
        greatest: ".5",
        shown_least: "-1701411834604692317316873037158841057.28",
        shown_greatest: "0.50",
        bad: "1.234",
        sum_word: "dec2",
        sum: "-1701411834604692317316873037158841057.28",
    },
    Case {
        word: "dec38",
        least: "-1.70141183460469231731687303715884105728",
        greatest: "1.70141183460469231731687303715884105727",
        shown_least: "-1.70141183460469231731687303715884105728",
        shown_greatest: "1.70141183460469231731687303715884105727",
        bad: "1.70141183460469231731687303715884105728",
        sum_word: "dec38",
        sum: "-1.70141183460469231731687303715884105728",
    },
    Case {
        word: "bin",
        least: "00",
        greatest: "00FfaB",
        shown_least: "00",
        shown_greatest: "00ffab",
        bad: "0g",
        sum_word: "",
        sum: "",
    },
];

// How a run of these words over an input ends, and what it wrote.
fn run_of<R: Threads + Sync>(
    rt: &R,
    alloc: Global,
    words: &str,
    input: &str,
) -> Result<(Status, MemSink), Fail> {
    let mut source = source_of(alloc, input.as_bytes())?;
    let mut sink = MemSink::new(alloc, 4096, 4096, Vec::new(alloc))?;
    let status = status_through(rt, alloc, words, 4096, &mut source, &mut sink, &FreeGate)?;
    Ok((status, sink))
}

// The cells as keys, null among them.
fn groups_by_it<R: Threads + Sync>(
    rt: &R,
    alloc: Global,
    case: &Case,
    words: &str,
) -> Result<bool, Fail> {
    let (word, least, greatest) = (case.word, case.least, case.greatest);
    let (first, second) = (case.shown_least, case.shown_greatest);
    let head = format!(in alloc; "k:{word},v:i64\n{least},1\n{greatest},2\n,4\n")?;
    let input = format!(in alloc; "{head}{least},8\n,16\n")?;
    let top = format!(in alloc; "k:{word},v_sum:i64,k_count:u32\n{first},9,2\n")?;
    let wanted = format!(in alloc; "{top}{second},2,1\n,20,2\n")?;
    let (status, sink) = run_of(rt, alloc, words, input.as_str())?;
    Ok(status.code() == 0 && sink.bytes() == wanted.as_bytes())
}

// The sum of a cell and a null, or its refusal.
fn sums_it<R: Threads + Sync>(rt: &R, alloc: Global, case: &Case) -> Result<bool, Fail> {
    let (word, least, sum_word, sum) = (case.word, case.least, case.sum_word, case.sum);
    let input = format!(in alloc; "a,v:{word}\nx,{least}\nx,\n")?;
    let (status, sink) = run_of(rt, alloc, "group --by a --agg sum:v", input.as_str())?;
    if sum_word.is_empty() {
        return Ok(status.code() == 4 && sink.bytes().is_empty());
    }
    let wanted = format!(in alloc; "a:str,v_sum:{sum_word}\nx,{sum}\n")?;
    Ok(status.code() == 0 && sink.bytes() == wanted.as_bytes())
}

// The cell that does not read, refused at its place.
fn refuses_it<R: Threads + Sync>(rt: &R, alloc: Global, case: &Case) -> Result<bool, Fail> {
    let (word, least, bad) = (case.word, case.least, case.bad);
    let input = format!(in alloc; "a,v:{word}\nx,{least}\ny,{bad}\n")?;
    let (status, _) = run_of(rt, alloc, "group --by a", input.as_str())?;
    Ok(matches!(status, Status::Table(TableFault::BadCell(2, 2))))
}

#[test]
fn each_flat_type(rt: HostRuntime) -> Result<(), Fail> {
    let alloc = rt.alloc();
    let alone = "group --by k --agg sum:v --agg count:k --workers 1";
    let four = "group --by k --agg sum:v --agg count:k --workers 4 --threshold 1";
    for case in &CASES {
        assert!(rt; groups_by_it(&rt, alloc, case, alone)?);
        assert!(rt; groups_by_it(&rt, alloc, case, four)?);
        assert!(rt; sums_it(&rt, alloc, case)?);
        assert!(rt; refuses_it(&rt, alloc, case)?);
    }
    Ok(())
}

/// Words, an input, the code that they end with and what they write: of columns of nothing but nulls.
const NULL_RUNS: [(&str, &str, u8, &str); 6] = [
    (
        "group --by n --agg sum:v",
        "n:null,v:i64\n,1\n,5\n",
        0,
        "n:null,v_sum:i64\n,6\n",
    ),
    (
        "group --by n --agg sum:v --workers 4 --threshold 1",
        "n:null,v:i64\n,1\n,5\n",
        0,
        "n:null,v_sum:i64\n,6\n",
    ),
    (
        "group --by n --agg sum:v",
        "n:null,v:i64\n",
        0,
        "n:null,v_sum:i64\n",
    ),
    (
        "group --by k --agg count:n",
        "k,n:null\nx,\nx,\n",
        0,
        "k:str,n_count:u32\nx,2\n",
    ),
    ("group --by k --agg sum:n", "k,n:null\nx,\n", 4, ""),
    ("group --by k", "k,n:null\nx,1\n", 3, ""),
];

/// The same of columns of categories, whose groups come as they first stand and not as they are coded.
const CATEGORY_RUNS: [(&str, &str, u8, &str); 7] = [
    (
        "group --by k --agg sum:v --agg count:k",
        "k:cat,v:i64\nb,1\na,2\n,4\nb,8\n,16\n",
        0,
        "k:cat,v_sum:i64,k_count:u32\nb,9,2\na,2,1\n,20,2\n",
    ),
    (
        "group --by k --agg sum:v --workers 4 --threshold 1",
        "k:lexcat,v:i64\nb,1\na,2\n,4\nb,8\n,16\n",
        0,
        "k:lexcat,v_sum:i64\nb,9\na,2\n,20\n",
    ),
    ("group --by k", "k:cat\n", 0, "k:cat\n"),
    ("group --by k", "k:cat\n\"a\nb\"\n", 0, "k:cat\n\"a\nb\"\n"),
    (
        "group --by k --agg count:c",
        "k,c:cat\nx,a\nx,\n",
        0,
        "k:str,c_count:u32\nx,2\n",
    ),
    ("group --by k --agg sum:c", "k,c:lexcat\nx,a\n", 4, ""),
    ("group --by k", "k:cat,v:i64\nx,1\ny,z\n", 3, ""),
];

// Whether each of these runs ends and writes so.
fn run_as_listed<R: Threads + Sync>(
    rt: &R,
    alloc: Global,
    runs: &[(&str, &str, u8, &str)],
) -> Result<bool, Fail> {
    for (words, input, code, wanted) in runs {
        let (status, sink) = run_of(rt, alloc, words, input)?;
        if status.code() != *code || sink.bytes() != wanted.as_bytes() {
            return Ok(false);
        }
    }
    Ok(true)
}

#[test]
fn nulls_and_categories(rt: HostRuntime) -> Result<(), Fail> {
    let alloc = rt.alloc();
    assert!(rt; run_as_listed(&rt, alloc, &NULL_RUNS)?);
    assert!(rt; run_as_listed(&rt, alloc, &CATEGORY_RUNS)?);
    Ok(())
}
