//! A table of more rows than one worker folds alone.

use gb_base::memory::{FreeGate, MemSink, SoundSource};
use gb_run::limits::Limits;
use gb_run::run::run;
use gb_text::status::Status;
use itoa::Buffer;
use std::alloc::Global;
use std::test::Fail;
use std::thread::Threads;

const LINES: &str = "a,1\nb,2\na,3\nc,\n";

const ANSWER: &str = "k:str,v_sum:i64,v_count:u32\na,40000,20000\nb,20000,10000\nc,0,10000\n";

const PAIRS: &str = "a,x,1\nb,x,2\na,y,3\na,x,\n";

const PAIRED: &str =
    "k:str,j:str,v_sum:i64,v_count:u32\na,x,35000,70000\nb,x,70000,35000\na,y,105000,35000\n";

// A header, and so many times the same lines.
fn table(alloc: Global, header: &str, lines: &str, times: usize) -> Result<Vec<u8>, Fail> {
    let mut text = String::from_str(alloc, header)?;
    for _ in 0..times {
        text.push_str(lines)?;
    }
    Ok(Vec::from_slice(alloc, text.as_bytes())?)
}

// A header, and a line of as many keys, each of the words from one on.
fn numbered(alloc: Global, header: &str, keys: u64, rest: &str) -> Result<String, Fail> {
    let mut text = String::from_str(alloc, header)?;
    let mut digits = Buffer::new();
    for key in 0..keys {
        text.push_str(digits.format(key))?;
        text.push_str(rest)?;
    }
    Ok(text)
}

// What a run of these words writes for a table, by a gate that holds nothing up.
fn written<R: Threads + Sync>(
    rt: &R,
    alloc: Global,
    words: &str,
    table: Vec<u8>,
) -> Result<(Status, MemSink), Fail> {
    let mut spelled = Vec::new(alloc);
    for word in words.split(' ') {
        spelled.push(String::from_str(alloc, word)?)?;
    }
    let mut source = SoundSource::new(table);
    let mut sink = MemSink::new(alloc, 4_000_000, 4096, Vec::new(alloc))?;
    let mut notes = MemSink::new(alloc, 0, 1, Vec::new(alloc))?;
    let limits = Limits {
        input_bytes: 4_000_000,
        salt: 0,
    };
    let status = run(
        rt,
        alloc,
        spelled.as_slice(),
        limits,
        &mut source,
        &mut sink,
        &mut notes,
        &FreeGate,
    );
    Ok((status, sink))
}

#[test]
fn folds_by_workers(rt: HostRuntime) -> Result<(), Fail> {
    let cases = [
        "group --by k --agg sum:v --agg count:v --workers 1",
        "group --by k --agg sum:v --agg count:v --workers 2",
        "group --by k --agg sum:v --agg count:v --workers 4",
    ];
    for words in cases.iter() {
        let input = table(rt.alloc(), "k,v:i64\n", LINES, 10_000)?;
        let (status, sink) = written(&rt, rt.alloc(), words, input)?;
        assert_eq!(rt; status.code(), 0);
        assert_eq!(rt; sink.bytes(), ANSWER.as_bytes());
    }
    Ok(())
}

#[test]
fn pairs_of_keys(rt: HostRuntime) -> Result<(), Fail> {
    let cases = [
        "group --by k --by j --agg sum:v --agg count:v --workers 1",
        "group --by k --by j --agg sum:v --agg count:v --workers 4",
    ];
    for words in cases.iter() {
        let input = table(rt.alloc(), "k,j,v:i64\n", PAIRS, 35_000)?;
        let (status, sink) = written(&rt, rt.alloc(), words, input)?;
        assert_eq!(rt; status.code(), 0);
        assert_eq!(rt; sink.bytes(), PAIRED.as_bytes());
    }
    Ok(())
}

#[test]
fn many_groups(rt: HostRuntime) -> Result<(), Fail> {
    let alloc = rt.alloc();
    let mut table = numbered(alloc, "k:i64,v:i64\n", 70_000, ",1\n")?;
    table.push_str(&numbered(alloc, "", 70_000, ",2\n")?)?;
    let answer = numbered(alloc, "k:i64,v_sum:i64\n", 70_000, ",3\n")?;
    let cases = [
        "group --by k --agg sum:v --workers 1",
        "group --by k --agg sum:v --workers 4",
    ];
    for words in cases.iter() {
        let input = Vec::from_slice(alloc, table.as_bytes())?;
        let (status, sink) = written(&rt, alloc, words, input)?;
        assert_eq!(rt; status.code(), 0);
        assert!(rt; sink.bytes() == answer.as_bytes());
    }
    Ok(())
}
