//! The program: it reads a typed CSV table, groups it and writes the grouped table, by `gb_run::run::run`,
//! which carries the theorem of what it does. The tests of the whole stand here too.
#![tactic(auto)]

#[cfg(test)]
mod all_words_tests;
#[cfg(test)]
mod flat_tests;
#[cfg(test)]
mod gate_tests;
#[cfg(test)]
mod table_tests;
#[cfg(test)]
mod tests;

use gb_base::memory::FreeGate;
use gb_base::standard::{StderrSink, StdinSource, StdoutSink};
use gb_run::limits::Limits;
use gb_run::run::run;
use gb_text::status::Status;
use std::alloc::Global;
use std::env;
use std::io::ErrorKind;
use std::process::ExitCode;
use std::random::RandomSource;

const INPUT_BYTES: u64 = 268_435_456;

// A little less than the most that the allocator takes for it.
const KEPT_BYTES: usize = 33_000_000;

// Bits that nobody knows before the run: none where the system gives none.
fn salt(rt: &HostRuntime) -> u64 {
    let mut bytes = [0; 8];
    match rt.fill_bytes(&mut bytes) {
        Ok(()) => u64::from_le_bytes(bytes),
        Err(_) => 0,
    }
}

// The words after the program's name. Words that are no text spell no request.
fn words_of(rt: &HostRuntime) -> Result<Vec<String>, Status> {
    match env::args(rt) {
        Ok(words) => Ok(words.skip(1).collect(rt.alloc())?),
        Err(e) if e.kind() == ErrorKind::OutOfMemory => Err(Status::NoMemory),
        Err(_) => Err(Status::Usage),
    }
}

// Has the C library's allocator keep what is let go of and give it again. It does so up to the largest room that it
// saw let go of, and takes new pages from the system for each that is larger, which cost as much as what they hold.
fn keep_rooms(alloc: Global) {
    // Where there is no such room, nothing is kept.
    let _ = Vec::<u8>::with_capacity(alloc, KEPT_BYTES);
}

fn main(rt: HostRuntime) -> ExitCode {
    keep_rooms(rt.alloc());
    let words = match words_of(&rt) {
        Ok(words) => words,
        Err(status) => return ExitCode::from(status.code()),
    };
    let mut source = StdinSource::new(rt.stdin());
    let mut sink = StdoutSink::new(rt.stdout());
    let mut notes = StderrSink::new(rt.stderr());
    let limits = Limits {
        input_bytes: INPUT_BYTES,
        salt: salt(&rt),
    };
    let status = run(
        &rt,
        rt.alloc(),
        words.as_slice(),
        limits,
        &mut source,
        &mut sink,
        &mut notes,
        &FreeGate,
    );
    ExitCode::from(status.code())
}
