//! The standard streams, which tell nothing of their content. A failure raises a count; a write that takes
//! nothing of a piece is a failure.

ghost use Rattle.std.specs.Prelude.{◌≡◌};
ghost use Rattle.gb_base.specs.Standard.{source_faults, output_faults, error_faults};

use crate::device::{Failed, Sink, Source};
use std::io::{Read, Stderr, Stdin, Stdout, Write};

/// Standard input.
#[derive(Drop)]
pub struct StdinSource {
    stdin: Stdin,
    faults: u64,
}

impl StdinSource {
    /// No call has failed yet.
    pub fn new(stdin: Stdin) -> StdinSource
        ensures { source_faults result ≡ 0 }
    {
        StdinSource { stdin, faults: 0 }
    }
}

impl Source for StdinSource {
    ghost use Rattle.std.specs.Prelude.{None};
    ghost use Rattle.gb_base.specs.Standard.{source_faults};

    ghost left = { λ _. None };

    ghost faults = { source_faults };

    fn read(&mut self, room: &mut [u8]) -> Result<usize, Failed> {
        match self.stdin.read(room) {
            Ok(count) => Ok(count),
            Err(_) => {
                self.faults = self.faults.saturating_add(1);
                Err(Failed)
            }
        }
    }
}

/// Standard output.
#[derive(Drop)]
pub struct StdoutSink {
    stdout: Stdout,
    faults: u64,
}

impl StdoutSink {
    /// No call has failed yet.
    pub fn new(stdout: Stdout) -> StdoutSink
        ensures { output_faults result ≡ 0 }
    {
        StdoutSink { stdout, faults: 0 }
    }
}

impl Sink for StdoutSink {
    ghost use Rattle.std.specs.Prelude.{None};
    ghost use Rattle.gb_base.specs.Standard.{output_faults};

    ghost held = { λ _. None };

    ghost faults = { output_faults };

    fn write(&mut self, piece: &[u8]) -> Result<usize, Failed> {
        match self.stdout.write(piece) {
            Ok(count) if count > 0 || piece.is_empty() => Ok(count),
            _ => {
                self.faults = self.faults.saturating_add(1);
                Err(Failed)
            }
        }
    }
}

/// Standard error.
#[derive(Drop)]
pub struct StderrSink {
    stderr: Stderr,
    faults: u64,
}

impl StderrSink {
    /// No call has failed yet.
    pub fn new(stderr: Stderr) -> StderrSink
        ensures { error_faults result ≡ 0 }
    {
        StderrSink { stderr, faults: 0 }
    }
}

impl Sink for StderrSink {
    ghost use Rattle.std.specs.Prelude.{None};
    ghost use Rattle.gb_base.specs.Standard.{error_faults};

    ghost held = { λ _. None };

    ghost faults = { error_faults };

    fn write(&mut self, piece: &[u8]) -> Result<usize, Failed> {
        match self.stderr.write(piece) {
            Ok(count) if count > 0 || piece.is_empty() => Ok(count),
            _ => {
                self.faults = self.faults.saturating_add(1);
                Err(Failed)
            }
        }
    }
}
