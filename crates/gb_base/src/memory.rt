//! Devices in memory: they tell their bytes.

ghost use Rattle.std.specs.Prelude.{◌≡◌, ◌<◌, ◌≤◌, [], take, length, IfOk, IfErr, OnErr, vec_len};
ghost use Rattle.gb_base.specs.Device.{Rose, with_piece};

use crate::device::{Failed, Gate, Sink, Source};
use crate::error::PolarsResult;
use std::alloc::Global;

/// A source over bytes that never fails.
#[derive(Drop)]
pub struct SoundSource {
    bytes: Vec<u8>,
    at: usize,
    ghost within: { at ≤ vec_len bytes },
}

impl SoundSource {
    ghost use Rattle.gb_base.specs.Memory.{bytes_left};

    pub fn new(bytes: Vec<u8>) -> SoundSource
        ensures { bytes_left result ≡ bytes.items }
    {
        SoundSource { bytes, at: 0 }
    }
}

impl Source for SoundSource {
    ghost use Rattle.gb_base.specs.Memory.{bytes_left};
    ghost use Rattle.std.specs.Prelude.{Some};

    ghost left = { λ s. Some (bytes_left s) };

    ghost faults = { λ _. 0 };

    fn read(&mut self, room: &mut [u8]) -> Result<usize, Failed> {
        let count = room.len().min(self.bytes.len() - self.at);
        let end = self.at + count;
        room[..count].copy_from_slice(&self.bytes[self.at..end]);
        self.at = end;
        Ok(count)
    }
}

/// A sink with room for so many bytes, which takes at most so many a call and fails at some calls.
#[derive(Drop)]
pub struct MemSink {
    buffer: Vec<u8>,
    filled: usize,
    most: usize,
    failing: Vec<u64>,
    calls: u64,
    faults: u64,
    ghost within: { filled ≤ vec_len buffer },
    ghost some: { 0 < most },
}

impl MemSink {
    ghost use Rattle.gb_base.specs.Memory.{bytes_in, room_in, calls_of, faults_of, most_of, failing_of};
    ghost use Rattle.gb_base.specs.PlSmallStr.{IsNoMemory};

    /// Takes the memory for all its room. The calls that fail are counted from 1.
    pub fn new(alloc: Global, room: usize, most: usize, failing: Vec<u64>) -> PolarsResult<MemSink>
        requires { 0 < most }
        ensures empty { IfOk result (λ sink. bytes_in sink ≡ []) }
        ensures room { IfOk result (λ sink. room_in sink ≡ room) }
        ensures most { IfOk result (λ sink. most_of sink ≡ most) }
        ensures failing { IfOk result (λ sink. failing_of sink ≡ failing.items) }
        ensures calls { IfOk result (λ sink. calls_of sink ≡ 0) }
        ensures faults { IfOk result (λ sink. faults_of sink ≡ 0) }
        ensures err { IfErr result IsNoMemory }
    {
        Ok(MemSink {
            buffer: vec![in alloc; 0u8; room]?,
            filled: 0,
            most,
            failing,
            calls: 0,
            faults: 0,
        })
    }

    /// What it has taken.
    pub fn bytes(&self) -> &[u8]
        ensures { result.now ≡ bytes_in self.now }
    {
        &self.buffer[..self.filled]
    }
}

impl Sink for MemSink {
    ghost use Rattle.gb_base.specs.Memory.{bytes_in, faults_of, fails_at, taken_by, IsNextCall, HasTaken, HasFailed};
    ghost use Rattle.std.specs.Prelude.{Some, is_err};

    ghost held = { λ s. Some (bytes_in s) };

    ghost faults = { faults_of };

    fn write(&mut self, piece: &[u8]) -> Result<usize, Failed>
        ensures count { IfOk result (λ n. n ≤ length piece.now) }
        ensures some { IfOk result (λ n. 0 < length piece.now → 0 < n) }
        ensures bytes { IfOk result (λ n. Some (bytes_in self.new)
            ≡ with_piece (Some (bytes_in self.old)) (take n piece.now)) }
        ensures failed { OnErr result (Rose (faults_of self.old) (faults_of self.new)) }
        ensures nothing { OnErr result (Some (bytes_in self.new) ≡ Some (bytes_in self.old)) }
        ensures kept { faults_of self.old ≤ faults_of self.new }

        // It fails exactly at the calls that are listed, and where no room is left.
        ensures fails { is_err result ≡ fails_at self.old piece.now }
        ensures least { IfOk result (λ n. n ≡ taken_by self.old piece.now) }
        ensures counted { IsNextCall self.old self.new }
        ensures taken { IfOk result (λ n. HasTaken n self.old self.new) }
        ensures refused { OnErr result (HasFailed self.old self.new) }
    {
        self.calls = self.calls.saturating_add(1);
        let room = self.buffer.len() - self.filled;
        if self.failing.contains(&self.calls) || (room == 0 && !piece.is_empty()) {
            self.faults = self.faults.saturating_add(1);
            return Err(Failed);
        }
        let count = piece.len().min(self.most).min(room);
        let end = self.filled + count;
        self.buffer[self.filled..end].copy_from_slice(&piece[..count]);
        self.filled = end;
        Ok(count)
    }
}

/// A gate that lets each piece through at once.
#[derive(Clone, Copy, Debug)]
pub struct FreeGate;

impl Gate for FreeGate {
    fn enter(&self, _piece: u64) {}

    fn leave(&self, _piece: u64) {}
}
