//! That the pieces of a grouping run side by side, which no clause says.

use crate::tests::{source_of, status_through};
use gb_base::device::Gate;
use gb_base::memory::MemSink;
use std::sync::atomic::{AtomicU64, Ordering};
use std::test::Fail;

const MOST_TURNS: u64 = 100_000_000;

/// Counts what passes it, and holds piece 0 until piece 1 has entered, for so many turns at most.
#[derive(Drop)]
struct HoldingGate {
    entered: [AtomicU64; 3],
    left: [AtomicU64; 3],
    turns: AtomicU64,
}

impl HoldingGate {
    fn new() -> HoldingGate {
        HoldingGate {
            entered: [AtomicU64::new(0), AtomicU64::new(0), AtomicU64::new(0)],
            left: [AtomicU64::new(0), AtomicU64::new(0), AtomicU64::new(0)],
            turns: AtomicU64::new(0),
        }
    }

    fn hold(&self) {
        for _ in 0..MOST_TURNS {
            if self.entered[1].load(Ordering::SeqCst) > 0 {
                return;
            }
            self.turns.fetch_add(1, Ordering::SeqCst);
        }
    }
}

impl Gate for HoldingGate {
    fn enter(&self, piece: u64) {
        if piece < 3 {
            self.entered[piece as usize].fetch_add(1, Ordering::SeqCst);
        }
        if piece == 0 {
            self.hold();
        }
    }

    fn leave(&self, piece: u64) {
        if piece < 3 {
            self.left[piece as usize].fetch_add(1, Ordering::SeqCst);
        }
    }
}

/// Words, and how often each piece enters the gate, and leaves it.
struct Passed {
    words: &'static str,
    times: [u64; 3],
}

const PASSED: [Passed; 3] = [
    Passed {
        words: "group --by k --agg n_unique:v --workers 2 --partitions 2 --piece 2",
        times: [1, 1, 0],
    },
    Passed {
        words: "group --by k --agg n_unique:v --workers 2 --partitions 3",
        times: [1, 1, 1],
    },
    Passed {
        words: "group --by k --agg n_unique:v --workers 1 --partitions 3",
        times: [0, 0, 0],
    },
];

#[test]
fn pieces_run_side_by_side(rt: HostRuntime) -> Result<(), Fail> {
    for row in &PASSED {
        let mut source = source_of(rt.alloc(), b"k,v:i64\nb,1\na,2\nb,3\na,4\n")?;
        let mut sink = MemSink::new(rt.alloc(), 4096, 4096, Vec::new(rt.alloc()))?;
        let gate = HoldingGate::new();
        let words = row.words;
        let times = row.times;
        let status = status_through(&rt, rt.alloc(), words, 4096, &mut source, &mut sink, &gate)?;
        assert_eq!(rt; status.code(), 0);
        assert_eq!(rt;
            sink.bytes(),
            b"k:str,v_n_unique:u32\nb,2\na,2\n".as_slice()
        );
        for piece in 0..3 {
            assert_eq!(rt; gate.entered[piece].load(Ordering::SeqCst), times[piece]);
            assert_eq!(rt; gate.left[piece].load(Ordering::SeqCst), times[piece]);
        }
        assert!(rt; gate.turns.load(Ordering::SeqCst) < MOST_TURNS);
    }
    Ok(())
}
