//! How work is spread over workers.

ghost use Rattle.std.specs.Prelude.{◌≡◌, ◌≤◌, ◌↔◌, IsTrue};
ghost use Rattle.gb_base.specs.FitsPool.{FitsPool};

/// How work is spread: over how many workers and partitions, from how many rows on, and in pieces of
/// how many rows; and the seed of the hashes. Which groups an answer has, and of which rows, depends on
/// none of these; the order of groups that are not to be sorted may.
#[derive(Clone, Copy, Debug, PartialEq, Eq)]
pub struct Pool {
    workers: usize,
    partitions: usize,
    row_threshold: usize,
    piece_rows: usize,
    seed: u64,
    ghost fits: { FitsPool workers partitions row_threshold piece_rows },
}

impl Pool {
    ghost use Rattle.gb_base.specs.Pool.{workers_of, partitions_of, threshold_of, piece_of, seed_of};

    /// The test that `new` asks of its caller.
    pub fn fits(workers: usize, partitions: usize, row_threshold: usize, piece_rows: usize) -> bool
        ensures { IsTrue result ↔ FitsPool workers partitions row_threshold piece_rows }
    {
        1 <= workers
            && workers <= 64
            && 1 <= partitions
            && partitions <= 1024
            && 1 <= row_threshold
            && 1 <= piece_rows
    }

    pub fn new(
        workers: usize,
        partitions: usize,
        row_threshold: usize,
        piece_rows: usize,
        seed: u64,
    ) -> Pool
        requires { FitsPool workers partitions row_threshold piece_rows }
        ensures workers { workers_of result ≡ workers }
        ensures partitions { partitions_of result ≡ partitions }
        ensures row_threshold { threshold_of result ≡ row_threshold }
        ensures piece_rows { piece_of result ≡ piece_rows }
        ensures seed { seed_of result ≡ seed }
    {
        Pool {
            workers,
            partitions,
            row_threshold,
            piece_rows,
            seed,
        }
    }

    pub fn workers(&self) -> usize
        ensures value { result ≡ workers_of self.now }
        ensures some { 1 ≤ result }
        ensures few { result ≤ 64 }
    {
        self.workers
    }

    pub fn partitions(&self) -> usize
        ensures value { result ≡ partitions_of self.now }
        ensures some { 1 ≤ result }
        ensures few { result ≤ 1024 }
    {
        self.partitions
    }

    pub fn row_threshold(&self) -> usize
        ensures { result ≡ threshold_of self.now }
    {
        self.row_threshold
    }

    pub fn piece_rows(&self) -> usize
        ensures { result ≡ piece_of self.now }
    {
        self.piece_rows
    }

    pub fn seed(&self) -> u64
        ensures { result ≡ seed_of self.now }
    {
        self.seed
    }
}
