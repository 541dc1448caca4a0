//! A hasher of keys that are hashes already.

ghost use Rattle.std.specs.Prelude.{◌≡◌, ℕ};
ghost use Rattle.gb_defs.specs.Hash.{word_of};

use std::marker::Model;

/// Gives back the number that was written last, and 0 before any.
#[derive(Clone, Copy, Default)]
pub struct IdHasher {
    hash: u64,
}

impl Model for IdHasher {
    ghost Value = { ℕ };

    ghost view = { λ hasher. hasher.hash };

    ghost inverse = { λ hash. record { hash = hash } };
}

impl IdHasher {
    pub fn new() -> IdHasher
        ensures { result ≡ 0 }
    {
        IdHasher { hash: 0 }
    }

    #[inline]
    pub fn write_u32(&mut self, n: u32)
        ensures { self.new ≡ n }
    {
        self.hash = u64::from(n);
    }

    #[inline]
    pub fn write_u64(&mut self, n: u64)
        ensures { self.new ≡ n }
    {
        self.hash = n;
    }

    #[inline]
    pub fn write_i32(&mut self, n: i32)
        ensures { self.new ≡ word_of n }
    {
        self.hash = i64::from(n).cast_unsigned();
    }

    #[inline]
    pub fn write_i64(&mut self, n: i64)
        ensures { self.new ≡ word_of n }
    {
        self.hash = n.cast_unsigned();
    }

    #[inline]
    pub fn finish(&self) -> u64
        ensures { result ≡ self.now }
    {
        self.hash
    }
}
