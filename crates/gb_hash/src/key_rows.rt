//! Rows that have a key and a hash each, and a counter of the keys that are read, which takes no bytes.

ghost use Rattle.std.specs.Prelude.{◌≡◌, ℕ, ◌+◌, ◌<◌};
ghost use Rattle.std.specs.Bool.{Decides};
ghost use Rattle.gb_defs.specs.Rows.{Rows};
ghost use Rattle.gb_defs.specs.Slot.{Slot};
ghost use Rattle.gb_hash.specs.Keys.{HashAlike};

use std::hash::Hash;
use std::marker::Model;
use std::sync::ledger::{Blank, Book, Ledger, Share};

/// How many steps were taken. Only `tick` changes it.
#[derive(Drop)]
pub struct Steps<L: Ledger> {
    book: Book<L>,
    share: Share<L>,
}

impl<L: Ledger> Model for Steps<L> {
    ghost Value = { ℕ };

    ghost view = { λ steps. steps.book.total };

    ghost invariant = { λ steps. 0 < steps.share.parts };
}

impl<L: Ledger> Steps<L> {
    /// No steps yet.
    pub fn new(blank: Blank) -> Steps<L>
        requires name { blank.name ≡ L.name }
        requires parts { blank.parts ≡ L.parts }
        requires some { 0 < L.parts }
        ensures { result ≡ 0 }
    {
        let (book, share) = blank.open();
        Steps { book, share }
    }

    /// One step more.
    #[inline]
    pub fn tick(&mut self)
        ensures { self.new ≡ self.old + 1 }
    {
        self.book.add(&mut self.share, 1);
    }
}

/// Rows with a key and a hash each.
pub trait KeyRows: Sync {
    type Key: Copy + Eq + Hash + Send + Sync;

    // How many rows there are, and the slot and the hash of each.
    ghost rows: { Self → Rows };

    // The slot that a key stands for.
    ghost key_slot: { Self.Key → Slot };

    fn len(&self) -> usize
        ensures { result ≡ (rows self.now).count };

    /// The key of a row, in one step.
    fn key_at<L: Ledger>(&self, i: usize, steps: &mut Steps<L>) -> Self::Key
        requires { i < (rows self.now).count }
        ensures value { key_slot result ≡ (rows self.now).slot i }
        ensures one_step { steps.new ≡ steps.old + 1 };

    fn hash_at(&self, i: usize) -> u64
        requires { i < (rows self.now).count }
        ensures { result ≡ (rows self.now).hash i };

    // Keys are equal where they stand for one slot.
    ghost keys_decide: { (a b : Self.Key) → Decides (Self.Key.eq a b) (key_slot a ≡ key_slot b) };

    // Rows with one slot have one hash.
    ghost hashes_alike: { (r : Self) → HashAlike (rows r) };
}
