//! Which orders the slots of a column are in, found in one pass over them.

ghost use Rattle.std.specs.Prelude.{◌≡◌, ◌<◌, ◌&&◌, Some, not, true, drop, length, IfSome};
ghost use Rattle.std.specs.Ordering.{is_ge, is_le};
ghost use Rattle.gb_defs.specs.Slot.{slot_at};
ghost use Rattle.gb_values.specs.SlotOrder.{fresh_walk, is_open, last_slot, stepped, walked};

use crate::nullable::{NullableArray, Values};
use std::cmp::Ordering;

/// The orders that a column is in.
#[derive(Clone, Copy)]
pub struct SlotOrder {
    pub ascending: bool,
    pub descending: bool,
}

// The orders that the slots so far are in, and whether a null has stood beside a slot that is none.
#[derive(Clone, Copy)]
pub struct OrderWalk {
    ascending: bool,
    descending: bool,
    turned: bool,
}

impl OrderWalk {
    /// Before any slot.
    pub fn new() -> OrderWalk
        ensures { result ≡ fresh_walk }
    {
        OrderWalk {
            ascending: true,
            descending: true,
            turned: false,
        }
    }

    /// The orders that were found.
    pub fn found(self) -> SlotOrder
        ensures ascending { result.ascending ≡ self.ascending }
        ensures descending { result.descending ≡ self.descending }
    {
        SlotOrder {
            ascending: self.ascending,
            descending: self.descending,
        }
    }

    /// Over a chunk, behind the last chunk that has a slot.
    pub fn over<V: Values>(
        self,
        before: Option<&NullableArray<V>>,
        chunk: &NullableArray<V>,
    ) -> OrderWalk
        requires { IfSome before (λ chunk. 0 < length chunk.now) }
        ensures { result ≡ walked V.dtype self (last_slot before.entry) chunk.now }
    {
        if chunk.len() == 0 {
            return self;
        }
        if !self.is_open() {
            return self;
        }
        match before {
            Some(before) => self.step(before, before.len() - 1, chunk, 0).within(chunk),
            None => self.within(chunk),
        }
    }

    /// Over a chunk, behind its first slot.
    fn within<V: Values>(self, chunk: &NullableArray<V>) -> OrderWalk
        requires { 0 < length chunk.now }
        ensures { let first = slot_at chunk.now 0 in
            result ≡ walked V.dtype self (Some first) (drop 1 chunk.now) }
    {
        let mut walk = self;
        for i in 1..chunk.len() {
            if !walk.is_open() {
                return walk;
            }
            walk = walk.step(chunk, i - 1, chunk, i);
        }
        walk
    }

    /// Whether some order is left.
    pub fn is_open(self) -> bool
        ensures { result ≡ is_open self }
    {
        self.ascending || self.descending
    }

    // From a slot to the next.
    fn step<V: Values>(
        self,
        from: &NullableArray<V>,
        i: usize,
        to: &NullableArray<V>,
        j: usize,
    ) -> OrderWalk
        requires from { i < length from.now }
        requires to { j < length to.now }
        requires open { is_open self ≡ true }
        ensures { result ≡ stepped V.dtype self (slot_at from.now i) (slot_at to.now j) }
    {
        let valid = from.is_valid(i);
        if valid != to.is_valid(j) {
            return self.turn();
        }
        if !valid {
            return self;
        }
        self.compare(from.cmp_at(i, to, j))
    }

    // From a null to a slot that is none, or back.
    fn turn(self) -> OrderWalk
        ensures ascending { result.ascending ≡ (self.ascending && not self.turned) }
        ensures descending { result.descending ≡ (self.descending && not self.turned) }
        ensures turned { result.turned ≡ true }
    {
        OrderWalk {
            ascending: self.ascending && !self.turned,
            descending: self.descending && !self.turned,
            turned: true,
        }
    }

    // From a valid slot to a valid one, which compare so.
    fn compare(self, order: Ordering) -> OrderWalk
        ensures ascending { result.ascending ≡ (self.ascending && is_le order) }
        ensures descending { result.descending ≡ (self.descending && is_ge order) }
        ensures turned { result.turned ≡ self.turned }
    {
        OrderWalk {
            ascending: self.ascending && order.is_le(),
            descending: self.descending && order.is_ge(),
            turned: self.turned,
        }
    }
}
