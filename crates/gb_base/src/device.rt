//! The outside of the program, as its contracts see it. A device that tells its bytes says in its ghost
//! members what it has left or holds; one that does not says `None`, and then a clause knows counts alone.

ghost use Rattle.std.specs.Prelude.{◌≡◌, ℕ, ◌<◌, ◌≤◌, List, take, length, Option, IfOk, OnErr};
ghost use Rattle.gb_base.specs.Device.{HasNone, Rose, with_front, with_piece};

/// The one answer of a device that fails.
#[derive(Clone, Copy, Debug, PartialEq, Eq)]
pub struct Failed;

/// Where bytes come from.
pub trait Source {
    // The bytes that are left, where it tells them.
    ghost left: { Self → Option (List ℕ) };

    // How often it has failed.
    ghost faults: { Self → ℕ };

    /// Puts the next bytes into the front of the room, and says how many. None into a room with a place
    /// is the end of the input.
    fn read(&mut self, room: &mut [u8]) -> Result<usize, Failed>
        ensures count { IfOk result (λ n. n ≤ length room.new) }
        ensures bytes { IfOk result
            (λ n. left self.old ≡ with_front (take n room.new) (left self.new)) }
        ensures ends { IfOk result (λ n. n ≡ 0 → 0 < length room.new → HasNone (left self.new)) }
        ensures failed { OnErr result (Rose (faults self.old) (faults self.new)) }
        ensures kept { faults self.old ≤ faults self.new };
}

/// Where bytes go to.
pub trait Sink {
    // The bytes that it holds, where it tells them.
    ghost held: { Self → Option (List ℕ) };

    // How often it has failed.
    ghost faults: { Self → ℕ };

    /// Takes bytes from the front of the piece, at least one where there is one, and says how many. A
    /// failure takes none.
    fn write(&mut self, piece: &[u8]) -> Result<usize, Failed>
        ensures count { IfOk result (λ n. n ≤ length piece.now) }
        ensures some { IfOk result (λ n. 0 < length piece.now → 0 < n) }
        ensures bytes { IfOk result
            (λ n. held self.new ≡ with_piece (held self.old) (take n piece.now)) }
        ensures failed { OnErr result (Rose (faults self.old) (faults self.new)) }
        ensures nothing { OnErr result (held self.new ≡ held self.old) }
        ensures kept { faults self.old ≤ faults self.new };
}

/// What each piece of work enters and leaves. Only tests have one that waits.
pub trait Gate {
    fn enter(&self, piece: u64);

    fn leave(&self, piece: u64);
}
