//! Which slots of a storage are null.

ghost use Rattle.std.specs.Prelude.{◌≡◌, ◌+◌, ◌<◌, ◌≤◌, ◌++◌, ◌∷◌, [], length, vec_len, vec_capacity, true, false, not, IfOk, OnOk, OnErr, slice_index_or};
ghost use Rattle.std.specs.List.{count_by};
ghost use Rattle.gb_values.specs.Array.{HasRoomForValid, IsPartOfFlags, filled, part_flags, valid_pushed};

use std::alloc::{AllocError, Global};

/// Which slots of a storage are valid: a flag for each, or no flags where all are.
#[derive(Drop)]
pub(crate) struct Validity {
    flags: Vec<bool>,
}

impl Validity {
    /// No flags, and no memory.
    pub(crate) fn new(alloc: Global) -> Validity
        ensures { result.flags.items ≡ [] }
    {
        Validity {
            flags: Vec::new(alloc),
        }
    }

    /// These flags.
    pub(crate) fn from_flags(flags: Vec<bool>) -> Validity
        ensures { result.flags.items ≡ flags.items }
    {
        Validity { flags }
    }

    pub(crate) fn is_valid(&self, i: usize) -> bool
        ensures { result ≡ slice_index_or self.now.flags.items i true }
    {
        match self.flags.get(i) {
            Some(flag) => *flag,
            None => true,
        }
    }

    /// Whether there are no flags, so that every slot is valid.
    pub(crate) fn is_empty(&self) -> bool
        ensures { result ≡ true → self.now.flags.items ≡ [] }
    {
        self.flags.is_empty()
    }

    /// How many flags say that a slot is null.
    pub(crate) fn null_count(&self) -> usize
        ensures { result ≡ count_by not self.now.flags.items }
    {
        self.flags.iter().filter(|flag| !**flag).count()
    }

    /// Room for the flag of one slot more that is valid, where there are flags.
    #[inline]
    pub(crate) fn reserve_one(&mut self) -> Result<(), AllocError>
        ensures same { self.new.flags.items ≡ self.old.flags.items }
        ensures room { OnOk result (HasRoomForValid self.new.flags) }
    {
        if !self.flags.is_empty() {
            self.flags.reserve(1)?;
        }
        Ok(())
    }

    /// One slot more that is valid, for which there is room.
    #[inline]
    pub(crate) fn push_reserved_valid(&mut self)
        requires { HasRoomForValid self.old.flags }
        ensures { self.new.flags.items ≡ valid_pushed self.old.flags.items }
    {
        if !self.flags.is_empty() {
            self.flags.push_reserved(true);
        }
    }

    /// A flag for each of so many slots, where there are none, and room for so many more.
    pub(crate) fn fill(&mut self, count: usize, additional: usize) -> Result<(), AllocError>
        ensures ok { OnOk result (self.new.flags.items ≡ filled count self.old.flags.items) }
        ensures room { let flags = self.new.flags in
            OnOk result (vec_len flags + additional ≤ vec_capacity flags) }
        ensures err { OnErr result (self.new.flags.items ≡ self.old.flags.items) }
    {
        if self.flags.is_empty() {
            let mut flags = Vec::new(*self.flags.allocator());
            flags.resize(count, true)?;
            flags.reserve(additional)?;
            self.flags = flags;
        } else {
            self.flags.reserve(additional)?;
        }
        Ok(())
    }

    /// One slot more that is null, for which there is room.
    pub(crate) fn push_reserved_null(&mut self)
        requires { vec_len self.old.flags < vec_capacity self.old.flags }
        ensures { self.new.flags.items ≡ self.old.flags.items ++ false ∷ [] }
    {
        self.flags.push_reserved(false);
    }

    /// The other's flags of so many slots from a place on, for which there is room.
    pub(crate) fn extend_reserved(&mut self, other: &Validity, start: usize, count: usize)
        requires room { vec_len self.old.flags + count ≤ vec_capacity self.old.flags }
        requires inside { IsPartOfFlags start count (length other.now.flags.items) }
        ensures { self.new.flags.items
            ≡ self.old.flags.items ++ part_flags start count other.now.flags.items }
    {
        let extended = if other.flags.is_empty() {
            self.flags.resize(self.flags.len() + count, true)
        } else {
            self.flags
                .extend_from_slice(&other.flags.as_slice()[start..start + count])
        };
        let Ok(()) = extended else {
            unreachable!();
        };
    }

    /// The same flags.
    pub(crate) fn try_clone(&self) -> Result<Validity, AllocError>
        ensures { IfOk result (λ copy. copy.flags.items ≡ self.now.flags.items) }
    {
        Ok(Validity {
            flags: Vec::from_slice(*self.flags.allocator(), &self.flags)?,
        })
    }
}
