//! Distinct texts, each by a number.

ghost use Rattle.std.specs.Prelude.{◌≡◌, ◌*◌, ◌^◌, ◌<◌, ◌++◌, ◌∷◌, [], Some, All, IfOk, OnOk, OnErr, length, map, get_or, position, slice_get, if◌then◌else◌};
ghost use Rattle.std.specs.List.{IsDistinct, list_any};
ghost use Rattle.std.specs.Str.{IsUtf8, bytes_eq};
ghost use Rattle.gb_table.specs.Table.{IsRoomy, IsTable};
ghost use Rattle.gb_table.specs.TextKey.{hash_of};
ghost use Rattle.gb_table.specs.TextTable.{AreKeyed, HasSlots, IsTextSpot};

use crate::slots::{Hashed, Spot, make_room, rebuilt};
use crate::text_key::TextKey;
use crate::texts::Texts;
use std::alloc::{AllocError, Global};
use std::marker::Model;

/// Distinct texts in the order in which they first came. The number of a text is its place. Each text is
/// copied once, into one buffer, and a short one is compared by its key alone. Texts are hashed under a seed,
/// of which no number depends: where they come from strangers it has to be one that they do not know.
#[derive(Debug, Drop)]
pub struct TextTable {
    seed: u64,
    // 0 where a slot is free, else a text's number and 1.
    slots: Vec<u32>,
    keys: Vec<TextKey>,
    texts: Texts,
}

impl Model for TextTable {
    ghost use Rattle.std.specs.Prelude.{List, ℕ};
    ghost use Rattle.std.specs.Coded.{coded_list, coded_ℕ};
    ghost use Rattle.gb_table.specs.TextTable.{IsTextTable};

    ghost Value = { List (List ℕ) };

    ghost coded = { coded_list (coded_list coded_ℕ) };

    ghost view = { λ table. table.texts };

    ghost invariant = { λ table.
        IsTextTable table.seed table.slots.items table.keys.items table.texts };
}

impl PartialEq for TextTable {
    ghost use Rattle.std.specs.Cmp.{partial_equiv_from_equiv};
    ghost use Rattle.std.specs.Cmp.Lexicographic.{lists_equiv, nat_list_eq_equiv, pointwise};

    ghost eq = { pointwise bytes_eq };

    ghost laws = { partial_equiv_from_equiv (lists_equiv nat_list_eq_equiv) };

    fn eq(&self, other: &TextTable) -> bool {
        self.texts.equals(&other.texts)
    }
}

impl Eq for TextTable {
    ghost use Rattle.std.specs.Cmp.Lexicographic.{lists_equiv, nat_list_eq_equiv};

    ghost laws = { lists_equiv nat_list_eq_equiv };
}

impl TextTable {
    /// No texts, and no memory taken.
    pub fn new(alloc: Global, seed: u64) -> TextTable
        ensures { result ≡ [] }
    {
        TextTable {
            seed,
            slots: Vec::new(alloc),
            keys: Vec::new(alloc),
            texts: Texts::new(alloc),
        }
    }

    /// How many texts there are. They differ.
    pub fn len(&self) -> usize
        ensures value { result ≡ length self.now }
        ensures few { result < 2 ^ 32 }
        ensures differ { IsDistinct bytes_eq self.now }
    {
        self.texts.len()
    }

    /// The text of a number.
    #[inline]
    pub fn get(&self, number: u32) -> &str
        requires { number < length self.now }
        ensures { slice_get self.now number ≡ Some result.now }
    {
        self.texts.get(number as usize)
    }

    /// The number of a text, none where it is none of the texts.
    pub fn find(&self, text: &str) -> Option<u32>
        ensures { result ≡ position (bytes_eq text.now) self.now }
    {
        if self.slots.is_empty() {
            return None;
        }
        let key = TextKey::new(text, self.seed);
        match probe(&self.slots, &self.keys, &self.texts, text, key) {
            Spot::Known(number) => Some(number),
            Spot::Free(_) => None,
        }
    }

    /// The number of a text. One that is new comes last. A call takes constant time beside the length of
    /// the text, on average over all calls, since the table grows.
    #[inline]
    pub fn number_of(&mut self, text: &str) -> Result<u32, AllocError>
        requires { length self.old < 4294967295 }
        ensures number { IfOk result (λ number.
            position (bytes_eq text.now) self.new ≡ Some number) }
        ensures texts { OnOk result (self.new
            ≡ (if list_any (bytes_eq text.now) self.old
            then self.old else self.old ++ text.now ∷ [])) }
        ensures unchanged { OnErr result (self.new ≡ self.old) }
    {
        make_slots(&mut self.slots, &self.keys)?;
        let key = TextKey::new(text, self.seed);
        match probe(&self.slots, &self.keys, &self.texts, text, key) {
            Spot::Known(number) => Ok(number),
            Spot::Free(at) => {
                let number = self.keys.len() as u32;
                self.keys.reserve(1)?;
                self.texts.push(text)?;
                self.keys.push_reserved(key);
                self.slots[at] = number + 1;
                Ok(number)
            }
        }
    }
}

// Slots of which more than half are free, the first ones or twice as many as before.
#[inline]
fn make_slots(slots: &mut Vec<u32>, keys: &[TextKey]) -> Result<(), AllocError>
    requires has_slots { HasSlots slots.old.items keys.now }
    requires few { length keys.now < 2 ^ 32 }
    ensures roomy { OnOk result (IsRoomy slots.new.items (map hash_of keys.now)) }
    ensures room { OnOk result (2 * length keys.now < length slots.new.items) }
    ensures unchanged { OnErr result (slots.new.items ≡ slots.old.items) }
{
    if slots.is_empty() {
        *slots = rebuilt(*slots.allocator(), keys, 16)?;
        return Ok(());
    }
    make_room(slots, keys)
}

// The number of a text, or the slot that it would take.
#[inline]
fn probe(slots: &[u32], keys: &[TextKey], texts: &Texts, text: &str, key: TextKey) -> Spot
    requires table { IsTable slots.now (map hash_of keys.now) }
    requires room { length keys.now < length slots.now }
    requires keyed { AreKeyed keys.now texts.now key text.now }
    requires utf8 { All IsUtf8 texts.now }
    ensures { IsTextSpot slots.now texts.now key text.now result }
{
    let mask = slots.len() - 1;
    let mut at = (key.hash() & mask as u64) as usize;
    for _probe in 0..slots.len() {
        let slot = slots[at];
        if slot == 0 {
            return Spot::Free(at);
        }
        if stands_at(keys, texts, (slot - 1) as usize, text, key) {
            return Spot::Known(slot - 1);
        }
        at = (at + 1) & mask;
    }
    unreachable!()
}

// Whether a text stands at a place. A short one is told by its key, and is not read.
#[inline]
fn stands_at(keys: &[TextKey], texts: &Texts, place: usize, text: &str, key: TextKey) -> bool
    requires keyed { AreKeyed keys.now texts.now key text.now }
    requires utf8 { All IsUtf8 texts.now }
    requires inside { place < length texts.now }
    ensures { result ≡ bytes_eq text.now (get_or texts.now place []) }
{
    if !keys[place].is(key) {
        return false;
    }
    if key.is_whole() {
        return true;
    }
    text == texts.get(place)
}

#[cfg(test)]
mod tests;
