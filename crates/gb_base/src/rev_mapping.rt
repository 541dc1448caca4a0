//! The texts of a category column, each by its code.

ghost use Rattle.std.specs.Prelude.{◌≡◌, ◌<◌, ◌^◌, ◌↔◌, [], IsTrue, length, map, position, slice_get, vec_len, Some, IfOk, IfErr, OnOk, OnErr};
ghost use Rattle.std.specs.List.{IsDistinct};
ghost use Rattle.std.specs.Str.{bytes_eq};
ghost use Rattle.gb_defs.specs.Slot.{Bytes};
ghost use Rattle.gb_defs.specs.Table.{with_text};
ghost use Rattle.gb_base.specs.PlSmallStr.{IsNoMemory, name_of};

use crate::error::PolarsResult;
use crate::small_str::PlSmallStr;
use gb_table::text_table::TextTable;
use std::alloc::Global;
use std::collections::HashSet;
use std::marker::Model;

/// The distinct texts of a category column. The code of a text is its place.
#[derive(Debug, Drop)]
pub struct RevMapping {
    texts: TextTable,
}

impl Model for RevMapping {
    ghost use Rattle.std.specs.Prelude.{List, ℕ};
    ghost use Rattle.std.specs.Coded.{coded_list, coded_ℕ};

    ghost Value = { List (List ℕ) };

    ghost coded = { coded_list (coded_list coded_ℕ) };

    ghost view = { λ m. m.texts };
}

impl PartialEq for RevMapping {
    ghost use Rattle.std.specs.Cmp.{partial_equiv_from_equiv};
    ghost use Rattle.std.specs.Cmp.Lexicographic.{lists_equiv, nat_list_eq_equiv, pointwise};

    ghost eq = { pointwise bytes_eq };

    ghost laws = { partial_equiv_from_equiv (lists_equiv nat_list_eq_equiv) };

    fn eq(&self, other: &RevMapping) -> bool {
        self.texts == other.texts
    }
}

impl Eq for RevMapping {
    ghost use Rattle.std.specs.Cmp.Lexicographic.{lists_equiv, nat_list_eq_equiv};

    ghost laws = { lists_equiv nat_list_eq_equiv };
}

impl RevMapping {
    /// No texts. They are hashed under the seed, of which no code depends.
    pub fn new(alloc: Global, seed: u64) -> RevMapping
        ensures { result ≡ [] }
    {
        RevMapping {
            texts: TextTable::new(alloc, seed),
        }
    }

    /// These texts, in their order, hashed under the seed.
    pub fn build_local(texts: Vec<PlSmallStr>, seed: u64) -> PolarsResult<RevMapping>
        requires differ { IsDistinct bytes_eq (map name_of texts.items) }
        requires few { vec_len texts < 2 ^ 32 }
        ensures ok { IfOk result (λ m. m ≡ map name_of texts.items) }
        ensures err { IfErr result IsNoMemory }
    {
        let mut map = TextTable::new(*texts.allocator(), seed);
        for name in &texts {
            map.number_of(name.as_str())?;
        }
        Ok(RevMapping { texts: map })
    }

    /// The texts of a table, each with its number as code.
    pub fn from_table(texts: TextTable) -> RevMapping
        ensures { result ≡ texts }
    {
        RevMapping { texts }
    }

    /// How many texts there are. They differ.
    pub fn len(&self) -> usize
        ensures value { result ≡ length self.now }
        ensures few { result < 2 ^ 32 }
        ensures differ { IsDistinct bytes_eq self.now }
    {
        self.texts.len()
    }

    /// The text of a code.
    pub fn get(&self, code: u32) -> &str
        requires { code < length self.now }
        ensures { slice_get self.now code ≡ Some result.now }
    {
        self.texts.get(code)
    }

    /// The code of a text, none where it is none of the texts.
    pub fn find(&self, text: &str) -> Option<u32>
        ensures { result ≡ position (bytes_eq text.now) self.now }
    {
        self.texts.find(text)
    }

    /// The code of a text. One that is new comes last.
    #[inline]
    pub fn code_of(&mut self, text: &str) -> PolarsResult<u32>
        requires { length self.old < 4294967295 }
        ensures code { IfOk result (λ code. position (bytes_eq text.now) self.new ≡ Some code) }
        ensures texts { OnOk result (self.new ≡ with_text self.old (Bytes text.now)) }
        ensures err { IfErr result IsNoMemory }
        ensures unchanged { OnErr result (self.new ≡ self.old) }
    {
        Ok(self.texts.number_of(text)?)
    }
}

/// Whether no two texts are equal.
pub fn texts_differ(alloc: Global, texts: &[PlSmallStr]) -> PolarsResult<bool>
    ensures ok { let texts = map name_of texts.now in
        IfOk result (λ differ. IsTrue differ ↔ IsDistinct bytes_eq texts) }
    ensures err { IfErr result IsNoMemory }
{
    let distinct: HashSet<&PlSmallStr> = texts.iter().collect(alloc)?;
    Ok(distinct.len() == texts.len())
}
