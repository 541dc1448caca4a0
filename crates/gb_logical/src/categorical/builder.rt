//! Columns of categories while their texts come.

ghost use Rattle.std.specs.Prelude.{◌≡◌, ◌+◌, ◌++◌, ◌≤◌, ◌<◌, None, [], length, true, IfErr, IfOk, IfSome, OnOk, OnErr};
ghost use Rattle.std.specs.Bool.{OnFalse};
ghost use Rattle.std.specs.Str.{IsUtf8};
ghost use Rattle.gb_defs.specs.Column.{fresh_column};
ghost use Rattle.gb_defs.specs.ColumnType.{Categorical, Flat};
ghost use Rattle.gb_defs.specs.Table.{read_column};
ghost use Rattle.gb_base.specs.DataType.{ordering_of};
ghost use Rattle.gb_base.specs.PlSmallStr.{IsNoMemory, name_of};
ghost use Rattle.gb_cols.specs.Column.{TakesCell, pushed};
ghost use Rattle.gb_values.specs.Array.{text_slot};

use super::CategoricalChunked;
use super::codes::{code_column, code_text};
use gb_base::data_type::CategoricalOrdering;
use gb_base::error::PolarsResult;
use gb_base::rev_mapping::RevMapping;
use gb_base::small_str::PlSmallStr;
use gb_cols::chunked::StringChunked;
use gb_cols::primitive::UInt32Chunked;
use gb_cols::series_trait::SeriesTrait;
use gb_numbers::numeric::UInt32Type;
use gb_table::text_table::TextTable;
use gb_values::nullable::NullableArray;
use gb_values::primitive::PrimitiveArray;
use gb_values::utf8::is_utf8;
use std::alloc::{AllocError, Global};
use std::marker::Model;
use std::mem;
use std::sync::Arc;

/// A column of categories whose texts come some at a time. Each row has its code as soon as it comes.
/// Contracts see the texts.
#[derive(Drop)]
pub struct CategoricalBuilder {
    alloc: Global,
    seed: u64,
    name: PlSmallStr,
    ordering: CategoricalOrdering,
    known: TextTable,
    codes: PrimitiveArray<UInt32Type>,
}

impl Model for CategoricalBuilder {
    ghost use Rattle.std.specs.Prelude.{None, map};
    ghost use Rattle.gb_defs.specs.Column.{ColumnValue, column_code, fresh_column};
    ghost use Rattle.gb_defs.specs.ColumnType.{Categorical, Flat};
    ghost use Rattle.gb_base.specs.DataType.{ordering_of};
    ghost use Rattle.gb_base.specs.PlSmallStr.{name_of};
    ghost use Rattle.gb_logical.specs.CategoricalBuilder.{AreSoFar, decoded_slot};

    ghost Value = { ColumnValue };

    ghost coded = { column_code };

    ghost view = { λ b. fresh_column
        (name_of b.name)
        (Flat (Categorical None (ordering_of b.ordering)))
        (map (decoded_slot b.known) b.codes) };

    ghost invariant = { λ b. AreSoFar b.known b.codes };
}

impl CategoricalBuilder {
    /// A column with no rows, and no memory taken. Texts are hashed under the seed, of which no code depends:
    /// where they come from strangers it has to be one that they do not know.
    pub fn new(
        alloc: Global,
        name: PlSmallStr,
        ordering: CategoricalOrdering,
        seed: u64,
    ) -> CategoricalBuilder
        ensures { let dtype = Flat (Categorical None (ordering_of ordering)) in
            result ≡ fresh_column (name_of name) dtype [] }
    {
        CategoricalBuilder {
            alloc,
            seed,
            name,
            ordering,
            known: TextTable::new(alloc, seed),
            codes: NullableArray::empty(alloc),
        }
    }

    /// How many rows there are.
    pub fn len(&self) -> usize
        ensures { result ≡ length self.now.slots }
    {
        self.codes.len()
    }

    /// The texts of all rows behind those before. After an error there are no rows.
    pub fn push_texts(&mut self, texts: &StringChunked) -> Result<(), AllocError>
        requires { length self.old.slots + length texts.now.slots ≤ 4294967295 }
        ensures ok { let slots = self.old.slots ++ texts.now.slots in
            OnOk result (self.new ≡ fresh_column self.old.name self.old.dtype slots) }
        ensures err { OnErr result (self.new ≡ fresh_column self.old.name self.old.dtype []) }
    {
        let alloc = texts.allocator();
        let mut known = mem::replace(&mut self.known, TextTable::new(alloc, self.seed));
        let mut codes = mem::replace(&mut self.codes, NullableArray::empty(alloc));
        codes.reserve(texts.len())?;
        code_column(texts, &mut known, &mut codes)?;
        self.known = known;
        self.codes = codes;
        Ok(())
    }

    // A text behind those before, null for none. After an error there are no rows.
    fn push_text(&mut self, text: Option<&str>) -> Result<(), AllocError>
        requires room { length self.old.slots < 4294967295 }
        requires utf8 { IfSome text (λ t. IsUtf8 t.now) }
        ensures ok { OnOk result (self.new ≡ pushed self.old (text_slot text.entry)) }
        ensures err { OnErr result (self.new ≡ fresh_column self.old.name self.old.dtype []) }
    {
        let mut known = mem::replace(&mut self.known, TextTable::new(self.alloc, self.seed));
        let mut codes = mem::replace(&mut self.codes, NullableArray::empty(self.alloc));
        code_text(text, &mut known, &mut codes)?;
        self.known = known;
        self.codes = codes;
        Ok(())
    }

    /// The text of a table's cell behind those before, or null, and whether the cell reads. A cell that is known
    /// to be a text is not looked at again. After an error there are no rows.
    pub fn push_cell(
        &mut self,
        cell: &[u8],
        is_text: bool,
        null_word: &str,
    ) -> Result<bool, AllocError>
        requires room { length self.old.slots < 4294967295 }
        requires is_text { is_text ≡ true → IsUtf8 cell.now }
        ensures ok { IfOk result (TakesCell null_word.now self.old self.new cell.now) }
        ensures refused { IfOk result (λ took. OnFalse took (self.new ≡ self.old)) }
        ensures err { OnErr result (self.new ≡ fresh_column self.old.name self.old.dtype []) }
    {
        // The use of a field tells the column's type.
        let _ = &self.name;
        if cell == null_word.as_bytes() {
            self.push_text(None)?;
            return Ok(true);
        }
        if !is_utf8(cell, is_text) {
            return Ok(false);
        }
        self.push_text(Some(unsafe { str::from_utf8_unchecked(cell) }))?;
        Ok(true)
    }

    /// The column of the rows.
    pub fn finish(self) -> PolarsResult<CategoricalChunked>
        ensures ok { IfOk result (λ c.
            c ≡ read_column self.name self.dtype self.slots) }
        ensures err { IfErr result IsNoMemory }
    {
        let CategoricalBuilder {
            alloc,
            seed: _,
            name,
            ordering,
            known,
            codes,
        } = self;
        let map = RevMapping::from_table(known);
        Ok(CategoricalChunked {
            physical: UInt32Chunked::from_chunk(alloc, name, codes),
            map: Arc::new(alloc, map)?,
            ordering,
            is_enum: false,
            all_used: true,
        })
    }
}
