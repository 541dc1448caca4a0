//! A column while its cells are read. Categories are read as texts, which get their codes as a whole
//! once all of them are there. Of a column that nobody asks for, cells are only checked.

ghost use Rattle.std.specs.Prelude.{◌≡◌, ℕ, List, [], length, true, option_map, IfErr, IfOk, OnErr, OnOk};
ghost use Rattle.std.specs.Bool.{OnFalse, OnTrue};
ghost use Rattle.std.specs.Str.{IsUtf8};
ghost use Rattle.gb_defs.specs.Table.{Head};
ghost use Rattle.gb_base.specs.DataType.{ordering_of, type_of};
ghost use Rattle.gb_base.specs.PlSmallStr.{name_of};
ghost use Rattle.gb_defs.specs.ColumnType.{text};
ghost use Rattle.gb_text.specs.Builder.{IsNamed, IsOfWords, PassesDigits, PassesTexts, rechunked_of};
ghost use Rattle.gb_text.specs.Building.{BuildsCell, IsRoomy, IsWhole, in_one_chunk, read_if_kept};
ghost use Rattle.gb_text.specs.Grown.{categories_in};
ghost use Rattle.gb_text.specs.Part.{HasFew, emptied, joined_to};
ghost use Rattle.gb_text.specs.Plain.{AreFewDigits};
ghost use Rattle.gb_text.specs.Table.{built_of};

use crate::table::only_memory;
use gb_base::data_type::{CategoricalOrdering, DataType};
use gb_base::small_str::PlSmallStr;
use gb_cols::chunked::{ChunkedArray, StringChunked};
use gb_cols::series_trait::SeriesTrait;
use gb_logical::categorical::CategoricalChunked;
use gb_series::into_series::IntoSeries;
use gb_series::series::Series;
use std::alloc::{AllocError, Global};
use std::marker::Model;

/// What the cells of a column are kept as while they are read.
#[derive(Drop)]
pub enum Cells {
    /// Slots of the column's type.
    Slots(Series),
    /// Texts that are to become categories.
    Texts(StringChunked, CategoricalOrdering),
}

impl Cells {
    ghost use Rattle.std.specs.Prelude.{◌≡◌, ◌+◌, ◌<◌, ◌^◌, [], is_some, length, true, IfOk, OnErr, OnOk};
    ghost use Rattle.std.specs.Bool.{OnFalse};
    ghost use Rattle.std.specs.Str.{IsUtf8};
    ghost use Rattle.gb_defs.specs.Cell.{cell_slot};
    ghost use Rattle.gb_defs.specs.Column.{fresh_column, rechunked};
    ghost use Rattle.gb_base.specs.DataType.{type_of};
    ghost use Rattle.gb_base.specs.PlSmallStr.{name_of};
    ghost use Rattle.gb_cols.specs.Column.{HasRoom, TakesCell, appended};
    ghost use Rattle.gb_series.specs.Series.{value_of};
    ghost use Rattle.gb_text.specs.Builder.{IsNamed, TakesCells, slots_in};
    ghost use Rattle.gb_text.specs.Building.{IsWholeColumn, read_as};

    // No slots, of a type that a header can name.
    fn new(alloc: Global, name: PlSmallStr, dtype: DataType) -> Cells
        requires { IsNamed dtype }
        ensures slots { slots_in result ≡ fresh_column (name_of name) (type_of dtype) [] }
        ensures takes { TakesCells result }
    {
        match dtype {
            DataType::Categorical(_, ordering) => {
                Cells::Texts(ChunkedArray::new(alloc, name), ordering)
            }
            dtype => Cells::Slots(Series::new_empty(alloc, name, dtype)),
        }
    }

    // Whether a cell reads as a slot.
    #[inline(always)]
    fn read(&self, cell: &[u8], is_text: bool, null_word: &str) -> bool
        requires takes { TakesCells self.now }
        requires is_text { is_text ≡ true → IsUtf8 cell.now }
        ensures { result ≡ is_some (cell_slot null_word.now (slots_in self.now).dtype cell.now) }
    {
        match self {
            Cells::Slots(column) => column.reads_cell(cell, is_text, null_word),
            Cells::Texts(texts, _) => texts.reads_cell(cell, is_text, null_word),
        }
    }

    // The slot that a cell reads as at the end, and whether it reads.
    #[inline(always)]
    fn push(&mut self, cell: &[u8], is_text: bool, null_word: &str) -> Result<bool, AllocError>
        requires takes { TakesCells self.old }
        requires room { HasRoom (slots_in self.old) }
        requires is_text { is_text ≡ true → IsUtf8 cell.now }
        ensures ok { IfOk result
            (TakesCell null_word.now (slots_in self.old) (slots_in self.new) cell.now) }
        ensures refused { IfOk result (λ took.
            OnFalse took (slots_in self.new ≡ slots_in self.old)) }
        ensures unchanged { OnErr result (slots_in self.new ≡ slots_in self.old) }
        ensures takes { TakesCells self.new }
    {
        match self {
            Cells::Slots(column) => column.push_cell(cell, is_text, null_word),
            Cells::Texts(texts, _) => texts.push_cell(cell, is_text, null_word),
        }
    }

    // The other's slots behind, in chunks of their own.
    fn append(&mut self, other: Cells) -> Result<(), AllocError>
        requires takes { TakesCells self.old }
        requires takes_other { TakesCells other }
        requires typed { (slots_in other).dtype ≡ (slots_in self.old).dtype }
        requires few { length (slots_in self.old).slots + length (slots_in other).slots < 2 ^ 63 }
        ensures ok { OnOk result
            (slots_in self.new ≡ appended (slots_in self.old) (slots_in other)) }
        ensures takes { TakesCells self.new }
    {
        match (self, other) {
            (Cells::Slots(column), Cells::Slots(more)) => only_memory(column.append(more)),
            (Cells::Texts(texts, _), Cells::Texts(more, _)) => only_memory(texts.append(more)),
            _ => unreachable!(),
        }
    }

    // How many cells were kept.
    fn len(&self) -> usize
        ensures { result ≡ length (slots_in self.now).slots }
    {
        match self {
            Cells::Slots(column) => column.len(),
            Cells::Texts(texts, _) => texts.len(),
        }
    }

    // The column of the cells. Texts of categories are hashed under the seed.
    fn finish(self, seed: u64) -> Result<Series, AllocError>
        requires takes { TakesCells self }
        requires whole { IsWholeColumn (slots_in self) }
        ensures { IfOk result (λ column. rechunked (value_of column) ≡ read_as (slots_in self)) }
    {
        match self {
            Cells::Slots(column) => Ok(column),
            Cells::Texts(texts, ordering) => {
                let coded = only_memory(CategoricalChunked::from_strings(&texts, ordering, seed))?;
                Ok(coded.into_series())
            }
        }
    }
}

// Whether a type is that of whole numbers of 64 bits.
fn is_of_words(dtype: &DataType) -> bool
    ensures { OnTrue result (IsOfWords (type_of dtype.now)) }
{
    match dtype {
        DataType::Int64 => true,
        DataType::UInt64 => true,
        _ => false,
    }
}

// Whether a type is that of texts.
fn is_of_texts(dtype: &DataType) -> bool
    ensures { OnTrue result (type_of dtype.now ≡ text) }
{
    match dtype {
        DataType::String => true,
        _ => false,
    }
}

/// A column while its cells are read. Contracts see the slots that the cells read as, a category's as
/// its texts, or nulls where they are not kept.
#[derive(Drop)]
pub struct ColumnBuilder {
    cells: Cells,
    // How many cells were checked, where none is kept.
    checked: Option<usize>,
    // Whether cells of few digits need no check.
    passes_digits: bool,
    // Whether texts need no check.
    passes_texts: bool,
}

impl Model for ColumnBuilder {
    ghost use Rattle.gb_text.specs.Builder.{IsBuilder, built};
    ghost use Rattle.gb_text.specs.Building.{Building, building_code};

    ghost Value = { Building };

    ghost coded = { building_code };

    ghost view = { λ b. built b.cells b.checked };

    ghost invariant = { λ b. IsBuilder b.cells b.checked b.passes_digits b.passes_texts };
}

impl ColumnBuilder {
    /// A column of a type that a header can name, with no slots. Where it is not to keep them, its cells
    /// are only checked.
    pub fn new(alloc: Global, name: PlSmallStr, dtype: DataType, keeps: bool) -> ColumnBuilder
        requires { IsNamed dtype }
        ensures { let head : Head = record { name = name_of name; dtype = type_of dtype } in
            result ≡ built_of keeps head [] }
    {
        let passes_digits = is_of_words(&dtype);
        let passes_texts = is_of_texts(&dtype);
        let cells = Cells::new(alloc, name, dtype);
        if keeps {
            ColumnBuilder {
                cells,
                checked: None,
                passes_digits: false,
                passes_texts: false,
            }
        } else {
            ColumnBuilder {
                cells,
                checked: Some(0),
                passes_digits,
                passes_texts,
            }
        }
    }

    /// How many cells were read.
    pub fn len(&self) -> usize
        ensures { result ≡ length self.now.column.slots }
    {
        match self.checked {
            Some(count) => count,
            None => self.cells.len(),
        }
    }

    /// Whether cells of few digits need no check, since each of them reads and none is kept.
    #[inline(always)]
    pub fn passes_digits(&self) -> bool
        ensures { OnTrue result (PassesDigits self.now) }
    {
        self.passes_digits
    }

    /// A cell of few digits more, whichever it is.
    #[inline(always)]
    pub fn pass_digits(&mut self)
        requires passes { PassesDigits self.old }
        requires room { IsRoomy self.old }
        ensures { (null_word cell : List ℕ) → AreFewDigits cell →
            BuildsCell null_word self.old self.new cell true }
    {
        match self.checked {
            Some(count) => self.checked = Some(count + 1),
            None => unreachable!(),
        }
    }

    /// Whether texts need no check, since each of them reads and none is kept.
    #[inline(always)]
    pub fn passes_texts(&self) -> bool
        ensures { OnTrue result (PassesTexts self.now) }
    {
        self.passes_texts
    }

    /// A text more, whichever it is.
    #[inline(always)]
    pub fn pass_text(&mut self)
        requires passes { PassesTexts self.old }
        requires room { IsRoomy self.old }
        ensures { (null_word cell : List ℕ) → IsUtf8 cell →
            BuildsCell null_word self.old self.new cell true }
    {
        match self.checked {
            Some(count) => self.checked = Some(count + 1),
            None => unreachable!(),
        }
    }

    /// The slot that a cell reads as at the end, and whether it reads. A cell that is known to be a text
    /// is not looked at again.
    #[inline(always)]
    pub fn push_cell(
        &mut self,
        cell: &[u8],
        is_text: bool,
        null_word: &str,
    ) -> Result<bool, AllocError>
        requires room { IsRoomy self.old }
        requires is_text { is_text ≡ true → IsUtf8 cell.now }
        ensures ok { IfOk result (BuildsCell null_word.now self.old self.new cell.now) }
        ensures refused { IfOk result (λ took. OnFalse took (self.new ≡ self.old)) }
        ensures unchanged { OnErr result (self.new ≡ self.old) }
    {
        match self.checked {
            Some(count) => {
                if !self.cells.read(cell, is_text, null_word) {
                    return Ok(false);
                }
                self.checked = Some(count + 1);
                Ok(true)
            }
            None => self.cells.push(cell, is_text, null_word),
        }
    }

    /// The other's cells behind. Both are of one type, and keep their slots or do not. Copies no slot.
    pub fn append(&mut self, other: ColumnBuilder) -> Result<(), AllocError>
        requires alike { emptied self.old ≡ emptied other }
        requires few { HasFew self.old × HasFew other }
        ensures { OnOk result (in_one_chunk self.new ≡ in_one_chunk (joined_to self.old other)) }
    {
        let ColumnBuilder {
            cells,
            checked,
            passes_digits: _,
            passes_texts: _,
        } = other;
        match (self.checked, checked) {
            (Some(count), Some(more)) => {
                self.checked = Some(count + more);
                Ok(())
            }
            (None, None) => self.cells.append(cells),
            _ => unreachable!(),
        }
    }

    /// The texts of categories that are kept, and else the column as it was.
    pub fn into_categories(self) -> Result<(StringChunked, CategoricalOrdering), ColumnBuilder>
        ensures ok { IfOk result (λ r. self ≡ categories_in (ordering_of r.1) r.0) }
        ensures typed { IfOk result (λ r. r.0.dtype ≡ text) }
        ensures err { IfErr result (λ b. b ≡ self) }
    {
        let ColumnBuilder {
            cells,
            checked,
            passes_digits,
            passes_texts,
        } = self;
        match (checked, cells) {
            (None, Cells::Texts(texts, ordering)) => Ok((texts, ordering)),
            (checked, cells) => Err(ColumnBuilder {
                cells,
                checked,
                passes_digits,
                passes_texts,
            }),
        }
    }

    /// The column of the cells, None where they were only checked. One pass over the texts of
    /// categories, which are hashed under the seed.
    pub fn finish(self, seed: u64) -> Result<Option<Series>, AllocError>
        requires { IsWhole self }
        ensures { IfOk result (λ found. option_map rechunked_of found ≡ read_if_kept self) }
    {
        let ColumnBuilder {
            cells,
            checked,
            passes_digits: _,
            passes_texts: _,
        } = self;
        match checked {
            Some(_) => Ok(None),
            None => Ok(Some(cells.finish(seed)?)),
        }
    }
}
