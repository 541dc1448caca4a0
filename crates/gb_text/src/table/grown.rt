//! The columns of a table so far. Texts of categories get their codes block by block, so that no more texts are
//! held than those of a block.

ghost use Rattle.std.specs.Prelude.{◌≡◌, ◌++◌, All, IfOk, None, OnOk, length, map, option_map, true};
ghost use Rattle.std.specs.Str.{IsUtf8};
ghost use Rattle.gb_base.specs.DataType.{ordering_of};
ghost use Rattle.gb_cols.specs.Column.{TakesCell};
ghost use Rattle.gb_defs.specs.Column.{fresh_column};
ghost use Rattle.gb_defs.specs.ColumnType.{Categorical, Flat};
ghost use Rattle.gb_text.specs.Builder.{rechunked_of};
ghost use Rattle.gb_text.specs.Building.{BuildsCell, IsRoomy, IsWhole, in_one_chunk, read_if_kept};
ghost use Rattle.gb_text.specs.Grown.{kept_codes};
ghost use Rattle.gb_text.specs.Part.{HasFew, emptied, joined, joined_to};

use crate::table::builder::ColumnBuilder;
use crate::table::only_memory;
use gb_base::data_type::CategoricalOrdering;
use gb_cols::chunked::StringChunked;
use gb_cols::series_trait::SeriesTrait;
use gb_logical::categorical::builder::CategoricalBuilder;
use gb_series::into_series::IntoSeries;
use gb_series::series::Series;
use std::alloc::AllocError;
use std::marker::Model;

/// What the cells of a column are kept as.
#[derive(Drop)]
pub enum GrownCells {
    /// Cells as they were built.
    Built(ColumnBuilder),
    /// Categories by the codes of their texts.
    Coded(CategoricalBuilder),
}

/// A column so far, behind which those of its next block are put. Contracts see it as a `ColumnBuilder`.
#[derive(Drop)]
pub struct GrownColumn {
    cells: GrownCells,
    // What texts of categories are hashed under.
    seed: u64,
}

impl Model for GrownColumn {
    ghost use Rattle.gb_text.specs.Building.{Building, building_code};
    ghost use Rattle.gb_text.specs.Grown.{grown_in};

    ghost Value = { Building };

    ghost coded = { building_code };

    ghost view = { λ g. grown_in g.cells };
}

impl GrownColumn {
    /// The same column, its categories by their codes. Their texts are hashed under the seed.
    pub fn new(column: ColumnBuilder, seed: u64) -> Result<GrownColumn, AllocError>
        requires { IsWhole column }
        ensures { IfOk result (λ grown. in_one_chunk grown ≡ in_one_chunk column) }
    {
        match column.into_categories() {
            Ok((texts, ordering)) => {
                let codes = code_texts(&texts, ordering, seed)?;
                Ok(GrownColumn {
                    cells: GrownCells::Coded(codes),
                    seed,
                })
            }
            Err(column) => Ok(GrownColumn {
                cells: GrownCells::Built(column),
                seed,
            }),
        }
    }

    /// How many rows there are.
    pub fn len(&self) -> usize
        ensures { result ≡ length self.now.column.slots }
    {
        match &self.cells {
            GrownCells::Built(column) => column.len(),
            GrownCells::Coded(codes) => codes.len(),
        }
    }

    /// The slot that a cell reads as at the end, and whether it reads. A cell that is known to be a text
    /// is not looked at again.
    pub fn push_cell(
        &mut self,
        cell: &[u8],
        is_text: bool,
        null_word: &str,
    ) -> Result<bool, AllocError>
        requires room { IsRoomy self.old }
        requires is_text { is_text ≡ true → IsUtf8 cell.now }
        ensures { IfOk result (BuildsCell null_word.now self.old self.new cell.now) }
    {
        match &mut self.cells {
            GrownCells::Built(column) => column.push_cell(cell, is_text, null_word),
            GrownCells::Coded(codes) => push_coded(codes, cell, is_text, null_word),
        }
    }

    /// The other's cells behind, categories by the codes of their texts. Both are of one type, and keep their
    /// slots or do not.
    pub fn append(&mut self, other: ColumnBuilder) -> Result<(), AllocError>
        requires alike { emptied self.old ≡ emptied other }
        requires few { HasFew self.old × HasFew other }
        ensures { OnOk result (in_one_chunk self.new ≡ in_one_chunk (joined_to self.old other)) }
    {
        match &mut self.cells {
            GrownCells::Built(column) => column.append(other),
            GrownCells::Coded(codes) => append_categories(codes, other),
        }
    }

    /// The column of the cells, None where they were only checked.
    pub fn finish(self) -> Result<Option<Series>, AllocError>
        requires { IsWhole self }
        ensures { IfOk result (λ found. option_map rechunked_of found ≡ read_if_kept self) }
    {
        let GrownColumn { cells, seed } = self;
        match cells {
            GrownCells::Built(column) => column.finish(seed),
            GrownCells::Coded(codes) => {
                let column = only_memory(codes.finish())?;
                Ok(Some(column.into_series()))
            }
        }
    }
}

// The codes of texts.
fn code_texts(
    texts: &StringChunked,
    ordering: CategoricalOrdering,
    seed: u64,
) -> Result<CategoricalBuilder, AllocError>
    ensures { let dtype = Flat (Categorical None (ordering_of ordering)) in
        IfOk result (λ codes. codes ≡ fresh_column texts.now.name dtype texts.now.slots) }
{
    let name = only_memory(texts.name().try_clone())?;
    let mut codes = CategoricalBuilder::new(texts.allocator(), name, ordering, seed);
    push_texts(&mut codes, texts)?;
    Ok(codes)
}

// The texts behind those that have codes. More than codes can count are more than a table has bytes.
fn push_texts(codes: &mut CategoricalBuilder, texts: &StringChunked) -> Result<(), AllocError>
    ensures { let slots = codes.old.slots ++ texts.now.slots in
        OnOk result (codes.new ≡ fresh_column codes.old.name codes.old.dtype slots) }
{
    if codes.len().saturating_add(texts.len()) > u32::MAX as usize {
        return Err(AllocError);
    }
    codes.push_texts(texts)
}

// The code of the text that a cell reads as behind those that have codes, and whether it reads.
fn push_coded(
    codes: &mut CategoricalBuilder,
    cell: &[u8],
    is_text: bool,
    null_word: &str,
) -> Result<bool, AllocError>
    requires { is_text ≡ true → IsUtf8 cell.now }
    ensures { IfOk result (TakesCell null_word.now codes.old codes.new cell.now) }
{
    if codes.len() >= u32::MAX as usize {
        return Err(AllocError);
    }
    codes.push_cell(cell, is_text, null_word)
}

// The codes of the texts of another column of categories behind those of this one. Both are of one type, so no
// other column comes.
fn append_categories(codes: &mut CategoricalBuilder, other: ColumnBuilder) -> Result<(), AllocError>
    requires { emptied (kept_codes codes.old) ≡ emptied other }
    ensures { let all = joined_to (kept_codes codes.old) other in
        OnOk result (in_one_chunk (kept_codes codes.new) ≡ in_one_chunk all) }
{
    let Ok((texts, _)) = other.into_categories() else {
        return Err(AllocError);
    };
    push_texts(codes, &texts)
}

/// The same columns, categories by their codes, their texts hashed under the seed.
pub fn grown_columns(columns: Vec<ColumnBuilder>, seed: u64) -> Result<Vec<GrownColumn>, AllocError>
    requires { All IsWhole columns.items }
    ensures { IfOk result (λ all.
        map in_one_chunk all.items ≡ map in_one_chunk columns.items) }
{
    let mut all = Vec::with_capacity(*columns.allocator(), columns.len())?;
    for column in columns {
        let grown = GrownColumn::new(column, seed)?;
        all.push(grown)?;
    }
    Ok(all)
}

/// Puts the slots of each column behind those of the column at its place.
pub fn append_block(
    columns: &mut Vec<GrownColumn>,
    others: Vec<ColumnBuilder>,
) -> Result<(), AllocError>
    requires alike { map emptied columns.old.items ≡ map emptied others.items }
    requires few { All HasFew columns.old.items }
    requires few_more { All HasFew others.items }
    ensures { OnOk result (map in_one_chunk columns.new.items
        ≡ map in_one_chunk (joined columns.old.items others.items)) }
{
    let mut others = others.into_iter();
    for column in columns.iter_mut() {
        let Some(other) = others.next() else {
            unreachable!();
        };
        column.append(other)?;
    }
    Ok(())
}
