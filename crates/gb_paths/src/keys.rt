//! The keys of a column's rows, in one of a few forms, and what they are to a grouping.

ghost use Rattle.std.specs.Prelude.{◌≡◌, ◌≢◌, ◌+◌, map, IfOk, IfErr, IfSome, MatchOption};
ghost use Rattle.gb_defs.specs.Path.{Codes, Parts, kind_of};
ghost use Rattle.gb_defs.specs.Slot as slot;
ghost use Rattle.gb_base.specs.PlSmallStr.{IsNoMemory};
ghost use Rattle.gb_series.specs.Series.{value_of};
ghost use Rattle.gb_runs.specs.Codes.{rows_in};
ghost use Rattle.gb_runs.specs.Runs.{HasRowsTo, starts_in};
ghost use Rattle.gb_paths.specs.Keys.{AreCodesOf, HasNoCodes, HasNoValues, HasRuns, StandFor, kind_value};

use crate::plain_words::plain_words;
use gb_base::error::PolarsResult;
use gb_base::nullable_idx::IdxSize;
use gb_cols::binary::BinaryOffsetChunked;
use gb_cols::chunked::ChunkedArray;
use gb_cols::null::NullChunked;
use gb_cols::primitive::UInt32Chunked;
use gb_cols::series_trait::SeriesTrait;
use gb_cols::undo_append::UndoAppend;
use gb_flat_series::of_column;
use gb_flat_series::series::FlatSeries;
use gb_hash::list_rows::ByteChunks;
use gb_logical::categorical::CategoricalChunked;
use gb_logical::logical::{Logical, LogicalKind};
use gb_numbers::numeric::{Native, PolarsNumericType};
use gb_rows::unordered::encode_rows_unordered;
use gb_runs::runs;
use gb_series::series::Series;
use gb_values::binary::{Binary, BinaryOffset};
use gb_values::boolean::FlagValues;
use gb_values::bytes::{ByteKind, ByteValues};
use gb_values::nullable::Values;
use gb_values::primitive::NumberValues;
use gb_values::utf8::{Text, TextValues};
use std::alloc::AllocError;
use std::slice;

/// What the values of a column are to a grouping.
#[derive(Clone, Copy, Debug, PartialEq, Eq)]
pub enum KeyKind {
    /// Nulls alone.
    NoValues,
    Numbers,
    /// Codes of categories.
    Codes,
    /// Texts and other bytes.
    ByteLists,
    /// Values that hold others.
    Parts,
}

/// A key for each row, in a form that no later loop looks a chunk up for. A null has none.
#[derive(Drop)]
pub enum Keys<'a> {
    /// Numbers of at most 64 bits with their sign extended, none of them null.
    Plain(Vec<u64>),
    /// Such numbers, any of which may be null.
    Words(Vec<Option<u64>>),
    /// Codes of categories, none of them null.
    PlainCodes(Vec<u64>),
    /// Such codes, any of which may be null.
    Codes(Vec<Option<u64>>),
    /// Numbers of 128 bits.
    Wide(Vec<Option<u128>>),
    /// Texts as they lie, none of them null.
    Texts(ByteChunks<'a, Text>),
    /// Texts and other bytes.
    Bytes(Vec<Option<&'a [u8]>>),
    /// The bytes of rows, of slots that hold others or of several columns.
    RowBytes(BinaryOffsetChunked),
}

/// Values that the rows of a column have keys by.
pub trait KeyValues: Values {
    /// The keys of a column of such values, by one pass over its chunks. What stands before the first null
    /// may be read twice.
    fn keys_of(column: &ChunkedArray<Self>) -> PolarsResult<Keys<'_>>
        ensures ok { IfOk result (λ keys. StandFor column.now keys) }
        ensures err { IfErr result IsNoMemory };

    /// What they are to a grouping. They are no codes.
    fn key_kind() -> KeyKind
        ensures kind { kind_value result ≡ kind_of Self.dtype }
        ensures uncoded { kind_of Self.dtype ≢ Codes };
}

impl<T: PolarsNumericType> KeyValues for NumberValues<T> {
    fn keys_of(column: &ChunkedArray<NumberValues<T>>) -> PolarsResult<Keys<'_>> {
        // The call tells the column's type.
        let _ = column.allocator();
        if T::Native::is_wide() {
            return Ok(Keys::Wide(column.wide_words()?));
        }
        match plain_words(column)? {
            Some(words) => Ok(Keys::Plain(words)),
            None => Ok(Keys::Words(column.words()?)),
        }
    }

    fn key_kind() -> KeyKind {
        KeyKind::Numbers
    }
}

impl KeyValues for FlagValues {
    fn keys_of(column: &ChunkedArray<FlagValues>) -> PolarsResult<Keys<'_>> {
        let _ = column.allocator();
        Ok(Keys::Words(column.words()?))
    }

    fn key_kind() -> KeyKind {
        KeyKind::Numbers
    }
}

impl KeyValues for TextValues {
    fn keys_of(column: &ChunkedArray<TextValues>) -> PolarsResult<Keys<'_>> {
        let _ = column.allocator();
        match byte_chunks(column)? {
            Some(texts) => Ok(Keys::Texts(texts)),
            None => Ok(Keys::Bytes(column.byte_slices()?)),
        }
    }

    fn key_kind() -> KeyKind {
        KeyKind::ByteLists
    }
}

/// The values of a column of texts or other bytes as they lie, where none is null.
pub(crate) fn byte_chunks<K: ByteKind>(
    column: &ChunkedArray<ByteValues<K>>,
) -> PolarsResult<Option<ByteChunks<'_, K>>>
    ensures ok { IfOk result (λ found. IfSome found (λ chunks.
        map (λ bytes. slot.Bytes bytes) chunks ≡ column.now.slots)) }
    ensures err { IfErr result IsNoMemory }
{
    let mut chunks = ByteChunks::new(column.allocator());
    let (earlier, last) = column.chunks();
    for chunk in earlier {
        let Some(values) = chunk.all_valid() else {
            return Ok(None);
        };
        chunks.push(values)?;
    }
    let Some(values) = last.all_valid() else {
        return Ok(None);
    };
    chunks.push(values)?;
    Ok(Some(chunks))
}

impl KeyValues for ByteValues<Binary> {
    fn keys_of(column: &ChunkedArray<ByteValues<Binary>>) -> PolarsResult<Keys<'_>> {
        let _ = column.allocator();
        Ok(Keys::Bytes(column.byte_slices()?))
    }

    fn key_kind() -> KeyKind {
        KeyKind::ByteLists
    }
}

impl KeyValues for ByteValues<BinaryOffset> {
    fn keys_of(column: &ChunkedArray<ByteValues<BinaryOffset>>) -> PolarsResult<Keys<'_>> {
        let _ = column.allocator();
        Ok(Keys::Bytes(column.byte_slices()?))
    }

    fn key_kind() -> KeyKind {
        KeyKind::ByteLists
    }
}

/// A column whose rows have keys.
pub trait KeyColumn: UndoAppend {
    /// What its values are to a grouping.
    fn key_kind(&self) -> KeyKind
        ensures { kind_value result ≡ kind_of (Self.value self.now).dtype };

    /// The codes of a column of categories, and how many texts they have.
    fn codes(&self) -> Option<(&UInt32Chunked, usize)>
        ensures { let column = Self.value self.now in MatchOption result (HasNoCodes column)
            (λ found. AreCodesOf column found.0.now found.1) };

    /// The keys, as `KeyValues` gives them: none where the column's type has no values.
    fn keys(&self) -> PolarsResult<Option<Keys<'_>>>
        ensures ok { let column = Self.value self.now in
            IfOk result (λ keys. MatchOption keys (HasNoValues column) (StandFor column)) }
        ensures err { IfErr result IsNoMemory };

    /// The first rows of runs among those of a range, its first row and how many they are. Values are
    /// compared as they lie.
    fn run_starts(&self, range: (usize, usize)) -> Result<Vec<IdxSize>, AllocError>
        requires runs { HasRuns (Self.value self.now).dtype }
        requires rows { HasRowsTo (Self.value self.now).slots (range.0 + range.1) }
        ensures { let slots = (Self.value self.now).slots in
            IfOk result (λ starts. starts.items ≡ starts_in (rows_in slots) range) };
}

impl<V: KeyValues> KeyColumn for ChunkedArray<V> {
    fn key_kind(&self) -> KeyKind {
        // The call tells the column's type.
        let _ = self.allocator();
        V::key_kind()
    }

    fn codes(&self) -> Option<(&UInt32Chunked, usize)> {
        // The calls tell the column's type, and that its values are no codes.
        let _ = self.allocator();
        let _ = V::key_kind();
        None
    }

    fn keys(&self) -> PolarsResult<Option<Keys<'_>>> {
        Ok(Some(V::keys_of(self)?))
    }

    fn run_starts(&self, range: (usize, usize)) -> Result<Vec<IdxSize>, AllocError> {
        runs::run_starts(self, range)
    }
}

impl<K: LogicalKind> KeyColumn for Logical<K> {
    fn key_kind(&self) -> KeyKind {
        // The call tells the column's type.
        let _ = self.kind();
        KeyKind::Numbers
    }

    fn codes(&self) -> Option<(&UInt32Chunked, usize)> {
        let _ = self.kind();
        None
    }

    fn keys(&self) -> PolarsResult<Option<Keys<'_>>> {
        // The call tells the column's type.
        let _ = self.kind();
        self.physical().keys()
    }

    fn run_starts(&self, range: (usize, usize)) -> Result<Vec<IdxSize>, AllocError> {
        runs::run_starts(self.physical(), range)
    }
}

impl KeyColumn for NullChunked {
    fn key_kind(&self) -> KeyKind {
        // The call tells the column's type.
        let _ = self.allocator();
        KeyKind::NoValues
    }

    fn codes(&self) -> Option<(&UInt32Chunked, usize)> {
        let _ = self.allocator();
        None
    }

    fn keys(&self) -> PolarsResult<Option<Keys<'_>>> {
        let _ = self.allocator();
        Ok(None)
    }

    fn run_starts(&self, _range: (usize, usize)) -> Result<Vec<IdxSize>, AllocError> {
        let _ = self.allocator();
        unreachable!()
    }
}

impl KeyColumn for CategoricalChunked {
    fn key_kind(&self) -> KeyKind {
        // The call tells the column's type.
        let _ = self.get_rev_map();
        KeyKind::Codes
    }

    fn codes(&self) -> Option<(&UInt32Chunked, usize)> {
        Some((self.physical(), self.get_rev_map().len()))
    }

    fn keys(&self) -> PolarsResult<Option<Keys<'_>>> {
        // The call tells the column's type.
        let _ = self.get_rev_map();
        let physical = self.physical();
        match plain_words(physical)? {
            Some(codes) => Ok(Some(Keys::PlainCodes(codes))),
            None => Ok(Some(Keys::Codes(physical.words()?))),
        }
    }

    fn run_starts(&self, range: (usize, usize)) -> Result<Vec<IdxSize>, AllocError> {
        runs::run_starts(self.physical(), range)
    }
}

impl KeyColumn for FlatSeries {
    fn key_kind(&self) -> KeyKind {
        of_column!(self, column => column.key_kind())
    }

    fn codes(&self) -> Option<(&UInt32Chunked, usize)> {
        of_column!(self, column => column.codes())
    }

    fn keys(&self) -> PolarsResult<Option<Keys<'_>>> {
        of_column!(self, column => column.keys())
    }

    fn run_starts(&self, range: (usize, usize)) -> Result<Vec<IdxSize>, AllocError> {
        of_column!(self, column => column.run_starts(range))
    }
}

/// Rows of lists, arrays and structs have their bytes as keys.
impl KeyColumn for Series {
    #[tactic(auto, using(crate::proofs::KeyFormLemmas::parts_by_variant))]
    fn key_kind(&self) -> KeyKind {
        self.tell_variant();
        match self {
            Series::Flat(column) => column.key_kind(),
            _ => KeyKind::Parts,
        }
    }

    #[tactic(auto, using(crate::proofs::KeyFormLemmas::parts_by_variant))]
    fn codes(&self) -> Option<(&UInt32Chunked, usize)> {
        self.tell_variant();
        match self {
            Series::Flat(column) => column.codes(),
            _ => None,
        }
    }

    #[tactic(auto, using(crate::proofs::KeyFormLemmas::parts_by_variant))]
    fn keys(&self) -> PolarsResult<Option<Keys<'_>>> {
        self.tell_variant();
        match self {
            Series::Flat(column) => column.keys(),
            _ => Ok(Some(nested_keys(self)?)),
        }
    }

    #[tactic(auto, using(crate::proofs::KeyFormLemmas::parts_by_variant))]
    fn run_starts(&self, range: (usize, usize)) -> Result<Vec<IdxSize>, AllocError> {
        self.tell_variant();
        match self {
            Series::Flat(column) => column.run_starts(range),
            _ => unreachable!(),
        }
    }
}

// The keys of a column of lists, arrays or structs.
#[tactic(auto, using(crate::proofs::RowBytesLemmas::rows_stand_for))]
fn nested_keys(key: &Series) -> PolarsResult<Keys<'_>>
    requires { kind_of (value_of key.now).dtype ≡ Parts }
    ensures ok { IfOk result (λ keys. StandFor (value_of key.now) keys) }
    ensures err { IfErr result IsNoMemory }
{
    let rows = encode_rows_unordered(key.allocator(), slice::from_ref(key))?;
    Ok(Keys::RowBytes(rows))
}

/// What a call gives on the rows that keys are of, or on those of a column of bytes.
macro_rules! with_rows {
    ($keys:expr, $mixer:expr, $rows:ident => $call:expr, $bytes:ident => $of_bytes:expr) => {
        match $keys {
            Keys::Plain(words) => {
                let $rows = SliceRows::new(words.as_slice(), $mixer);
                $call
            }
            Keys::Words(words) => {
                let $rows = ListRows::new(words.as_slice(), $mixer);
                $call
            }
            Keys::PlainCodes(codes) => {
                let $rows = SliceRows::new(codes.as_slice(), $mixer);
                $call
            }
            Keys::Codes(codes) => {
                let $rows = ListRows::new(codes.as_slice(), $mixer);
                $call
            }
            Keys::Wide(words) => {
                let $rows = ListRows::new(words.as_slice(), $mixer);
                $call
            }
            Keys::Texts(texts) => {
                let $rows = ChunkRows::new(texts, $mixer);
                $call
            }
            Keys::Bytes(bytes) => {
                let $rows = ListRows::new(bytes.as_slice(), $mixer);
                $call
            }
            Keys::RowBytes($bytes) => $of_bytes,
        }
    };
}

pub(crate) use with_rows;
