//! The lines of a plain table behind its header, read in parts, each by a worker.

ghost use Rattle.std.specs.Prelude.{◌≡◌, ◌+◌, ◌<◌, ◌≤◌, [], ◌∷◌, drop, true, length, map, All, IfErr, IfOk, IfSome, OnOk};
ghost use Rattle.std.specs.Bool.{OnTrue};
ghost use Rattle.std.specs.Str.{IsAscii};
ghost use Rattle.csv.specs.Records.{fields_of};
ghost use Rattle.gb_text.specs.Building.{in_one_chunk};
ghost use Rattle.gb_text.specs.Part.{AreCuts, HasFew, HasLines, HasPart, IsHeaderRefused, IsSomeStart, IsWith, ReadsPart, emptied, joined, last_cut};

use crate::status::TableError;
use crate::table::builder::ColumnBuilder;
use crate::table::header::columns_of_header;
use crate::table::plain::{is_line_end, push_line};
use csv::ByteRecord;
use std::alloc::{AllocError, Global};
use std::thread::{self, Threads};

// For each so many bytes that a text has begun it may be read in one part more.
const PART_BYTES: usize = 65_536;

/// The lines of a table behind its header, with what each reader of a part of them knows.
#[derive(Drop)]
pub struct Lines<'a> {
    pub header: &'a ByteRecord,
    pub names: &'a [&'a str],
    pub null_word: &'a str,
    pub text: &'a [u8],
    /// Whether the text is known to be ASCII.
    pub ascii: bool,
}

impl Lines<'_> {
    // The columns of the records between two places. None where these are no whole lines, which are
    // plain and read.
    fn read(
        &self,
        alloc: Global,
        from: usize,
        to: usize,
    ) -> Result<Option<Vec<ColumnBuilder>>, TableError>
        requires from { from ≤ length self.now.text.now }
        requires to { to ≤ length self.now.text.now }
        requires few { length self.now.text.now ≤ 4294967295 }
        requires ascii { self.now.ascii ≡ true → IsAscii self.now.text.now }
        ensures ok { IfOk result (λ found. IfSome found (λ columns.
            HasPart self.now from to columns.items)) }
        ensures err { IfErr result (IsHeaderRefused self.now) }
    {
        let columns = columns_of_header(alloc, self.header, self.names)?;
        let (text, ascii) = (self.text, self.ascii);
        let found = read_lines(alloc, columns, text, from, to, ascii, self.null_word)?;
        Ok(found)
    }

    // The columns of the parts between cuts, each part read in a thread of its own where one can be
    // made. None where a part gives none.
    fn read_parts<R: Threads + Sync>(
        &self,
        rt: &R,
        alloc: Global,
        cuts: &[usize],
    ) -> Result<Option<Vec<ColumnBuilder>>, TableError>
        requires cuts { AreCuts (length self.now.text.now) cuts.now }
        requires few { length self.now.text.now ≤ 4294967295 }
        requires ascii { self.now.ascii ≡ true → IsAscii self.now.text.now }
        ensures ok { IfOk result (λ found. IfSome found (λ columns.
            HasPart self.now 0 (last_cut cuts.now) columns.items)) }
        ensures err { IfErr result (IsHeaderRefused self.now) }
    {
        let part = |k: usize| -> Result<Option<Vec<ColumnBuilder>>, TableError>
            requires { (k + 1 < length cuts.now)
                × AreCuts (length self.now.text.now) cuts.now
                × (length self.now.text.now ≤ 4294967295)
                × (self.now.ascii ≡ true → IsAscii self.now.text.now) }
            ensures { ReadsPart self.entry.now cuts.entry.now k result }
        { self.read(alloc, cuts[k], cuts[k + 1]) };
        let parts = thread::map_indices(rt, alloc, cuts.len() - 1, &part)?;
        let mut all = None;
        for part in parts {
            let Some(columns) = part? else {
                return Ok(None);
            };
            all = Some(with_columns(all, columns)?);
        }
        Ok(all)
    }

    /// The columns of the lines up to a place, read in so many parts, or else in one. None where some line is
    /// not plain, does not read, or does not end there. With one part no thread is started.
    pub fn read_to<R: Threads + Sync>(
        &self,
        rt: &R,
        alloc: Global,
        to: usize,
        parts: usize,
    ) -> Result<Option<Vec<ColumnBuilder>>, TableError>
        requires some { 1 ≤ parts }
        requires to { to ≤ length self.now.text.now }
        requires few { length self.now.text.now ≤ 4294967295 }
        requires ascii { self.now.ascii ≡ true → IsAscii self.now.text.now }
        ensures ok { IfOk result (λ found. IfSome found (λ columns.
            HasPart self.now 0 to columns.items)) }
        ensures err { IfErr result (IsHeaderRefused self.now) }
    {
        let cuts = cuts_of(alloc, &self.text[..to], parts)?;
        let found = self.read_parts(rt, alloc, &cuts)?;
        if found.is_some() || parts == 1 {
            return Ok(found);
        }
        // A cut may stand between quotes.
        self.read(alloc, 0, to)
    }
}

/// The columns with the records between two places of a text as their slots. None where these are no whole
/// lines, which are plain and read.
pub fn read_lines(
    alloc: Global,
    mut columns: Vec<ColumnBuilder>,
    text: &[u8],
    from: usize,
    to: usize,
    ascii: bool,
    null_word: &str,
) -> Result<Option<Vec<ColumnBuilder>>, AllocError>
    requires from { from ≤ length text.now }
    requires to { to ≤ length text.now }
    requires few { length text.now ≤ 4294967295 }
    requires ascii { ascii ≡ true → IsAscii text.now }
    requires start { IsSomeStart columns.items }
    ensures { IfOk result (λ found. IfSome found (λ all. HasLines columns.items null_word.now
        (drop from text.now) (drop to text.now) all.items)) }
{
    let behind = text.len() - to;
    let mut room = Vec::new(alloc);
    let mut left = &text[from..];
    let mut marks = 0;
    for _ in 0..u64::MAX {
        if left.len() == behind {
            return Ok(Some(columns));
        }
        if left.len() < behind {
            return Ok(None);
        }
        if is_line_end(left[0]) {
            left = &left[1..];
            marks = 0;
            continue;
        }
        let found = push_line(&mut columns, left, marks, ascii, null_word, &mut room)?;
        let Some((rest, next)) = found else {
            return Ok(None);
        };
        left = rest;
        marks = next;
    }
    Err(AllocError)
}

/// In how many parts a text of so many bytes is read by so many workers: two for each of several, so that a
/// worker that is held up is not waited for long.
pub fn count_parts(bytes: usize, workers: usize) -> usize
    ensures { 1 ≤ result }
{
    if workers < 2 {
        return 1;
    }
    workers.saturating_mul(2).min(bytes / PART_BYTES + 1)
}

// The columns before, where there are any, with these behind.
fn with_columns(
    before: Option<Vec<ColumnBuilder>>,
    columns: Vec<ColumnBuilder>,
) -> Result<Vec<ColumnBuilder>, AllocError>
    requires alike { IfSome before (λ all.
        map emptied all.items ≡ map emptied columns.items) }
    requires few { IfSome before (λ all. All HasFew all.items) }
    requires few_more { All HasFew columns.items }
    ensures { IfOk result (λ all. IsWith before columns.items all.items) }
{
    match before {
        None => Ok(columns),
        Some(mut all) => {
            append_columns(&mut all, columns)?;
            Ok(all)
        }
    }
}

/// Puts the slots of each column behind those of the column at its place.
pub fn append_columns(
    columns: &mut Vec<ColumnBuilder>,
    others: Vec<ColumnBuilder>,
) -> Result<(), AllocError>
    requires alike { map emptied columns.old.items ≡ map emptied others.items }
    requires few { All HasFew columns.old.items }
    requires few_more { All HasFew others.items }
    ensures { OnOk result (map in_one_chunk columns.new.items
        ≡ map in_one_chunk (joined columns.old.items others.items)) }
{
    let mut others = others.into_iter();
    for column in columns.iter_mut() {
        let Some(other) = others.next() else {
            unreachable!();
        };
        column.append(other)?;
    }
    Ok(())
}

// Where the line behind the one at a place begins.
fn line_behind(text: &[u8], place: usize) -> usize
    requires { place ≤ length text.now }
    ensures { result ≤ length text.now }
{
    for i in place..text.len() {
        if text[i] == b'\n' {
            return i + 1;
        }
    }
    text.len()
}

// Places from the front of a text to its end that deal it out to so many, with line ends before them.
fn cuts_of(alloc: Global, text: &[u8], parts: usize) -> Result<Vec<usize>, AllocError>
    requires { 1 ≤ parts }
    ensures cuts { IfOk result (λ cuts. AreCuts (length text.now) cuts.items) }
    ensures end { IfOk result (λ cuts. last_cut cuts.items ≡ length text.now) }
{
    let each = text.len() / parts;
    let mut cuts = Vec::new(alloc);
    let mut place = 0;
    cuts.push(place)?;
    for _ in 1..parts {
        place = line_behind(text, place + each.min(text.len() - place));
        cuts.push(place)?;
    }
    cuts.push(text.len())?;
    Ok(cuts)
}
