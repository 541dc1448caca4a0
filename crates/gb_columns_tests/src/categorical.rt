//! Categories: the codes of texts, and each call once.

use gb_base::data_type::{CategoricalOrdering, DataType, IsSorted};
use gb_base::error::{PolarsError, PolarsResult};
use gb_base::rev_mapping::{RevMapping, texts_differ};
use gb_base::small_str::PlSmallStr;
use gb_cols::chunked::StringChunked;
use gb_cols::codes::codes_in_range;
use gb_cols::primitive::UInt32Chunked;
use gb_cols::series_trait::SeriesTrait;
use gb_logical::categorical::CategoricalChunked;
use gb_logical::categorical::builder::CategoricalBuilder;
use std::alloc::Global;
use std::sync::Arc;
use std::test::Fail;

fn name_of(alloc: Global) -> PolarsResult<PlSmallStr> {
    PlSmallStr::from_str(alloc, "m")
}

// The texts y, x, y with a null, as categories.
fn coded(alloc: Global) -> PolarsResult<CategoricalChunked> {
    let mut texts = StringChunked::new(alloc, name_of(alloc)?);
    texts.push(Some("y"))?;
    texts.push(None)?;
    texts.push(Some("x"))?;
    texts.push(Some("y"))?;
    CategoricalChunked::from_strings(&texts, CategoricalOrdering::Lexical, 7)
}

// The texts x, y, which come twice, as categories.
fn built(alloc: Global) -> PolarsResult<CategoricalChunked> {
    let mut texts = StringChunked::new(alloc, name_of(alloc)?);
    texts.push(Some("x"))?;
    texts.push(Some("y"))?;
    if texts.len() > 99 {
        return Err(PolarsError::NoMemory);
    }
    let mut builder = CategoricalBuilder::new(
        alloc,
        name_of(alloc)?,
        CategoricalOrdering::Lexical,
        7,
    );
    builder.push_texts(&texts)?;
    if builder.len() > 99 {
        return Err(PolarsError::NoMemory);
    }
    builder.push_texts(&texts)?;
    builder.finish()
}

// Whether a cell reads as a text or as null, which gets its code.
fn takes(builder: &mut CategoricalBuilder, cell: &[u8]) -> PolarsResult<bool> {
    if builder.len() > 99 {
        return Err(PolarsError::NoMemory);
    }
    Ok(builder.push_cell(cell, false, "null")?)
}

// The cells x, null, one that is no text, and x, as categories.
fn read(alloc: Global) -> PolarsResult<CategoricalChunked> {
    let mut builder = CategoricalBuilder::new(
        alloc,
        name_of(alloc)?,
        CategoricalOrdering::Lexical,
        7,
    );
    let texts = takes(&mut builder, b"x")? && takes(&mut builder, b"null")?;
    if !texts || takes(&mut builder, b"\xff")? || !takes(&mut builder, b"x")? {
        return Err(PolarsError::NoMemory);
    }
    builder.finish()
}

// Prints each slot, and a stroke behind it.
fn print(column: &CategoricalChunked, to: &mut Vec<u8>) -> PolarsResult<()> {
    for row in 0..column.len() {
        column.write_cell(row, "null", to)?;
        to.push(b'|')?;
    }
    Ok(())
}

// The slots, those of a slice, and those of the column in one chunk.
fn shown(column: &CategoricalChunked) -> PolarsResult<Vec<u8>> {
    let mut text = Vec::new(column.allocator());
    print(column, &mut text)?;
    text.push(b' ')?;
    print(&column.slice(-2, 2)?, &mut text)?;
    text.push(b' ')?;
    print(&column.rechunk()?, &mut text)?;
    Ok(text)
}

// The slots of two rows, and one slot twice.
fn picked(column: &CategoricalChunked) -> PolarsResult<Vec<u8>> {
    let mut text = Vec::new(column.allocator());
    if column.len() > 3 {
        print(&column.take(&[2, 1])?, &mut text)?;
        text.push(b' ')?;
        print(&column.new_from_index(3, 2)?, &mut text)?;
    }
    Ok(text)
}

#[test]
fn texts_come_twice(rt: HostRuntime) -> Result<(), Fail> {
    let mut text = Vec::new(rt.alloc());
    print(&built(rt.alloc())?, &mut text)?;
    assert_eq!(rt; text.as_slice(), b"x|y|x|y|".as_slice());
    Ok(())
}

#[test]
fn cells_get_codes(rt: HostRuntime) -> Result<(), Fail> {
    let mut text = Vec::new(rt.alloc());
    print(&read(rt.alloc())?, &mut text)?;
    assert_eq!(rt; text.as_slice(), b"x|null|x|".as_slice());
    Ok(())
}

#[test]
fn slots_of_texts(rt: HostRuntime) -> Result<(), Fail> {
    let text = shown(&coded(rt.alloc())?)?;
    assert_eq!(rt; text.as_slice(), b"y|null|x|y| x|y| y|null|x|y|".as_slice());
    Ok(())
}

#[test]
fn slots_of_rows(rt: HostRuntime) -> Result<(), Fail> {
    let text = picked(&coded(rt.alloc())?)?;
    assert_eq!(rt; text.as_slice(), b"x|null| y|y|".as_slice());
    Ok(())
}

// Whether the codes are by the order in which the texts first stand, and all occur.
fn is_coded(column: &CategoricalChunked) -> PolarsResult<bool> {
    let words = column.physical().words()?;
    Ok(
        words.as_slice() == [Some(0), None, Some(1), Some(0)].as_slice()
            && column._can_fast_unique()
            && column.check_all_used()
            && column.uses_lexical_ordering()
            && !column.is_enum(),
    )
}

// Whether the physical column answers for the column.
fn is_seen(column: &CategoricalChunked) -> bool {
    column.name().as_str() == "m"
        && column.null_count() == 1
        && column.n_chunks() == 1
        && column.first_non_null() == Some(0)
        && column.last_non_null() == Some(3)
        && column.is_sorted_flag() == IsSorted::Not
        && !column.is_empty()
        && column.len() == 4
        && column.get(2) == Some(1)
        && column.get(1).is_none()
}

// Whether the type is that of the map.
fn is_typed(column: &CategoricalChunked) -> PolarsResult<bool> {
    let map = Arc::try_clone(column.get_rev_map())?;
    let dtype = DataType::Categorical(Some(map), CategoricalOrdering::Lexical);
    Ok(column.dtype()? == dtype)
}

#[test]
fn codes_of_texts(rt: HostRuntime) -> Result<(), Fail> {
    let column = coded(rt.alloc())?;
    assert!(rt; is_coded(&column)? && is_seen(&column) && is_typed(&column)?);
    Ok(())
}

// The map of y and x.
fn mapped(alloc: Global) -> PolarsResult<RevMapping> {
    let mut map = RevMapping::new(alloc, 7);
    map.code_of("y")?;
    map.code_of("x")?;
    Ok(map)
}

// The codes 1, 0 as an enum of y and x.
fn enumerated(alloc: Global) -> PolarsResult<CategoricalChunked> {
    let codes = UInt32Chunked::from_slice(alloc, name_of(alloc)?, &[1, 0])?;
    let map = Arc::new(alloc, mapped(alloc)?)?;
    if !codes_in_range(&codes, map.len()) {
        return coded(alloc);
    }
    let ordering = CategoricalOrdering::Physical;
    Ok(CategoricalChunked::from_codes(codes, map, ordering, true))
}

// Notes that every code occurs, where it does.
fn noted(column: &mut CategoricalChunked) -> PolarsResult<bool> {
    let before = column._can_fast_unique();
    if column.check_all_used() {
        column.set_all_used();
    }
    Ok(!before && column._can_fast_unique())
}

// A column with a null and itself behind it.
fn grown(column: &mut CategoricalChunked) -> PolarsResult<bool> {
    if column.len() > 9 {
        return Ok(false);
    }
    let other = column.try_clone()?;
    column.append(other)?;
    column.push_null()?;
    Ok(!column._can_fast_unique())
}

#[test]
fn codes_with_a_map(rt: HostRuntime) -> Result<(), Fail> {
    let mut column = enumerated(rt.alloc())?;
    assert!(rt; noted(&mut column)? && column.is_enum());
    column.rename(PlSmallStr::from_str(rt.alloc(), "k")?);
    assert!(rt; grown(&mut column)?);
    let text = shown(&column)?;
    assert_eq!(rt;
        text.as_slice(),
        b"x|y|x|y|null| y|null| x|y|x|y|null|".as_slice()
    );
    Ok(())
}

#[test]
fn nulls_with_a_map(rt: HostRuntime) -> Result<(), Fail> {
    let alloc = rt.alloc();
    let map = Arc::new(alloc, mapped(alloc)?)?;
    let ordering = CategoricalOrdering::Physical;
    let column = CategoricalChunked::full_null(alloc, name_of(alloc)?, 2, map, ordering, true)?;
    assert!(rt; column.len() == 2 && column.null_count() == 2 && column.is_enum());
    Ok(())
}

#[test]
fn texts_by_code(rt: HostRuntime) -> Result<(), Fail> {
    let alloc = rt.alloc();
    let mut names = Vec::new(alloc);
    names.push(PlSmallStr::from_str(alloc, "y")?)?;
    names.push(PlSmallStr::from_str(alloc, "x")?)?;
    assert!(rt; texts_differ(alloc, &names)?);
    assert!(rt; mapped(alloc)?.find("z").is_none());
    assert!(rt; mapped(alloc)?.find("x") == Some(1));
    Ok(())
}

// Whether a map of these names gives its texts.
fn is_built(names: Vec<PlSmallStr>) -> PolarsResult<bool> {
    if names.len() > 9 || !texts_differ(*names.allocator(), &names)? {
        return Ok(false);
    }
    let map = RevMapping::build_local(names, 7)?;
    Ok(map.len() > 1 && map.get(1) == "x" && map.get(0) == "y")
}

#[test]
fn a_map_of_names(rt: HostRuntime) -> Result<(), Fail> {
    let alloc = rt.alloc();
    let mut names = Vec::new(alloc);
    names.push(PlSmallStr::from_str(alloc, "y")?)?;
    names.push(PlSmallStr::from_str(alloc, "x")?)?;
    assert!(rt; is_built(names)?);
    assert!(rt; mapped(alloc)? == mapped(alloc)?);
    Ok(())
}
