use crate::text_table::TextTable;
use std::test::Fail;

// Texts of each length that has words of its own, and long ones that differ at the end alone.
const TEXTS: [&str; 8] = [
    "",
    "a",
    "ab",
    "abcd",
    "abcdefgh",
    "abcdefghijklmnop",
    "abcdefghijklmnopq",
    "abcdefghijklmnopr",
];

// The number of a text, in a table that is small.
fn number(table: &mut TextTable, text: &str) -> Option<u32> {
    if table.len() >= 99 {
        return None;
    }
    table.number_of(text).ok()
}

// Whether each text is found at its place.
fn finds_all(table: &TextTable) -> bool {
    for (place, text) in TEXTS.iter().enumerate() {
        if table.find(text) != Some(place as u32) {
            return false;
        }
    }
    true
}

#[test]
fn texts_are_numbered(rt: HostRuntime) -> Result<(), Fail> {
    let mut table = TextTable::new(rt.alloc(), 7);
    for text in TEXTS {
        number(&mut table, text);
    }
    assert!(rt; finds_all(&table));
    assert_eq!(rt; number(&mut table, "abcd"), Some(3));
    assert_eq!(rt; number(&mut table, "abcd "), Some(8));
    assert_eq!(rt; table.len(), 9);
    assert!(rt; table == table);
    if table.len() > 6 {
        assert_eq!(rt; table.get(6), "abcdefghijklmnopq");
    }
    Ok(())
}
