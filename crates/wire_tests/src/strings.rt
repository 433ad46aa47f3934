//! What no clause says: values from the format's examples, and that each call can succeed.

ghost use Rattle.std.specs.Prelude.{◌≡◌, []};

use pbf_strings::{MOST_TEXTS, Table, TableOut, laws, text_count};
use pbf_wire::{Fault, ReadFault, Reason};
use std::alloc::{AllocError, Global};
use std::hash::{BuildHasherDefault, FoldHasher};
use std::test::Fail;

/// The texts ``, `highway`, `stop` and `ann`.
const FOUR_TEXTS: [u8; 22] = [
    0x0a, 0x00, 0x0a, 0x07, 0x68, 0x69, 0x67, 0x68, 0x77, 0x61, 0x79, 0x0a, 0x04, 0x73, 0x74, 0x6f,
    0x70, 0x0a, 0x03, 0x61, 0x6e, 0x6e,
];

fn writer(alloc: Global) -> TableOut<BuildHasherDefault<FoldHasher>>
    ensures { result ≡ [] }
{
    TableOut::new(alloc, BuildHasherDefault::new())
}

/// Whether the table has four texts, of 16 bytes as it counts them, none longer than 7.
fn is_of_four_texts(table: &Table<'_>) -> bool {
    table.len() == 4 && table.held() == 16 && table.longest() == 7 && !table.is_empty()
}

/// Whether `get` gives the texts by their numbers, and none past the last.
fn gets_each_text(table: &Table<'_>) -> bool {
    table.get(0) == Some(b"".as_slice())
        && table.get(1) == Some(b"highway".as_slice())
        && table.get(3) == Some(b"ann".as_slice())
        && table.get(4).is_none()
}

/// Whether `text` gives a text by its number, and the empty text past the last.
fn has_each_text(table: &Table<'_>) -> bool {
    table.text(2) == b"stop".as_slice() && table.text(4) == b"".as_slice()
}

#[test]
fn four_texts(rt: HostRuntime) {
    let table = match Table::read(rt.alloc(), &FOUR_TEXTS, 42, 40) {
        Ok(table) => table,
        Err(_) => panic!(rt; "the table is refused"),
    };
    assert!(rt; is_of_four_texts(&table) && gets_each_text(&table) && has_each_text(&table));
}

#[test]
fn count_of_four_texts(rt: HostRuntime) {
    assert_eq!(rt; text_count(&FOUR_TEXTS), 4);
}

#[test]
fn a_text_of_another_type(rt: HostRuntime) {
    let wrong = Fault {
        offset: 44,
        reason: Reason::WrongType,
    };
    let read = Table::read(rt.alloc(), &[0x0a, 0x00, 0x08, 0x01], 42, 40);
    assert!(rt; matches!(read, Err(ReadFault::Refused(fault)) if fault == wrong));
}

/// A StringTable of so many empty texts.
fn empty_texts(alloc: Global, count: usize) -> Result<Vec<u8>, AllocError> {
    let mut message = Vec::new(alloc);
    for _ in 0..count {
        message.extend_from_slice(&[0x0a, 0])?;
    }
    Ok(message)
}

/// Whether a table of as many texts as may be is read.
fn reads_most(alloc: Global, most: &[u8]) -> bool {
    most.len() < 33_554_432
        && matches!(Table::read(alloc, most, 42, 40), Ok(table) if table.len() == 1_048_576 && table.held() == 4_194_304)
}

/// Whether one of so many texts is refused, by the reader and by the judge.
fn refuses_more(alloc: Global, more: &[u8]) -> bool {
    let many = Fault {
        offset: 40,
        reason: Reason::TooManyStrings,
    };
    more.len() < 33_554_432
        && matches!(Table::read(alloc, more, 42, 40), Err(ReadFault::Refused(fault)) if fault == many)
        && Table::judge_count(more, 40) == Err(many)
}

fn most_are_read(alloc: Global) -> Result<bool, AllocError> {
    let most = empty_texts(alloc, MOST_TEXTS)?;
    Ok(reads_most(alloc, &most))
}

fn more_are_refused(alloc: Global) -> Result<bool, AllocError> {
    let more = empty_texts(alloc, MOST_TEXTS + 1)?;
    Ok(refuses_more(alloc, &more))
}

#[test]
fn as_many_texts_as_may_be(rt: HostRuntime) -> Result<(), Fail> {
    assert!(rt; most_are_read(rt.alloc())? && more_are_refused(rt.alloc())?);
    Ok(())
}

/// Whether the table, which is short, gives these texts these numbers, one after another.
fn gives(
    table: &mut TableOut<BuildHasherDefault<FoldHasher>>,
    expected: &[(&[u8], u32)],
) -> Result<bool, AllocError> {
    for (text, index) in expected {
        if table.len() > 8 || table.index_of(text)? != *index {
            return Ok(false);
        }
    }
    Ok(true)
}

/// The StringTable that the table writes.
fn written(
    alloc: Global,
    table: &TableOut<BuildHasherDefault<FoldHasher>>,
) -> Result<Vec<u8>, AllocError> {
    let mut out = Vec::new(alloc);
    table.write(&mut out)?;
    Ok(out)
}

/// Whether the table numbers the four texts, and writes them so.
fn numbers_four_texts(
    alloc: Global,
    table: &mut TableOut<BuildHasherDefault<FoldHasher>>,
) -> Result<bool, AllocError> {
    const GIVEN: [(&'static [u8], u32); 4] = [
        (b"highway", 1),
        (b"stop", 2),
        (b"highway", 1),
        (b"ann", 3),
    ];
    Ok(
        gives(table, &GIVEN)?
            && table.len() == 3
            && table.held() == 26
            && written(alloc, table)?.as_slice() == FOUR_TEXTS.as_slice(),
    )
}

/// Whether it numbers them again after it is cleared.
fn numbers_again(table: &mut TableOut<BuildHasherDefault<FoldHasher>>) -> Result<bool, AllocError> {
    table.clear();
    Ok(table.is_empty() && gives(table, &[(b"stop", 1)])?)
}

fn numbers_twice(
    alloc: Global,
    table: &mut TableOut<BuildHasherDefault<FoldHasher>>,
) -> Result<bool, AllocError> {
    Ok(numbers_four_texts(alloc, table)? && numbers_again(table)?)
}

fn numbers_texts(alloc: Global) -> Result<bool, AllocError> {
    let mut table = writer(alloc);
    numbers_twice(alloc, &mut table)
}

#[test]
fn texts_in_order_of_first_use(rt: HostRuntime) -> Result<(), Fail> {
    assert!(rt; numbers_texts(rt.alloc())?);
    Ok(())
}

#[test]
fn the_laws_return() {
    laws::written_table_is_read();
    laws::texts_move_alike();
}
