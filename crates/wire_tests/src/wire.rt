//! What no clause says: values from the format's own examples, texts, and that each call can succeed.

use pbf_wire::{
    Column, ColumnOut, DeltaOut, Fault, Fields, Kind, Message, Payload, ReadFault, Reason, Sum,
    Sums, comes_before, count_ends, end_mask, get_varint, is_short, judge_payload, judge_sums,
    judge_wire, kind_of, last_field, last_number, laws, lesser, low_i32, low_i64, low_sint32,
    low_u32, put_bytes, put_column, put_number, put_varint, sign_extended, unzigzag, varint_len,
    zigzag,
};
use std::alloc::{AllocError, Global};
use std::test::Fail;

/// The dense nodes 10, 11 and 15, with the id column in a packed, a packed and a single occurrence.
const TWO_OCCURRENCES: [u8; 18] = [
    0x0a, 0x01, 0x14, 0x0a, 0x01, 0x02, 0x08, 0x08, 0x42, 0x03, 0x02, 0x03, 0x04, 0x4a, 0x03, 0x02,
    0x00, 0x00,
];

/// Whether the varint that begins at `from` is read so.
fn reads(bytes: &[u8], from: usize, outcome: Result<(u64, usize), Reason>) -> bool {
    from <= bytes.len() && get_varint(bytes, from) == outcome
}

#[test]
fn spellings_of_two(rt: HostRuntime) {
    assert!(rt;
        reads(&[0x02], 0, Ok((2, 1)))
            && reads(&[0x82, 0x00], 0, Ok((2, 2)))
            && reads(&[0x18, 0x82, 0x80, 0x00], 1, Ok((2, 4)))
    );
}

#[test]
fn long_spellings(rt: HostRuntime) {
    let greatest = [0xff, 0xff, 0xff, 0xff, 0xff, 0xff, 0xff, 0xff, 0xff, 0x01];
    let tenth_above_one = [0x80, 0x80, 0x80, 0x80, 0x80, 0x80, 0x80, 0x80, 0x80, 0x02];
    assert!(rt;
        reads(&[0xff, 0xff, 0xff, 0x0f], 0, Ok((33_554_431, 4)))
            && reads(&greatest, 0, Ok((u64::MAX, 10)))
            && reads(&tenth_above_one, 0, Err(Reason::VarintLong))
            && reads(&[0x80; 10], 0, Err(Reason::VarintLong))
            && reads(&[0x80; 9], 0, Err(Reason::VarintCut))
            && reads(&[], 0, Err(Reason::VarintCut))
    );
}

/// Whether these numbers are written so, one after another.
fn spell(alloc: Global, numbers: &[u64], wanted: &[u8]) -> Result<bool, AllocError> {
    let mut out = Vec::new(alloc);
    for number in numbers {
        put_varint(&mut out, *number)?;
    }
    Ok(out.as_slice() == wanted)
}

#[test]
fn shortest_spellings(rt: HostRuntime) -> Result<(), Fail> {
    let numbers = [33_554_431, 0, sign_extended(-1)];
    let wanted = [
        0xff, 0xff, 0xff, 0x0f, 0x00, 0xff, 0xff, 0xff, 0xff, 0xff, 0xff, 0xff, 0xff, 0xff, 0x01,
    ];
    assert!(rt; spell(rt.alloc(), &numbers, &wanted)?);
    assert!(rt; varint_len(33_554_431) == 4 && varint_len(sign_extended(-1)) == 10);
    Ok(())
}

/// Whether each of the two is the other in zigzag form.
fn are_in_zigzag(number: i64, value: u64) -> bool {
    zigzag(number) == value && unzigzag(value) == number
}

#[test]
fn signed_numbers(rt: HostRuntime) {
    for (number, value) in [(0, 0), (-1, 1), (1, 2), (-2, 3), (i64::MAX, u64::MAX - 1)] {
        assert!(rt; are_in_zigzag(number, value));
    }
}

#[test]
fn low_bits(rt: HostRuntime) {
    assert!(rt;
        low_u32(0x1_0000_0005) == 5
            && low_i32(0xffff_ffff) == -1
            && low_sint32(0x1_0000_0003) == -2
            && low_i64(u64::MAX) == -1
            && low_i64(sign_extended(-1000)) == -1000
    );
}

/// Whether the column gives these numbers, and is at these places after them.
fn goes_over(column: &mut Column<'_>, numbers: &[(u64, u64)]) -> bool {
    for (number, place) in numbers {
        if column.next() != Some(*number) || column.place() != *place {
            return false;
        }
    }
    true
}

#[test]
fn two_occurrences_of_a_column(rt: HostRuntime) {
    let mut column = Column::new(&TWO_OCCURRENCES, 44, 1);
    assert!(rt;
        column.place() == 44
            && goes_over(&mut column, &[(20, 44), (2, 47), (8, 50)])
            && column.next().is_none()
            && column.place() == 50
    );
}

/// The payload of the next field, if it is this one.
fn payload_at<'a>(fields: &mut Fields<'a>, offset: u64, number: u64) -> Option<Payload<'a>> {
    match fields.next() {
        Some(Ok(field)) if field.offset == offset && field.number == number => Some(field.payload),
        _ => None,
    }
}

/// Whether a number and eight bytes come next.
fn has_numbers(fields: &mut Fields<'_>) -> bool {
    matches!(payload_at(fields, 100, 1), Some(Payload::Number(5)))
        && matches!(payload_at(fields, 102, 2), Some(Payload::Eight([1, .., 8])))
}

/// Whether a text and four bytes come next.
fn has_bytes(fields: &mut Fields<'_>) -> bool {
    matches!(
        payload_at(fields, 111, 3),
        Some(Payload::Bytes([b'x'], 113))
    ) && matches!(
        payload_at(fields, 114, 4),
        Some(Payload::Four([1, 2, 3, 4]))
    )
}

/// Whether a group comes next, which ends the fields.
fn ends_at_group(fields: &mut Fields<'_>) -> bool {
    let group = Fault {
        offset: 119,
        reason: Reason::Group,
    };
    matches!(fields.next(), Some(Err(found)) if found == group) && fields.next().is_none()
}

/// A number, eight bytes, an embedded text, four bytes, and a group.
#[test]
fn fields_and_a_fault(rt: HostRuntime) {
    let message = [
        0x08, 0x05, 0x11, 1, 2, 3, 4, 5, 6, 7, 8, 0x1a, 0x01, b'x', 0x25, 1, 2, 3, 4, 0x2b,
    ];
    let mut fields = Fields::new(&message, 100);
    assert!(rt; has_numbers(&mut fields) && has_bytes(&mut fields) && ends_at_group(&mut fields));
}

const KINDS: [(u64, Kind); 3] = [(1, Kind::Number), (2, Kind::Column), (3, Kind::Bytes)];

/// The first wire fault of a message that begins at 7.
fn wire_fault(message: &[u8]) -> Option<Fault> {
    if message.len() < 1 << 20 {
        judge_wire(message, 7, &KINDS).err()
    } else {
        None
    }
}

#[test]
fn each_wire_fault(rt: HostRuntime) {
    for (message, offset, reason) in [
        ([0x08, 0x80].as_slice(), 7, Reason::VarintCut),
        (&[0x80; 12], 7, Reason::VarintLong),
        (&[0x00, 0x00], 7, Reason::NumberZero),
        (&[0x80, 0x80, 0x80, 0x80, 0x10], 7, Reason::TagLarge),
        (&[0x08, 0x01, 0x0c], 9, Reason::Group),
        (&[0x0e], 7, Reason::WireType),
        (&[0x1a, 0x02, 0x00], 7, Reason::LengthPast),
        (&[0x25, 0x00], 7, Reason::FixedCut),
        (&[0x0a, 0x00], 7, Reason::WrongType),
        (&[0x12, 0x01, 0x80], 7, Reason::VarintCut),
    ] {
        assert_eq!(rt; wire_fault(message), Some(Fault { offset, reason }));
    }
}

#[test]
fn no_wire_fault(rt: HostRuntime) {
    assert_eq!(rt; wire_fault(&[0x10, 0x80, 0x00, 0x7a, 0x00]), None);
}

#[test]
fn kinds_of_fields(rt: HostRuntime) {
    let number = judge_payload(Payload::Number(1), Some(Kind::Bytes));
    assert!(rt;
        kind_of(&KINDS, 3) == Some(Kind::Bytes)
            && kind_of(&KINDS, 4).is_none()
            && number == Err(Reason::WrongType)
    );
}

const TWICE: [u8; 8] = [0x08, 0x01, 0x0a, 0x00, 0x08, 0x02, 0x10, 0x03];

const TWICE_AT_10: Message = Message {
    bytes: &TWICE,
    at: 10,
};

/// The offset of the last field of this number, in a message that begins at 10.
fn place_of_last(number: u64) -> Option<u64> {
    match last_field(TWICE_AT_10, number) {
        Some(field) => Some(field.offset),
        None => None,
    }
}

#[test]
fn the_last_field_counts(rt: HostRuntime) {
    assert!(rt;
        last_number(TWICE_AT_10, 1) == Some(2)
            && last_number(TWICE_AT_10, 3).is_none()
            && place_of_last(1) == Some(14)
            && place_of_last(3).is_none()
    );
}

/// How many of so many zeros are below 128.
fn count_of_zeros(alloc: Global, length: usize) -> Result<usize, AllocError> {
    let zeros = vec![in alloc; 0u8; length]?;
    Ok(count_ends(&zeros))
}

/// How many bytes are below 128, if 64 are not and one more is.
fn count_of_last(alloc: Global) -> Result<usize, AllocError> {
    let mut last = vec![in alloc; 0x80u8; 64]?;
    last.push(0)?;
    Ok(count_ends(&last))
}

#[test]
fn bytes_below_128(rt: HostRuntime) -> Result<(), Fail> {
    let mut block = [0x80; 32];
    block[0] = 0x7f;
    assert!(rt; end_mask(&block) == 1 && end_mask(&[0; 32]) == u32::MAX);
    assert!(rt; count_ends(&[]) == 0 && count_ends(&[0x7f; 33]) == 33);
    assert!(rt; count_of_zeros(rt.alloc(), 10_000)? == 10_000 && count_of_last(rt.alloc())? == 1);
    Ok(())
}

/// The first length up to 200 for which the count is wrong. Every third byte has the top bit set, and neither the lanes nor the rest are alike.
fn miscounted(alloc: Global) -> Result<Option<u8>, AllocError> {
    let mut bytes = Vec::new(alloc);
    let mut ends = 0;
    for length in 0..=200u8 {
        if count_ends(&bytes) != ends {
            return Ok(Some(length));
        }
        let goes_on = length % 3 == 1;
        bytes.push(if goes_on { 0x80 | length } else { length % 128 })?;
        if !goes_on {
            ends += 1;
        }
    }
    Ok(None)
}

#[test]
fn all_lengths_to_200(rt: HostRuntime) -> Result<(), Fail> {
    assert_eq!(rt; miscounted(rt.alloc())?, None);
    Ok(())
}

/// Numbers of one, two and five bytes, 800 bytes in all.
fn short_numbers(alloc: Global) -> Result<Vec<u8>, AllocError> {
    let mut column = Vec::new(alloc);
    for _ in 0..100 {
        column.extend_from_slice(&[0x7f, 0xff, 0x7f, 0xff, 0xff, 0xff, 0xff, 0x7f])?;
    }
    Ok(column)
}

/// What a packed column is refused with.
fn column_fault(column: &[u8]) -> Option<Reason> {
    judge_payload(Payload::Bytes(column, 0), Some(Kind::Column)).err()
}

/// Whether the quick test of sums says yes to these bytes as field 8, and the judge too.
fn has_small_sums(alloc: Global, column: &[u8]) -> Result<bool, AllocError> {
    let mut message = Vec::from_slice(alloc, &[0x42, 0xa0, 0x06])?;
    message.extend_from_slice(column)?;
    if message.len() > 1 << 20 {
        return Ok(false);
    }
    let message = Message {
        bytes: &message,
        at: 0,
    };
    let sums = Sums::new(message.column(8), 1 << 62);
    Ok(sums.count_if_small().is_some() && judge_sums(message, 8, 1 << 62, false).is_none())
}

/// Whether the quick tests say yes to short numbers.
fn are_short(alloc: Global) -> Result<bool, AllocError> {
    let column = short_numbers(alloc)?;
    Ok(is_short(&column) && column_fault(&column).is_none() && has_small_sums(alloc, &column)?)
}

/// Whether they refuse a column whose last number is cut.
fn cut_is_found(alloc: Global) -> Result<bool, AllocError> {
    let mut column = short_numbers(alloc)?;
    column.push(0x80)?;
    Ok(!is_short(&column) && column_fault(&column) == Some(Reason::VarintCut))
}

/// Field 8 of 800 bytes, numbers of one, two and five bytes: it passes the quick tests. With a cut number it fails.
#[test]
fn long_columns_of_short_numbers(rt: HostRuntime) -> Result<(), Fail> {
    assert!(rt; are_short(rt.alloc())? && cut_is_found(rt.alloc())?);
    Ok(())
}

#[test]
fn a_sum_within_eight(rt: HostRuntime) {
    let mut sum = Sum::new(8);
    let (first, past) = (sum.add(5), sum.add(3));
    let mut copy = sum;
    let (back, on) = (sum.add(-12), copy.add(2));
    assert!(rt; first == Some(5) && past.is_none() && back == Some(-7) && on == Some(7));
}

/// Whether the ids at both limits are written so, and nothing is left of them.
fn writes_ids_at_limits(ids: &mut DeltaOut) -> Result<bool, AllocError> {
    const WANTED: [u8; 19] = [
        0xfd, 0xff, 0xff, 0xff, 0xff, 0xff, 0xff, 0xff, 0x7f, 0xfc, 0xff, 0xff, 0xff, 0xff, 0xff,
        0xff, 0xff, 0xff, 0x01,
    ];
    ids.push(1 - (1 << 62))?;
    ids.push((1 << 62) - 1)?;
    if ids.bytes() != WANTED.as_slice() || ids.held() != 19 {
        return Ok(false);
    }
    ids.clear();
    Ok(ids.bytes().is_empty())
}

/// Whether a number of two bytes takes two.
fn holds_two_bytes(kinds: &mut ColumnOut) -> Result<bool, AllocError> {
    kinds.push(300)?;
    let held = kinds.held();
    kinds.clear();
    Ok(held == 2)
}

/// A number, a text, and three columns, one of them empty.
fn fields_of(alloc: Global, ids: &DeltaOut, kinds: &ColumnOut) -> Result<Vec<u8>, AllocError> {
    let mut out = Vec::new(alloc);
    put_number(&mut out, 1, 7)?;
    put_bytes(&mut out, 2, b"x")?;
    put_column(&mut out, 3, &[])?;
    put_column(&mut out, 8, ids.bytes())?;
    put_column(&mut out, 10, kinds.bytes())?;
    Ok(out)
}

/// Whether the columns are written so, before and after they are cleared.
fn writes_columns(alloc: Global) -> Result<bool, AllocError> {
    const WANTED: [u8; 12] = [
        0x08, 0x07, 0x12, 0x01, b'x', 0x42, 0x02, 0x14, 0x0a, 0x52, 0x01, 0x02,
    ];
    let mut ids = DeltaOut::new(alloc);
    let mut kinds = ColumnOut::new(alloc);
    if !writes_ids_at_limits(&mut ids)? || !holds_two_bytes(&mut kinds)? {
        return Ok(false);
    }
    ids.push(10)?;
    ids.push(15)?;
    kinds.push(2)?;
    Ok(fields_of(alloc, &ids, &kinds)?.as_slice() == WANTED.as_slice())
}

#[test]
fn columns_written_and_read(rt: HostRuntime) -> Result<(), Fail> {
    assert!(rt; writes_columns(rt.alloc())?);
    Ok(())
}

/// Whether these are all sums.
fn are_sums(sums: Sums<'_>, values: &[i64]) -> bool {
    let mut sums = sums;
    for value in values {
        if sums.next() != Some(*value) {
            return false;
        }
    }
    sums.next().is_none()
}

#[test]
fn values_of_delta_columns(rt: HostRuntime) {
    let ids = Column::new(&TWO_OCCURRENCES, 44, 1);
    assert!(rt;
        are_sums(Sums::new(ids, 1 << 62), &[10, 11, 15]) && are_sums(Sums::new(ids, 11), &[10])
    );
}

/// The values 10, 10, 10, 11 and 10, of which three are skipped, or the first two are read as those of a steady column.
#[test]
fn values_skipped_or_steady(rt: HostRuntime) {
    let column = Column::new(&[0x0a, 0x05, 0x14, 0x00, 0x00, 0x02, 0x01], 0, 1);
    let mut skipped = Sums::new(column, 1 << 62);
    let mut steady = skipped;
    skipped.pass(3);
    let first = steady.next_steady();
    let second = steady.next_steady();
    assert!(rt;
        are_sums(skipped, &[11, 10])
            && first == Some(10)
            && second == Some(10)
            && are_sums(steady, &[10, 11, 10])
    );
}

/// Only of a column whose limit is 2^62, and if each number takes at most five bytes.
#[test]
fn values_counted_without_decoding(rt: HostRuntime) {
    let ids = Column::new(&TWO_OCCURRENCES, 44, 1);
    let mut begun = Sums::new(ids, 1 << 62);
    let first = begun.next();
    let long = Column::new(&[0x08, 0x80, 0x80, 0x80, 0x80, 0x80, 0x01], 0, 1);
    assert!(rt;
        Sums::new(ids, 1 << 62).count_if_small() == Some(3)
            && first == Some(10)
            && begun.count_if_small() == Some(2)
            && Sums::new(ids, 11).count_if_small().is_none()
            && Sums::narrow(ids, 1 << 62).count_if_small() == Some(3)
            && Sums::new(long, 1 << 62).count_if_small().is_none()
    );
}

/// 2^32 + 2, of which a `sint32` takes the 2.
#[test]
fn values_of_32_bits(rt: HostRuntime) {
    let wide = Column::new(&[0x08, 0x82, 0x80, 0x80, 0x80, 0x10], 0, 1);
    assert!(rt;
        are_sums(Sums::new(wide, 1 << 62), &[2_147_483_649])
            && are_sums(Sums::narrow(wide, 1 << 62), &[1])
    );
}

#[test]
fn the_lesser_fault(rt: HostRuntime) {
    let fault = |offset, reason| Fault { offset, reason };
    let early = fault(42, Reason::StringIndex);
    let late = fault(54, Reason::VarintCut);
    assert!(rt;
        comes_before(early, late)
            && comes_before(fault(42, Reason::Missing(1)), fault(42, Reason::Missing(3)))
            && !comes_before(early, early)
            && lesser(Some(late), Some(early)) == Some(early)
            && lesser(None, Some(late)) == Some(late)
            && lesser(Some(late), None) == Some(late)
    );
}

fn is_told(alloc: Global, fault: Fault, text: &str) -> Result<bool, AllocError> {
    Ok(fault.to_string(alloc)?.as_str() == text)
}

fn is_answered(alloc: Global, fault: ReadFault, text: &str) -> Result<bool, AllocError> {
    Ok(fault.to_string(alloc)?.as_str() == text)
}

#[test]
fn texts_of_refusals(rt: HostRuntime) -> Result<(), Fail> {
    let missing = Fault {
        offset: 36,
        reason: Reason::Missing(1),
    };
    let feature = Fault {
        offset: 19,
        reason: Reason::Feature,
    };
    let refused = "refused at 19: 55 Feature";
    assert!(rt;
        is_told(rt.alloc(), missing, "refused at 36: 25 Missing(1)")?
            && is_told(rt.alloc(), feature, refused)?
            && is_answered(rt.alloc(), ReadFault::Refused(feature), refused)?
            && is_answered(rt.alloc(), ReadFault::Memory, "out of memory")?
            && ReadFault::from(feature) == ReadFault::Refused(feature)
    );
    Ok(())
}

#[test]
fn names_of_reasons(rt: HostRuntime) {
    assert!(rt;
        Reason::LocationColumns.number() == 60
            && Reason::LocationColumns.name() == "LocationColumns"
            && Reason::Missing(3).missing_field() == 3
    );
}

/// The laws are functions that do nothing.
#[test]
fn the_laws_return() {
    laws::varints_are_prefix_free();
    laws::shortest_is_shortest();
    laws::counts_are_lengths();
    laws::joined_spellings_are_read();
    laws::one_cutting();
    laws::places_move_alike();
    laws::signed_numbers_are_read();
    laws::sums_undo_differences();
    laws::written_message_is_read();
    laws::least_is_least();
}
