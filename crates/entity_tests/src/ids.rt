//! What no clause says: that the calls succeed, and how many bytes known sets take.
//!
//! Sets are held by functions that return a `bool`: a test that holds one while it asserts takes far longer to prove.

use osm_ids::{IdLookup, IdSet, Links, SealedIds, Window};
use std::alloc::{AllocError, Global};

/// Strictly between -2^62 and 2^62, as OpenStreetMap's ids are here.
const LEAST: i64 = -(1 << 62) + 1;

const GREATEST: i64 = (1 << 62) - 1;

fn gathered(alloc: Global, ids: &[i64]) -> Result<IdSet, AllocError> {
    let mut set = IdSet::new(alloc);
    for id in ids {
        set.add(*id)?;
    }
    Ok(set)
}

fn sealed(ids: IdSet) -> Result<SealedIds, AllocError> {
    match ids.seal() {
        Ok(sealed) => Ok(sealed),
        Err((_, refused)) => Err(refused),
    }
}

/// Whether each id is new to the set, or not, as expected.
fn takes(set: &mut IdSet, expected: &[(i64, bool)]) -> Result<bool, AllocError> {
    for (id, is_new) in expected {
        if set.add(*id)? != *is_new {
            return Ok(false);
        }
    }
    Ok(true)
}

fn has_all(ids: &SealedIds, expected: &[i64]) -> bool {
    for id in expected {
        if !ids.has(*id) {
            return false;
        }
    }
    true
}

fn has_none(ids: &SealedIds, absent: &[i64]) -> bool {
    for id in absent {
        if ids.has(*id) {
            return false;
        }
    }
    true
}

/// How many ids, pages and bytes there are.
fn sizes(ids: &SealedIds) -> (u64, u64, u64) {
    (ids.count(), ids.pages(), ids.bytes())
}

/// Whether a set of these ids lies in so many pages and bytes, and has them, and neither 0 nor 130.
fn lies_in(alloc: Global, ids: &[i64], pages: u64, bytes: u64) -> Result<bool, AllocError> {
    let set = sealed(gathered(alloc, ids)?)?;
    Ok(
        sizes(&set) == (ids.len() as u64, pages, bytes)
            && has_all(&set, ids)
            && has_none(&set, &[0, 130]),
    )
}

#[test]
fn ids_of_known_sizes(rt: HostRuntime) -> Result<(), AllocError> {
    assert!(rt; lies_in(rt.alloc(), &[], 0, 0)?);
    assert!(rt; lies_in(rt.alloc(), &[300, 3, 1, 2], 1, 4)?);
    assert!(rt; lies_in(rt.alloc(), &[GREATEST, LEAST], 1, 9)?);
    assert!(rt; lies_in(rt.alloc(), &[i64::MIN, i64::MAX], 1, 10)?);
    Ok(())
}

/// Whether 1 to 129 lie in two pages of 127 bytes: one for each id but the first of a page.
fn up_to_129_lie_in_two_pages(alloc: Global) -> Result<bool, AllocError> {
    let mut ids = Vec::new(alloc);
    for id in 1..130i64 {
        ids.push(id)?;
    }
    lies_in(alloc, &ids, 2, 127)
}

#[test]
fn ids_up_to_129(rt: HostRuntime) -> Result<(), AllocError> {
    assert!(rt; up_to_129_lie_in_two_pages(rt.alloc())?);
    Ok(())
}

/// 0, 3, 6, .. 1197: pages begin at 0, 384, 768 and 1152.
fn threes(alloc: Global) -> Result<SealedIds, AllocError> {
    let mut set = IdSet::new(alloc);
    for id in 0..1200i64 {
        if id % 3 == 0 {
            set.add(id)?;
        }
    }
    sealed(set)
}

/// Whether each id is found or not through one window, as by itself.
fn agrees(set: &SealedIds, ids: &[i64]) -> bool {
    let mut window = Window::new();
    for id in ids {
        if window.has(set, *id) != set.has(*id) {
            return false;
        }
    }
    true
}

#[test]
fn one_window_across_pages(rt: HostRuntime) -> Result<(), AllocError> {
    const MIXED: [i64; 25] = [
        -1,
        0,
        0,
        2,
        3,
        381,
        382,
        384,
        383,
        381,
        387,
        386,
        386,
        387,
        768,
        767,
        1197,
        1198,
        i64::MAX,
        1197,
        1152,
        i64::MIN,
        6,
        5,
        1155,
    ];
    let ids = threes(rt.alloc())?;
    assert!(rt; agrees(&ids, &MIXED));
    assert!(rt; agrees(&sealed(IdSet::new(rt.alloc()))?, &MIXED));
    Ok(())
}

/// 0 to 1212: rising, falling, and mixed.
fn in_orders(alloc: Global) -> Result<Vec<i64>, AllocError> {
    let mut ids = Vec::new(alloc);
    for id in 0..1213i64 {
        ids.push(id)?;
    }
    for id in (0..1213i64).rev() {
        ids.push(id)?;
    }
    for place in 0..1213i64 {
        ids.push(place.wrapping_mul(701) % 1213)?;
    }
    Ok(ids)
}

#[test]
fn look_ups_in_every_order(rt: HostRuntime) -> Result<(), AllocError> {
    let ids = threes(rt.alloc())?;
    for id in 0..1213i64 {
        assert_eq!(rt; ids.has(id), id < 1200 && id % 3 == 0);
    }
    assert!(rt; agrees(&ids, &in_orders(rt.alloc())?));
    Ok(())
}

/// What a look-up of an id shows to be absent: the ids above one number and below another.
fn absent_near(ids: &SealedIds, id: i64) -> (i64, i64) {
    let mut window = Window::new();
    let _is_there = window.has(ids, id);
    let absent = window.absent();
    (absent.above, absent.below)
}

/// The same of a set that may still grow.
fn absent_so_far(alloc: Global, ids: &[i64], id: i64) -> Result<(i64, i64), AllocError> {
    let set = gathered(alloc, ids)?;
    let mut window = Window::new();
    let _is_there = set.has_near(&mut window, id);
    let absent = window.absent();
    Ok((absent.above, absent.below))
}

/// And what it shows to be there: ids from this one on.
fn present_near(ids: &SealedIds, id: i64) -> (i64, i64) {
    let mut window = Window::new();
    let _is_there = window.has(ids, id);
    let present = window.present();
    (present.above, present.below)
}

#[test]
fn present_ids_of_a_run(rt: HostRuntime) -> Result<(), AllocError> {
    let ids = sealed(gathered(rt.alloc(), &[1, 2, 3, 5, 6, 9])?)?;
    assert_eq!(rt; present_near(&ids, 1), (0, 4));
    assert_eq!(rt; present_near(&ids, 2), (1, 4));
    assert_eq!(rt; present_near(&ids, 6), (5, 7));
    assert_eq!(rt; present_near(&ids, 9), (8, 10));
    assert_eq!(rt; present_near(&ids, 4), (0, 0));
    Ok(())
}

#[test]
fn absent_ids_between_neighbours(rt: HostRuntime) -> Result<(), AllocError> {
    let ids = threes(rt.alloc())?;
    assert_eq!(rt; absent_near(&ids, 382), (381, 384));
    assert_eq!(rt; absent_near(&ids, -7), (i64::MIN, 0));
    assert_eq!(rt; absent_near(&ids, 1198), (1197, i64::MAX));
    assert_eq!(rt; absent_so_far(rt.alloc(), &[1, 5], 3)?, (1, 5));
    assert_eq!(rt; absent_so_far(rt.alloc(), &[5, 1], 3)?, (0, 0));
    Ok(())
}

/// 0, 10, .. 1990, each of them new.
fn tens(alloc: Global) -> Result<Option<IdSet>, AllocError> {
    let mut set = IdSet::new(alloc);
    for turn in 0..200i32 {
        if !set.add(i64::from(turn) * 10)? {
            return Ok(None);
        }
    }
    Ok(Some(set))
}

/// Whether the set takes ids out of order and then rising ones, each new or not as expected, and what is sealed then has them.
fn takes_late_ids(set: IdSet) -> Result<bool, AllocError> {
    const ADDED: [(i64, bool); 9] = [
        (1990, false),
        (0, false),
        (15, true),
        (15, false),
        (1275, true),
        (-7, true),
        (1991, true),
        (1991, false),
        (1985, true),
    ];
    const THERE: [i64; 11] = [-7, 0, 10, 15, 20, 1270, 1275, 1280, 1985, 1990, 1991];
    const ABSENT: [i64; 9] = [i64::MIN, -8, 5, 14, 16, 1274, 1989, 1992, i64::MAX];
    let mut set = set;
    if !takes(&mut set, &ADDED)? {
        return Ok(false);
    }
    let ids = sealed(set)?;
    Ok(sizes(&ids) == (205, 2, 203) && has_all(&ids, &THERE) && has_none(&ids, &ABSENT))
}

/// Ids out of order, among them some that are in the pages or came before, and rising ones after them.
#[test]
fn rising_then_late_then_rising(rt: HostRuntime) -> Result<(), AllocError> {
    match tens(rt.alloc())? {
        Some(set) => assert!(rt; takes_late_ids(set)?),
        None => panic!(rt; "one of the tens is not new"),
    }
    Ok(())
}

/// 300 ids, each 300 above the one before.
fn rising(alloc: Global) -> Result<Vec<i64>, AllocError> {
    let mut ids = Vec::new(alloc);
    for turn in 0..300i32 {
        ids.push(i64::from(turn) * 300 - 40_000)?;
    }
    Ok(ids)
}

/// The same ids, the last one first.
fn falling(alloc: Global) -> Result<Vec<i64>, AllocError> {
    let mut ids = Vec::new(alloc);
    for turn in 0..300i32 {
        ids.push(49_700 - i64::from(turn) * 300)?;
    }
    Ok(ids)
}

/// Whether a set of these ids has those that rise, in as many pages and bytes as it takes.
fn lies_as_rising(alloc: Global, ids: &[i64]) -> Result<bool, AllocError> {
    let set = sealed(gathered(alloc, ids)?)?;
    Ok(sizes(&set) == (300, 3, 594) && has_all(&set, &rising(alloc)?))
}

/// The same ids lie in as many bytes, whatever order they came in.
#[test]
fn falling_ids_lie_as_rising_ones(rt: HostRuntime) -> Result<(), AllocError> {
    assert!(rt; lies_as_rising(rt.alloc(), &rising(rt.alloc())?)?);
    assert!(rt; lies_as_rising(rt.alloc(), &falling(rt.alloc())?)?);
    Ok(())
}

/// Whether a set of these ids has them, in one page of four bytes.
fn lies_in_four_bytes(alloc: Global, ids: &[i64]) -> Result<bool, AllocError> {
    let set = sealed(gathered(alloc, ids)?)?;
    Ok(sizes(&set) == (4, 1, 4) && has_all(&set, ids))
}

/// The pages and the bytes of known ids, with one out of order and with none: one byte for 3, one for 5, two for 300.
#[test]
fn bytes_of_known_ids(rt: HostRuntime) -> Result<(), AllocError> {
    assert!(rt; lies_in_four_bytes(rt.alloc(), &[3, 5, 300, -2])?);
    assert!(rt; lies_in_four_bytes(rt.alloc(), &[-2, 3, 5, 300])?);
    Ok(())
}

/// 0 to 299.
fn rising_by_one(alloc: Global) -> Result<Vec<i64>, AllocError> {
    let mut ids = Vec::new(alloc);
    for id in 0..300i64 {
        ids.push(id)?;
    }
    Ok(ids)
}

/// 0, -6, 4, -2, .. 596, 590: every second one is out of order.
fn each_second_late(alloc: Global) -> Result<Vec<i64>, AllocError> {
    let mut ids = Vec::new(alloc);
    for turn in 0..150i32 {
        let rising = i64::from(turn) * 4;
        ids.push(rising)?;
        ids.push(rising - 6)?;
    }
    Ok(ids)
}

/// Whether a set of these ids has them, in three pages of 297 bytes.
fn lies_in_three_pages(alloc: Global, ids: &[i64]) -> Result<bool, AllocError> {
    let set = sealed(gathered(alloc, ids)?)?;
    Ok(sizes(&set) == (300, 3, 297) && has_all(&set, ids))
}

/// 300 ids lie in as many bytes whether every second one came out of order or none.
#[test]
fn rising_and_late_ids_of_three_pages(rt: HostRuntime) -> Result<(), AllocError> {
    assert!(rt; lies_in_three_pages(rt.alloc(), &rising_by_one(rt.alloc())?)?);
    assert!(rt; lies_in_three_pages(rt.alloc(), &each_second_late(rt.alloc())?)?);
    Ok(())
}

/// Relations by their members, and the ids that the start then holds.
fn closed(alloc: Global, links: &[(i64, i64)], start: &[i64]) -> Result<SealedIds, AllocError> {
    let mut all = Links::new(alloc);
    for (member, parent) in links {
        all.add(*member, *parent)?;
    }
    sealed(all.close(gathered(alloc, start)?)?)
}

#[test]
fn chain_in_reverse_order_beside_cycles(rt: HostRuntime) -> Result<(), AllocError> {
    let links = [(9, 10), (8, 9), (12, 11), (11, 12), (13, 13)];
    let kept = closed(rt.alloc(), &links, &[8])?;
    assert!(rt; kept.has(8) && kept.has(9) && kept.has(10));
    assert_eq!(rt; kept.count(), 3);
    Ok(())
}
