//! The index of pages: where each begins.

ghost use Rattle.std.specs.Prelude.{◌≡◌, ◌<◌, ◌≤◌, drop, get_or, length, int_le};

/// How many ids a page has, all but the last.
pub(crate) const PAGE: u64 = 128;

/// Where a page begins: its first id, and the place of its bytes.
#[derive(Clone, Copy)]
pub(crate) struct PageStart {
    pub(crate) first: i64,
    pub(crate) place: usize,
}

/// Whether the page begins at or below the id.
pub(crate) fn begins_up_to(start: &PageStart, id: i64) -> bool
    ensures { result ≡ int_le start.now.first id }
{
    start.first <= id
}

/// The bytes from a place on.
pub(crate) fn bytes_from(bytes: &[u8], place: usize) -> &[u8]
    requires { place ≤ length bytes.now }
    ensures { result.now ≡ drop place bytes.now }
{
    &bytes[place..]
}

/// The first id of all, and the greatest number if there is none.
pub(crate) fn first_id(index: &[PageStart]) -> i64
    ensures { (d : PageStart) → 0 < length index.now → result ≡ (get_or index.now 0 d).first }
{
    match index.first() {
        Some(start) => start.first,
        None => i64::MAX,
    }
}
