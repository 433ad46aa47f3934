//! The laws of string tables. Each is the contract of a function that does nothing.

ghost use Rattle.std.specs.Prelude.{◌≡◌, ◌^◌, ◌<◌, ◌≤◌, ℕ, List, None, Some, true, length, slice_get};
ghost use Rattle.std.specs.List.{AllByRecursion};
ghost use Rattle.pbf_wire.specs.Occurrence.{items, found};
ghost use Rattle.pbf_wire.specs.Reading.{each};
ghost use Rattle.pbf_strings.specs.Texts.{texts, table_fault};
ghost use Rattle.pbf_strings.specs.TableOut.{has_text, texts_after, index_in, table_of, table_message};
ghost use Rattle.pbf_strings.specs.declared.table.TheConstants.{MOST_USED_TEXTS};

/// A table that is written is read back: it has the empty text and then the texts that were written, and no fault.
pub fn written_table_is_read()
    ensures texts { (written : List (List ℕ)) → length (table_message written) < 2 ^ 64
        → texts (table_message written) ≡ table_of written }
    ensures sound { (at place : ℕ) (written : List (List ℕ)) → length (table_message written) < 2 ^ 64
        → length written ≤ MOST_USED_TEXTS → table_fault at place (table_message written) ≡ None }
{}

/// The texts that are written have all texts that are used. A text that is among them has an index in the table, and the
/// table has the text there.
pub fn used_texts_are_named()
    ensures used { (used texts : List (List ℕ))
        → AllByRecursion (λ text. has_text (texts_after texts used) text ≡ true) used }
    ensures below { (texts : List (List ℕ)) (text : List ℕ) → has_text texts text ≡ true
        → index_in texts text < length (table_of texts) }
    ensures named { (texts : List (List ℕ)) (text : List ℕ) → has_text texts text ≡ true
        → slice_get (table_of texts) (index_in texts text) ≡ Some text }
{}

/// A table has the same texts wherever in the file it is.
pub fn texts_move_alike()
    ensures { (at : ℕ) (message : List ℕ) → each 1 (found (items at message)) ≡ texts message }
{}
