//! Runs of tags that are taken over from a dense message to one that is being written.

ghost use Rattle.std.specs.Prelude.{◌≡◌, ◌∷◌, ◌++◌, ◌+◌, ◌<◌, ◌≤◌, [], ℕ, List, ⊤, OnOk, IfOk, MatchOption, length, map};
ghost use Rattle.pbf_wire.specs.Cursors.{numbers_left};
ghost use Rattle.pbf_strings.specs.Texts.{text};
ghost use Rattle.pbf_strings.specs.TableOut.{GivesIndex, texts_after};
ghost use Rattle.pbf_strings.specs.declared.table.TheConstants.{MOST_USED_TEXTS};
ghost use Rattle.osm_entity.specs.EntityTexts.{tag_texts};
ghost use Rattle.osm_entity.specs.Sources.{low_32, run, run_tags};
ghost use Rattle.pbf_dense.specs.Runs.{after_run};
ghost use Rattle.pbf_dense.specs.Taking.{PassesRun};
ghost use Rattle.pbf_dense.specs.WrittenDense.{are_some, run_of};

use crate::entries::next_number;
use pbf_strings::{Table, TableOut};
use pbf_wire::{Column, ColumnOut, low_u32};
use std::alloc::AllocError;
use std::hash::BuildHasher;

/// The numbers of the next key of a run and of its value. `None` at the end of the run, which is passed. It is inlined, so that the
/// cursor of a loop stays in registers.
#[inline(always)]
#[tactic(auto, using(crate::proofs::MovingLemmas::run_steps, crate::proofs::TextLemmas::pair_steps))]
pub(crate) fn next_pair(numbers: &mut Column<'_>) -> Option<(u32, u32)>
    ensures pair { MatchOption result (run (map low_32 (numbers_left numbers.old)) ≡ [])
        (λ pair. run (map low_32 (numbers_left numbers.old))
        ≡ pair ∷ run (map low_32 (numbers_left numbers.new))) }
    ensures rest { MatchOption result (PassesRun numbers.old numbers.new)
        (λ _. after_run (map low_32 (numbers_left numbers.old))
        ≡ after_run (map low_32 (numbers_left numbers.new))) }
    ensures fewer { MatchOption result ⊤
        (λ _. length (numbers_left numbers.new) < length (numbers_left numbers.old)) }
{
    let key = low_u32(next_number(numbers)?);
    if key == 0 {
        return None;
    }
    let value = low_u32(next_number(numbers)?);
    Some((key, value))
}

/// The index in the table that is written of the text that has this number in the one that is read. It is inlined:
/// most texts were used just before.
#[inline(always)]
fn index_of<S: BuildHasher>(
    number: u32,
    texts: &Table<'_>,
    table: &mut TableOut<S>,
) -> Result<u32, AllocError>
    requires { length table.old < MOST_USED_TEXTS }
    ensures { GivesIndex (text texts.now number) table.old table.new result }
{
    table.index_of(texts.text(number as usize))
}

/// Takes the next run over: adds the indexes of its keys and values in turn, and then a 0. Returns whether it has a tag. That is quick if
/// it has none, as of most nodes; otherwise a copy of the cursor is read on, so that the cursor of a loop stays in registers.
pub(crate) fn take_run<S: BuildHasher>(
    runs: &mut ColumnOut,
    numbers: &mut Column<'_>,
    texts: &Table<'_>,
    table: &mut TableOut<S>,
) -> Result<bool, AllocError>
    requires { length table.old + length (tag_texts (run_tags texts.now (numbers_left numbers.old)))
        ≤ MOST_USED_TEXTS }
    ensures texts { OnOk result (table.new
        ≡ texts_after table.old (tag_texts (run_tags texts.now (numbers_left numbers.old)))) }
    ensures runs { (used : List (List ℕ)) → OnOk result (runs.new ≡ runs.old
        ++ run_of (texts_after table.new used) (run_tags texts.now (numbers_left numbers.old))) }
    ensures tagged { IfOk result
        (λ tagged. tagged ≡ are_some (run_tags texts.now (numbers_left numbers.old))) }
    ensures rest { OnOk result (PassesRun numbers.old numbers.new) }
{
    if numbers.pass_zero() {
        let no_key = 0;
        runs.push(no_key)?;
        return Ok(false);
    }
    let mut rest = *numbers;
    let mut tagged = false;
    'tags: while let Some((key, value)) = next_pair(&mut rest) {
        runs.push(u64::from(index_of(key, texts, table)?))?;
        runs.push(u64::from(index_of(value, texts, table)?))?;
        tagged = true;
    }
    runs.push(0)?;
    *numbers = rest;
    Ok(tagged)
}
