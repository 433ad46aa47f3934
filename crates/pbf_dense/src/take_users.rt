//! The users of nodes that are taken over from a dense message to one that is being written.

ghost use Rattle.std.specs.Prelude.{◌≡◌, ◌++◌, ◌+◌, ◌<◌, ◌≤◌, ℕ, List, OnOk, length, drop};
ghost use Rattle.std.specs.Option.{option_to_list};
ghost use Rattle.pbf_wire.specs.Cursors.{sums_left};
ghost use Rattle.pbf_strings.specs.TableOut.{GivesIndex, texts_after};
ghost use Rattle.pbf_strings.specs.declared.table.TheConstants.{MOST_USED_TEXTS};
ghost use Rattle.pbf_dense.specs.Info.{user_text};
ghost use Rattle.pbf_dense.specs.NodeTexts.{next_user_text, user_index, IsKnown};

use crate::entries::next_sum;
use crate::user_texts::user_text_of;
use pbf_strings::{Table, TableOut};
use pbf_wire::{DeltaOut, Sums};
use std::alloc::AllocError;
use std::hash::BuildHasher;

/// The indexes of users in the table that is written, of the numbers that they have in the one that is read. The last one is kept: most
/// nodes have the user of the node before.
#[derive(Clone, Copy)]
pub(crate) struct UserIndexes<'a> {
    pub(crate) texts: &'a Table<'a>,
    pub(crate) user: i64,
    /// The index of that user, and 0 if there is none yet.
    pub(crate) index: u32,
}

impl<'a> UserIndexes<'a> {
    /// Of a table of which no user was looked up yet.
    pub(crate) fn new(texts: &'a Table<'a>) -> UserIndexes<'a>
        ensures texts { result.texts ≡ texts.entry }
        ensures known { (written : List (List ℕ))
            → IsKnown texts.now written result.user result.index }
    {
        UserIndexes {
            texts,
            user: 0,
            index: 0,
        }
    }

    /// The index of a user, which is kept.
    #[tactic(auto, using(crate::proofs::TextLemmas::known_now))]
    fn index_of<S: BuildHasher>(
        &mut self,
        user: i64,
        table: &mut TableOut<S>,
    ) -> Result<u32, AllocError>
        requires room { length table.old < MOST_USED_TEXTS }
        requires known { IsKnown self.old.texts.now table.old self.old.user self.old.index }
        ensures given { GivesIndex (user_text self.old.texts.now user) table.old table.new result }
        ensures known { OnOk result
            (IsKnown self.old.texts.now table.new self.new.user self.new.index) }
        ensures texts { self.new.texts ≡ self.old.texts }
    {
        if self.index > 0 && self.user == user {
            return Ok(self.index);
        }
        let index = table.index_of(user_text_of(self.texts, user))?;
        self.user = user;
        self.index = index;
        Ok(index)
    }

    /// Takes the user of the next node over, if it has one: adds the index.
    pub(crate) fn take_next<S: BuildHasher>(
        &mut self,
        column: &mut DeltaOut,
        users: &mut Sums<'_>,
        table: &mut TableOut<S>,
    ) -> Result<(), AllocError>
        requires room { length table.old + length (option_to_list
            (next_user_text self.old.texts.now (sums_left users.old))) ≤ MOST_USED_TEXTS }
        requires known { IsKnown self.old.texts.now table.old self.old.user self.old.index }
        ensures texts { OnOk result (table.new ≡ texts_after table.old
            (option_to_list (next_user_text self.old.texts.now (sums_left users.old)))) }
        ensures added { (used : List (List ℕ)) → OnOk result (column.new ≡ column.old
            ++ option_to_list (user_index (texts_after table.new used)
            (next_user_text self.old.texts.now (sums_left users.old)))) }
        ensures rest { sums_left users.new ≡ drop 1 (sums_left users.old) }
        ensures known { OnOk result
            (IsKnown self.old.texts.now table.new self.new.user self.new.index) }
        ensures same { self.new.texts ≡ self.old.texts }
    {
        let Some(user) = next_sum(users) else {
            return Ok(());
        };
        let index = self.index_of(user, table)?;
        column.push(i64::from(index))?;
        Ok(())
    }
}
