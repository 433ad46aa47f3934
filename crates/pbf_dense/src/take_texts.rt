//! The texts of nodes that are taken over from a dense message to one that is being written.

ghost use Rattle.std.specs.Prelude.{◌≡◌, ◌+◌, ◌≤◌, false, IfOk, OnOk, length, map, drop};
ghost use Rattle.pbf_wire.specs.Cursors.{numbers_left, sums_left};
ghost use Rattle.pbf_strings.specs.declared.table.TheConstants.{MOST_USED_TEXTS};
ghost use Rattle.osm_entity.specs.Sources.{low_32};
ghost use Rattle.pbf_dense.specs.NodeTexts.{texts_along, texts_used, columns_with, TakesTexts};
ghost use Rattle.pbf_dense.specs.Runs.{after_runs};

use crate::take_runs::take_run;
use crate::take_users::UserIndexes;
use pbf_strings::{Table, TableOut};
use pbf_wire::{Column, ColumnOut, DeltaOut, Sums};
use std::alloc::AllocError;
use std::hash::BuildHasher;

/// The texts of nodes that are still to be taken over: a cursor over their tags, and one over their users.
#[derive(Clone, Copy)]
pub(crate) struct TextSource<'a> {
    pub(crate) keys_vals: Column<'a>,
    pub(crate) users: Sums<'a>,
    pub(crate) texts: &'a Table<'a>,
}

impl<'a> TextSource<'a> {
    /// Takes the texts of as many nodes over, of each those of its tags and then its user: adds their runs and the indexes of their users.
    /// Returns whether one of them has a tag.
    pub(crate) fn take<S: BuildHasher>(
        &mut self,
        runs: &mut ColumnOut,
        users: &mut DeltaOut,
        count: usize,
        table: &mut TableOut<S>,
    ) -> Result<bool, AllocError>
        requires { length table.old + length (texts_used (texts_along self.old.texts.now count
            (sums_left self.old.users) (map low_32 (numbers_left self.old.keys_vals))))
            ≤ MOST_USED_TEXTS }
        ensures taken { IfOk result (λ tagged. TakesTexts (texts_along self.old.texts.now count
            (sums_left self.old.users) (map low_32 (numbers_left self.old.keys_vals)))
            table.old table.new
            (columns_with runs.old users.old false) (columns_with runs.new users.new tagged)) }
        ensures runs { OnOk result (map low_32 (numbers_left self.new.keys_vals)
            ≡ after_runs count (map low_32 (numbers_left self.old.keys_vals))) }
        ensures users { OnOk result
            (sums_left self.new.users ≡ drop count (sums_left self.old.users)) }
    {
        let texts = self.texts;
        let mut keys_vals = self.keys_vals;
        let mut all_users = self.users;
        let mut indexes = UserIndexes::new(texts);
        let mut tagged = false;
        let mut left = count;
        'nodes: while left > 0 {
            let has_tag = take_run(runs, &mut keys_vals, texts, table)?;
            indexes.take_next(users, &mut all_users, table)?;
            tagged = tagged || has_tag;
            left -= 1;
        }
        self.keys_vals = keys_vals;
        self.users = all_users;
        Ok(tagged)
    }
}
