//! Dense nodes that are weighed and counted together.

ghost use Rattle.std.specs.Prelude.{◌≡◌, ◌-◌, ◌^◌, [], IsTrue, length, min};
ghost use Rattle.pbf_wire.specs.Cursors.{numbers_left, sums_left};
ghost use Rattle.pbf_strings.specs.Texts.{text};
ghost use Rattle.osm_entity.specs.Sources.{low_32, run_tags};
ghost use Rattle.osm_entity.specs.Weight.{tags_weight};
ghost use Rattle.pbf_dense.specs.Steady.{InEachOrNone};
ghost use Rattle.pbf_dense.specs.Taking.{PassesRun};

use crate::dense::Dense;
use crate::entries::next_sum;
use crate::take_runs::next_pair;
use crate::user_texts::{text_if_some, user_text_of};
use osm_entity::{ENTITY_WEIGHT, PART_WEIGHT};
use pbf_strings::Table;
use pbf_wire::{Column, Sums};

/// Some of the next nodes, and what they weigh together.
#[derive(Clone, Copy)]
pub struct NodesWeight {
    pub count: usize,
    pub weight: u64,
}

/// Whether a column of differences has no value.
fn is_empty(values: &Sums<'_>) -> bool
    ensures { IsTrue result → sums_left values.now ≡ [] }
{
    let mut rest = *values;
    rest.next().is_none()
}

/// Whether a column of differences has a value for each of so many nodes, or none; `false` says nothing.
pub(crate) fn sums_go_with(values: &Sums<'_>, count: usize) -> bool
    ensures { IsTrue result → InEachOrNone count (sums_left values.now) }
{
    match values.count_if_small() {
        Some(entries) => entries == count || entries == 0,
        None => values.has(count) || is_empty(values),
    }
}

/// The same of a column of plain numbers.
pub(crate) fn numbers_go_with(numbers: &Column<'_>, count: usize) -> bool
    ensures { IsTrue result → InEachOrNone count (numbers_left numbers.now) }
{
    match numbers.count_if_small() {
        Some(entries) => entries == count || entries == 0,
        None => false,
    }
}

/// The length of the text of a stored number.
fn text_length(table: &Table<'_>, number: u32) -> u64
    ensures { result ≡ length (text table.now number) }
{
    table.text(number as usize).len() as u64
}

/// Moves past the next 0 in key place, and returns what the tags before it weigh. If it is more than a `u64` holds, the greatest. That is
/// quick if there is no tag, as of most nodes; otherwise a copy is read on, so that the cursor of a loop stays in registers.
fn weigh_run(numbers: &mut Column<'_>, table: &Table<'_>) -> u64
    ensures weight { result ≡ min
        (tags_weight (run_tags table.now (numbers_left numbers.old))) (2 ^ 64 - 1) }
    ensures rest { PassesRun numbers.old numbers.new }
{
    if numbers.pass_zero() {
        return 0;
    }
    let mut rest = *numbers;
    let mut weight: u64 = 0;
    'tags: while let Some((key, value)) = next_pair(&mut rest) {
        weight = weight
            .saturating_add(PART_WEIGHT)
            .saturating_add(text_length(table, key))
            .saturating_add(text_length(table, value));
    }
    *numbers = rest;
    weight
}

/// The columns that say what nodes weigh: those of the nodes that are still to come.
#[derive(Clone, Copy)]
struct Weights<'a> {
    users: Sums<'a>,
    keys_vals: Column<'a>,
    table: &'a Table<'a>,
}

impl<'a> Weights<'a> {
    ghost use Rattle.std.specs.Prelude.{◌≡◌, ◌-◌, ◌^◌, ◌<◌, ◌≤◌, ⊤, MatchOption, None, drop, map, min};
    ghost use Rattle.pbf_wire.specs.Cursors.{numbers_left, sums_left};
    ghost use Rattle.osm_entity.specs.Sources.{low_32};
    ghost use Rattle.pbf_dense.specs.Steady.{AreSame, first_weight, user_weight};
    ghost use Rattle.pbf_dense.specs.Runs.{after_run};

    /// What the text of the next node's user weighs.
    fn next_user(&mut self) -> u64
        ensures weight { result ≡ user_weight self.old.table.now (sums_left self.old.users) }
        ensures users { sums_left self.new.users ≡ drop 1 (sums_left self.old.users) }
        ensures tags { self.new.keys_vals ≡ self.old.keys_vals }
        ensures table { self.new.table ≡ self.old.table }
    {
        match text_if_some(self.table, next_sum(&mut self.users)) {
            Some(text) => text.len() as u64,
            None => 0,
        }
    }

    /// What the next node weighs. If it is more than a `u64` holds, the greatest.
    fn next(&mut self) -> u64
        ensures weight { result ≡ min (first_weight self.old.table.now
            (sums_left self.old.users) (map low_32 (numbers_left self.old.keys_vals))) (2 ^ 64 - 1) }
        ensures users { sums_left self.new.users ≡ drop 1 (sums_left self.old.users) }
        ensures tags { map low_32 (numbers_left self.new.keys_vals)
            ≡ after_run (map low_32 (numbers_left self.old.keys_vals)) }
        ensures table { self.new.table ≡ self.old.table }
    {
        let user = self.next_user();
        let tags = weigh_run(&mut self.keys_vals, self.table);
        user.saturating_add(ENTITY_WEIGHT).saturating_add(tags)
    }

    /// Some of the next nodes, at most `most`, and what they weigh together, if it is seen at once that they have no tags and the user of the
    /// node before, and if they weigh no more than `room`. They are skipped then.
    fn next_same(&mut self, most: usize, room: u64) -> Option<NodesWeight>
        requires { room < 2 ^ 64 - 1 }
        ensures few { MatchOption result ⊤ (λ same.
            (0 < same.count) × (same.count ≤ most) × (same.weight ≤ room)) }
        ensures same { MatchOption result ⊤ (λ same. AreSame self.old.table.now
            (sums_left self.old.users) (sums_left self.new.users)
            (map low_32 (numbers_left self.old.keys_vals))
            (map low_32 (numbers_left self.new.keys_vals)) same.count same.weight) }
        ensures table { self.new.table ≡ self.old.table }
        ensures kept { result ≡ None → self.new ≡ self.old }
    {
        let mut next = *self;
        let count = next.users.pass_same(most);
        if count == 0 || next.keys_vals.pass_zeros(count) < count {
            return None;
        }
        let user = next.users.last_value();
        let text = user_text_of(next.table, user);
        let weight = (text.len() as u64)
            .saturating_add(ENTITY_WEIGHT)
            .saturating_mul(count as u64);
        if weight > room {
            return None;
        }
        *self = next;
        Some(NodesWeight { count, weight })
    }
}

impl<'a> Dense<'a> {
    ghost use Rattle.std.specs.Prelude.{◌≡◌, ◌≤◌, ⊤, MatchOption, length, take};
    ghost use Rattle.std.specs.List.{sum_by};
    ghost use Rattle.osm_entity.specs.Weight.{node_weight};
    ghost use Rattle.pbf_dense.specs.Cursors.{dense_left};
    ghost use Rattle.pbf_dense.specs.Steady.{IsSteady};

    /// How many nodes are still to come, if a quick test shows that they have the same fields of metadata: that each of the message's
    /// columns has as many entries as nodes, or none. `None` says nothing. The test is for a message of which no node was taken yet.
    pub fn steady_count(&self) -> Option<usize>
        ensures { MatchOption result ⊤ (λ count. IsSteady count self.now) }
    {
        let count = self.ids.count_if_small()?;
        let lats = self.lats.count_if_small()?;
        let lons = self.lons.count_if_small()?;
        if lats != count || lons != count {
            return None;
        }
        if !self.info.is_steady(count) {
            return None;
        }
        Some(count)
    }

    /// As many of the next nodes as weigh no more than `room` together, but at most so many, and what they weigh. No number is read but those of
    /// texts.
    pub fn weigh(&self, most: usize, room: u64) -> NodesWeight
        requires { most ≤ length (dense_left self.now) }
        ensures few { result.count ≤ most }
        ensures weight { result.weight
            ≡ sum_by node_weight (take result.count (dense_left self.now)) }
        ensures light { result.weight ≤ room }
    {
        // A weight that is the greatest number may be a greater one.
        let most_weight = room.min(u64::MAX - 1);
        let mut weights = Weights {
            users: self.info.users,
            keys_vals: self.keys_vals,
            table: self.table,
        };
        let mut count = 0;
        let mut weight = 0;
        'nodes: while count < most {
            if let Some(same) = weights.next_same(most - count, most_weight - weight) {
                count += same.count;
                weight += same.weight;
                continue;
            }
            let next = weights.next();
            if next > most_weight - weight {
                break;
            }
            count += 1;
            weight += next;
        }
        NodesWeight { count, weight }
    }
}
