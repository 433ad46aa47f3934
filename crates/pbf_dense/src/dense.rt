//! The nodes of a dense message.

ghost use Rattle.std.specs.Prelude.{◌≡◌, [], ⊤, MatchOption, map, pos, true};
ghost use Rattle.std.specs.List.{list_all};
ghost use Rattle.std.specs.Option.{IsSome};
ghost use Rattle.pbf_wire.specs.Cursors.{numbers_left, sums_left};
ghost use Rattle.pbf_wire.specs.Signed.{is_within};
ghost use Rattle.pbf_wire.specs.declared.limits.TheConstants.{SUM_LIMIT};
ghost use Rattle.osm_entity.specs.Sources.{low_32, tags_left};
ghost use Rattle.pbf_dense.specs.Runs.{after_runs};
ghost use Rattle.pbf_dense.specs.Taking.{PassesRun, TakesTags};

use crate::dense_nodes::{ID, KEYS_VALS, LAT, LON};
use crate::info::InfoColumns;
use crate::places::Places;
use crate::take_runs::next_pair;
use crate::within::IdsWithin;
use osm_entity::{BoundingBox, MetaRef, NodeRef, RunTags, STORED_LIMIT, Scale, Tags};
use pbf_strings::Table;
use pbf_wire::{Column, Message, Sums, column_count};

/// Moves past the next 0 in key place. A copy is read on, so that the cursor of a loop stays in registers.
#[inline(always)]
fn skip_run(numbers: &mut Column<'_>)
    ensures { PassesRun numbers.old numbers.new }
{
    let mut rest = *numbers;
    'tags: while next_pair(&mut rest).is_some() {}
    *numbers = rest;
}

/// Moves past as many zeros in key place: past some at once, if they come in a row.
fn skip_runs(numbers: &mut Column<'_>, count: usize)
    ensures { map low_32 (numbers_left numbers.new)
        ≡ after_runs count (map low_32 (numbers_left numbers.old)) }
{
    let mut rest = *numbers;
    let mut left = count;
    'runs: while left > 0 {
        let bare = rest.pass_zeros(left);
        left -= bare;
        if bare == 0 {
            skip_run(&mut rest);
            left -= 1;
        }
    }
    *numbers = rest;
}

/// Leaves no tags in this place. It is a call, so that they take no room where nodes are read.
#[inline(never)]
fn clear_tags(tags: &mut Tags<'_>)
    ensures { tags_left tags.new ≡ [] }
{
    *tags = Tags::Owned(&[]);
}

/// Puts the tags of the next node in this place, and skips its run. It is a call for the same reason.
#[inline(never)]
fn take_tag_run<'a>(numbers: &mut Column<'a>, table: &'a Table<'a>, tags: &mut Tags<'a>)
    ensures { TakesTags table.now numbers.old numbers.new tags.new }
{
    let run = RunTags::new(*numbers, table);
    if next_pair(numbers).is_none() {
        clear_tags(tags);
        return;
    }
    skip_run(numbers);
    *tags = Tags::Run(run);
}

/// Like [`take_tag_run`], and quick if there is no tag, as of most nodes, and there was none in the place before.
fn take_tags<'a>(numbers: &mut Column<'a>, table: &'a Table<'a>, tags: &mut Tags<'a>)
    ensures { TakesTags table.now numbers.old numbers.new tags.new }
{
    if !numbers.pass_zero() {
        take_tag_run(numbers, table, tags);
    } else if !tags.are_none() {
        clear_tags(tags);
    }
}

/// Puts a node into a place, whose parts are all still to be given. It is a call for the same reason.
#[inline(never)]
fn make_place(place: &mut Option<NodeRef<'_>>, scale: Scale)
    ensures { IsSome place.new }
{
    let meta = MetaRef {
        version: None,
        timestamp: None,
        changeset: None,
        uid: None,
        user: None,
        visible: None,
    };
    let tags = Tags::Owned(&[]);
    *place = Some(NodeRef::new(0, 0, 0, meta, tags, scale));
}

/// Like [`make_place`], of a place that may have one.
fn fill_if_empty(place: &mut Option<NodeRef<'_>>, scale: Scale)
    ensures { IsSome place.new }
{
    if place.is_none() {
        make_place(place, scale);
    }
}

/// The nodes of a dense message that are still to come: an iterator over its columns, which does not allocate.
#[derive(Clone, Copy)]
pub struct Dense<'a> {
    pub(crate) ids: Sums<'a>,
    pub(crate) lats: Sums<'a>,
    pub(crate) lons: Sums<'a>,
    pub(crate) info: InfoColumns<'a>,
    pub(crate) keys_vals: Column<'a>,
    pub(crate) table: &'a Table<'a>,
    scale: Scale,
    ghost ids_stored: { list_all (is_within (pos SUM_LIMIT)) (sums_left ids) ≡ true },
    ghost lats_stored: { list_all (is_within (pos SUM_LIMIT)) (sums_left lats) ≡ true },
    ghost lons_stored: { list_all (is_within (pos SUM_LIMIT)) (sums_left lons) ≡ true },
}

impl<'a> Dense<'a> {
    ghost use Rattle.std.specs.Prelude.{ℕ, List, length, drop};
    ghost use Rattle.std.specs.Iterator.{YieldsFirstBy};
    ghost use Rattle.pbf_wire.specs.Faults.{found_in};
    ghost use Rattle.osm_entity.specs.Views.{node_of};
    ghost use Rattle.pbf_dense.specs.Judged.{id_count, dense_wire};
    ghost use Rattle.pbf_dense.specs.Nodes.{nodes, nodes_along};
    ghost use Rattle.pbf_dense.specs.Cursors.{dense_left, AreIdsAfter};
    ghost use Rattle.pbf_dense.specs.Places.{node_place, places_left, BeginWithIds};
    ghost use Rattle.pbf_dense.specs.Within.{ids_within, ids_within_left};

    /// The nodes of a dense message, whatever is wrong with it: as long as there are an id, a latitude and a longitude, up to a
    /// sum that is out of range. Goes through the message's fields once for each of its columns and does not allocate.
    #[tactic(auto, using(crate::proofs::InfoLemmas::sums_are_within), unfolding(crate::specs::Cursors::dense_left, crate::specs::Nodes::nodes_along))]
    pub fn over(message: Message<'a>, table: &'a Table<'a>, scale: Scale) -> Dense<'a>
        ensures { dense_left result ≡ nodes_along table.now scale (found_in message.entry) }
    {
        Dense {
            ids: Sums::new(message.column(ID), STORED_LIMIT),
            lats: Sums::new(message.column(LAT), STORED_LIMIT),
            lons: Sums::new(message.column(LON), STORED_LIMIT),
            info: InfoColumns::last_in(message),
            keys_vals: message.column(KEYS_VALS),
            table,
            scale,
        }
    }

    /// The scale of the nodes.
    pub fn scale(&self) -> Scale
        ensures { result ≡ self.now.scale }
    {
        let Dense { scale, .. } = *self;
        scale
    }

    /// The places of the nodes that are still to come, in order, each with its id. Tags and metadata aren't read.
    #[tactic(auto, using(crate::proofs::PlaceLemmas::places_are), unfolding(crate::specs::Cursors::dense_left, crate::specs::Places::places_left))]
    pub fn places(&self) -> Places<'a>
        ensures { places_left result ≡ map node_place (dense_left self.now) }
    {
        Places {
            ids: self.ids,
            lats: self.lats,
            lons: self.lons,
            scale: self.scale,
        }
    }

    /// The ids of those nodes still to come that lie in a box or on one of its edges, in order. `None` says nothing: the places have
    /// to be read then.
    #[tactic(auto, using(crate::proofs::WithinLemmas::within_are), unfolding(crate::specs::Cursors::dense_left, crate::specs::Within::ids_within_left))]
    pub fn ids_within(&self, area: &BoundingBox) -> Option<IdsWithin<'a>>
        ensures { MatchOption result ⊤
            (λ it. ids_within_left it ≡ ids_within area.now (dense_left self.now)) }
    {
        let Dense {
            ids,
            lats,
            lons,
            scale,
            ..
        } = *self;
        let lat_span = scale.lat_span(area.bottom, area.top)?;
        let lon_span = scale.lon_span(area.left, area.right)?;
        Some(IdsWithin {
            ids,
            lats,
            lons,
            lat_span,
            lon_span,
        })
    }

    /// The ids of the nodes that are still to come, and then maybe more ids, which have no place. Nothing else is read.
    #[tactic(auto, using(crate::proofs::PlaceLemmas::ids_begin), unfolding(crate::specs::Cursors::dense_left, crate::specs::Cursors::AreIdsAfter))]
    pub fn ids(&self) -> Sums<'a>
        ensures begin { BeginWithIds (sums_left result) (dense_left self.now) }
        ensures start { AreIdsAfter 0 self.now result }
    {
        self.ids
    }

    /// Skips as many nodes, or all if there are fewer, by a cursor that has read the ids up to there, as the caller must prove. None is
    /// made, and no id is read again: each other column is moved on by itself.
    pub fn pass_to(&mut self, ids: &Sums<'a>, count: usize)
        requires { AreIdsAfter count self.old ids.now }
        ensures { dense_left self.new ≡ drop count (dense_left self.old) }
    {
        if count > 0 {
            self.follow(ids, count);
        }
    }

    /// Like [`Dense::pass_to`], if there are some to skip. It is a call, which most nodes need not take.
    #[inline(never)]
    #[tactic(auto, using(crate::proofs::InfoLemmas::still_within), unfolding(crate::specs::Cursors::AreIdsAfter))]
    fn follow(&mut self, ids: &Sums<'a>, count: usize)
        requires { AreIdsAfter count self.old ids.now }
        ensures { dense_left self.new ≡ drop count (dense_left self.old) }
    {
        self.ids = *ids;
        self.lats.pass(count);
        self.lons.pass(count);
        self.info.pass(count);
        skip_runs(&mut self.keys_vals, count);
    }

    /// Puts the next node in this place, or `None`, as [`Dense::next`] gives it. The room of a node is large, and a loop that keeps its
    /// place need neither clear nor copy it: each part is written where it is to be, and of tags that are none nothing is.
    #[tactic(auto, using(crate::proofs::MovingLemmas::no_lats, crate::proofs::MovingLemmas::no_lons, crate::proofs::InfoLemmas::later_within), unfolding(crate::specs::Cursors::dense_left))]
    pub fn next_in(&mut self, place: &mut Option<NodeRef<'a>>)
        ensures { YieldsFirstBy node_of dense_left self.old place.new self.new }
    {
        let Some(id) = self.ids.next() else {
            *place = None;
            return;
        };
        let Some(lat) = self.lats.next() else {
            *place = None;
            return;
        };
        let Some(lon) = self.lons.next() else {
            *place = None;
            return;
        };
        fill_if_empty(place, self.scale);
        let Some(node) = place else {
            return;
        };
        node.id = id;
        node.lat = lat;
        node.lon = lon;
        node.scale = self.scale;
        self.info.take_in(self.table, &mut node.meta);
        take_tags(&mut self.keys_vals, self.table, &mut node.tags);
    }

    /// How many nodes there are in a dense message without a wire fault: as many as ids. No number is decoded, and no other
    /// column is read.
    #[tactic(auto, using(crate::proofs::SoundDense::ids_are_nodes))]
    pub fn count(message: Message<'_>) -> usize
        ensures exact { result ≡ id_count (found_in message.entry) }
        ensures nodes { (place : ℕ) (table : List (List ℕ)) (scale : Scale)
            → dense_wire place message.entry.at message.entry.bytes.now ≡ []
            → result ≡ length (nodes table scale (found_in message.entry)) }
    {
        column_count(message, ID)
    }
}

impl<'a> Iterator for Dense<'a> {
    ghost use Rattle.std.specs.Iterator.{YieldsFirstBy, item_count};
    ghost use Rattle.osm_entity.specs.Views.{node_of};
    ghost use Rattle.pbf_dense.specs.Cursors.{dense_left};

    type Item = NodeRef<'a>;

    ghost next_gives = { YieldsFirstBy node_of dense_left };

    ghost remaining = { item_count dense_left };

    fn next(&mut self) -> Option<NodeRef<'a>> {
        let mut place = None;
        self.next_in(&mut place);
        place
    }
}
