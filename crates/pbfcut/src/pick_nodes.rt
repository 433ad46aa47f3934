//! Which of the nodes are picked that are still to come in a dense message, and how many of these at a time.

ghost use Rattle.std.specs.Prelude.{true, [], ◌≡◌, ◌≤◌, ◌-◌, IfSome, SomeIff, MatchOption, map, filter, take, drop};
ghost use Rattle.std.specs.Iterator.{YieldsFirstBy};
ghost use Rattle.std.specs.List.{AllByRecursion};
ghost use Rattle.osm_entity.specs.Entity.{node};
ghost use Rattle.osm_entity.specs.Ranges.{NodeFits};
ghost use Rattle.osm_entity.specs.Views.{node_of};
ghost use Rattle.osm_entity.specs.Weight.{node_weight};
ghost use Rattle.pbf_dense.specs.Cursors.{AreIdsAfter, dense_left};
ghost use Rattle.pbf_dense.specs.Steady.{NumbersFit};
ghost use Rattle.pbfcut.specs.Many.{AreEven};
ghost use Rattle.pbfcut.specs.Pick.{picks_of, picks_id};

use crate::picker::Picker;
use osm_entity::{HIGHEST_WEIGHT, NodeRef};
use pbf_dense::Dense;
use pbf_wire::Sums;

/// So few nodes are packed one by one: it costs something to begin with many.
pub(crate) const FEW: usize = 4;

/// At most this many nodes are skipped at a time.
const MOST_PASSED: usize = 8_000;

/// Ids of nodes that are still to come, and how many come before them.
#[derive(Clone, Copy)]
pub(crate) struct IdsAhead<'a> {
    pub(crate) count: usize,
    pub(crate) ids: Sums<'a>,
}

/// How many nodes, of those that are still to come, come before the next that is picked, or some of them, and the ids from there on; `None`
/// if none of them is picked. Only their ids are read.
pub(crate) fn unpicked<'a>(dense: &Dense<'a>, picker: &mut Picker<'_>) -> Option<IdsAhead<'a>>
    ensures none { MatchOption result
        (filter (picks_of picker.old) (map node (dense_left dense.now)) ≡ [])
        (λ ahead. filter (picks_of picker.old)
        (map node (take ahead.count (dense_left dense.now))) ≡ []) }
    ensures ahead { IfSome result (λ ahead. AreIdsAfter ahead.count dense.now ahead.ids) }
    ensures same { picker.new ≡ picker.old }
{
    let mut ids = dense.ids();
    let mut count = 0;
    'ids: loop {
        count += ids.pass_inside(picker.absent(), MOST_PASSED - count);
        let here = ids;
        let Some(id) = ids.next() else {
            return None;
        };
        if count == MOST_PASSED || picker.picks_id(id) {
            return Some(IdsAhead { count, ids: here });
        }
        count += 1;
    }
}

/// How many nodes of a message are alike, of a scale that can be written: all that are still to come; or 0, which says nothing.
fn count_alike(dense: &Dense<'_>) -> usize
    ensures { AreEven result (dense_left dense.now) }
{
    if !dense.scale().fits() {
        return 0;
    }
    let Some(count) = dense.steady_count() else {
        return 0;
    };
    count
}

/// The nodes of a message that are still to come, and how many of them are known to be alike: all, or 0 if nothing is known.
#[derive(Clone, Copy)]
pub(crate) struct NodesLeft<'a> {
    pub(crate) nodes: Dense<'a>,
    pub(crate) alike: usize,
    /// Whether it was tested, or was found out otherwise, if they are alike.
    pub(crate) tested: bool,
}

impl<'a> NodesLeft<'a> {
    /// Those of a message, of which nothing is known yet.
    pub(crate) fn of(dense: &Dense<'a>) -> NodesLeft<'a>
        ensures nodes { result.nodes ≡ dense.now }
        ensures even { AreEven result.alike (dense_left dense.now) }
    {
        NodesLeft {
            nodes: *dense,
            alike: 0,
            tested: false,
        }
    }

    /// Tests whether the nodes are alike, once the next few are picked: in many messages no few are that come one after the other.
    pub(crate) fn test_if_picked(&mut self, picker: &mut Picker<'_>)
        requires { AreEven self.old.alike (dense_left self.old.nodes) }
        ensures nodes { self.new.nodes ≡ self.old.nodes }
        ensures even { AreEven self.new.alike (dense_left self.new.nodes) }
        ensures same { picker.new ≡ picker.old }
    {
        if self.tested || picked_run(&self.nodes, picker, FEW) < FEW {
            return;
        }
        self.tested = true;
        self.alike = count_alike(&self.nodes);
    }

    /// Puts the next node in this place, or `None`, as [`Dense::next_in`] does.
    pub(crate) fn next_in(&mut self, place: &mut Option<NodeRef<'a>>)
        ensures next { YieldsFirstBy node_of dense_left self.old.nodes place.new self.new.nodes }
        ensures alike { self.new.alike ≡ self.old.alike - 1 }
    {
        self.nodes.next_in(place);
        self.alike = self.alike.saturating_sub(1);
    }

    /// Skips as many nodes as come before these ids.
    pub(crate) fn pass_to(&mut self, ahead: &IdsAhead<'a>)
        requires { AreIdsAfter ahead.now.count self.old.nodes ahead.now.ids }
        ensures passed { dense_left self.new.nodes
            ≡ drop ahead.now.count (dense_left self.old.nodes) }
        ensures alike { self.new.alike ≡ self.old.alike - ahead.now.count }
    {
        self.nodes.pass_to(&ahead.ids, ahead.count);
        self.alike = self.alike.saturating_sub(ahead.count);
    }
}

/// How many of the next nodes are picked one after the other, at most so many. Only their ids are read.
pub(crate) fn picked_run(dense: &Dense<'_>, picker: &mut Picker<'_>, most: usize) -> usize
    ensures few { result ≤ most }
    ensures picked { AllByRecursion (λ n. picks_id picker.old n.id ≡ true)
        (take result (dense_left dense.now)) }
    ensures same { picker.new ≡ picker.old }
{
    if picker.picks_all() {
        return most;
    }
    let mut ids = dense.ids();
    let mut run = 0;
    'ids: while run < most {
        let Some(id) = ids.next() else {
            break;
        };
        if !picker.picks_id(id) {
            break;
        }
        run += 1;
        let span = picker.present();
        if span.has(id) {
            run += ids.pass_inside(span, most - run);
        }
    }
    run
}

/// What a node counts for in a block, if it can be written, and otherwise `None`. The columns that it was read from have no number out of
/// its range, so that none is tested here.
pub(crate) fn weight_if_light(view: &NodeRef<'_>) -> Option<u64>
    requires { NumbersFit (node_of view.now) }
    ensures { SomeIff result (NodeFits (node_of view.now)) (node_weight (node_of view.now)) }
{
    if !view.scale().fits() {
        return None;
    }
    let weight = view.weight();
    if weight > HIGHEST_WEIGHT {
        return None;
    }
    Some(weight)
}
