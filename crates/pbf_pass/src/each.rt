//! Several visitors as one visitor, and several gatherers as one gatherer.

ghost use Rattle.std.specs.Prelude.{◌≡◌, IfErr, List, OnOk, map};
ghost use Rattle.std.specs.List.{AllByRecursion, flat_map, fold};
ghost use Rattle.osm_entity.specs.Entity.{node, way};
ghost use Rattle.osm_entity.specs.Views.{entity_of};
ghost use Rattle.pbf_block.specs.Runs.{way_from};
ghost use Rattle.pbf_dense.specs.Cursors.{dense_left};
ghost use Rattle.pbf_frame.specs.Frames.{FrameSpec};
ghost use Rattle.pbf_frame.specs.Next.{Shows};
ghost use Rattle.pbf_pass.specs.Each.{EachTook, OneFailed, each_gathered};

use crate::pass::Gather;
use crate::visit::Visit;
use osm_entity::EntityRef;
use pbf_block::{Kinds, Unmade};
use pbf_dense::Dense;
use pbf_frame::{Frame, Stop};
use std::alloc::{AllocError, Global};
use std::marker::Model;

/// Several visitors that visit each frame, or several gatherers that gather each entity, in one pass. Contracts see the list of them.
#[derive(Drop)]
pub struct Each<T> {
    members: Vec<T>,
}

impl<T> Model for Each<T> {
    ghost use Rattle.std.specs.Prelude.{List};

    ghost Value = { List T };

    ghost view = { λ each. each.members.items };
}

impl<T> Each<T> {
    /// These, in the order of their turns.
    pub fn new(members: Vec<T>) -> Each<T>
        ensures { result ≡ members.items }
    {
        Each { members }
    }

    /// Those that it has, in the same order.
    pub fn into_members(self) -> Vec<T>
        ensures { result.items ≡ self }
    {
        self.members
    }
}

impl<V: Visit> Visit for Each<V> {
    ghost took = { EachTook V.took };

    ghost failed = { OneFailed V.took V.failed };

    ghost ready = { AllByRecursion V.ready };

    ghost lender = { flat_map V.lender };

    #[tactic(auto, using(crate::proofs::EachLemmas::all_back))]
    fn visit(&mut self, alloc: Global, frame: &Frame<'_>) -> Result<(), Stop> {
        visit_each(&mut self.members, alloc, frame)
    }
}

/// Visits a frame by each of the visitors: by the first, and then by those after it. So it calls itself as often as there are visitors, and
/// no invariant has to say which of them are done.
fn visit_each<V: Visit>(visitors: &mut [V], alloc: Global, frame: &Frame<'_>) -> Result<(), Stop>
    requires { AllByRecursion V.ready visitors.old }
    ensures took { OnOk result ((f : FrameSpec) → Shows frame.now f
        → EachTook V.took visitors.old f visitors.new) }
    ensures failed { IfErr result (λ stop. (f : FrameSpec) → Shows frame.now f
        → OneFailed V.took V.failed visitors.old f visitors.new stop) }
    ensures ready { OnOk result (AllByRecursion V.ready visitors.new) }
    ensures lender { flat_map V.lender visitors.new ≡ flat_map V.lender visitors.old }
{
    let Some((first, later)) = visitors.split_first_mut() else {
        return Ok(());
    };
    first.visit(alloc, frame)?;
    visit_each(later, alloc, frame)
}

impl<G: Gather> Gather for Each<G> {
    ghost gathered = { each_gathered G.gathered };

    #[tactic(auto, using(crate::proofs::EachLemmas::none_gathered))]
    fn kinds() -> Kinds {
        G::kinds()
    }

    #[tactic(auto, using(crate::proofs::EachLemmas::all_back))]
    fn gather(&mut self, entity: &EntityRef<'_>) -> Result<(), AllocError> {
        gather_each(&mut self.members, entity)
    }

    #[tactic(auto, using(crate::proofs::EachLemmas::all_back))]
    fn gather_way(&mut self, unmade: &Unmade<'_>) -> Result<(), AllocError> {
        gather_way_each(&mut self.members, unmade)
    }

    #[tactic(auto, using(crate::proofs::EachLemmas::all_back, crate::proofs::EachLemmas::fold_each))]
    fn gather_dense(&mut self, dense: &Dense<'_>) -> Result<(), AllocError> {
        gather_dense_each(&mut self.members, dense)
    }
}

/// Gathers an entity by each of the gatherers.
pub(crate) fn gather_each<G: Gather>(
    gatherers: &mut [G],
    entity: &EntityRef<'_>,
) -> Result<(), AllocError>
    ensures { OnOk result
        (gatherers.new ≡ map (λ g. G.gathered g (entity_of entity.now)) gatherers.old) }
{
    let Some((first, later)) = gatherers.split_first_mut() else {
        return Ok(());
    };
    first.gather(entity)?;
    gather_each(later, entity)
}

/// Gathers a way that is not made yet by each of the gatherers.
pub(crate) fn gather_way_each<G: Gather>(
    gatherers: &mut [G],
    unmade: &Unmade<'_>,
) -> Result<(), AllocError>
    ensures { OnOk result
        (gatherers.new ≡ map (λ g. G.gathered g (way (way_from unmade.now))) gatherers.old) }
{
    let Some((first, later)) = gatherers.split_first_mut() else {
        return Ok(());
    };
    first.gather_way(unmade)?;
    gather_way_each(later, unmade)
}

/// Gathers the nodes of a dense message by each of the gatherers.
pub(crate) fn gather_dense_each<G: Gather>(
    gatherers: &mut [G],
    dense: &Dense<'_>,
) -> Result<(), AllocError>
    ensures { OnOk result (gatherers.new
        ≡ map (λ g. fold G.gathered g (map node (dense_left dense.now))) gatherers.old) }
{
    let Some((first, later)) = gatherers.split_first_mut() else {
        return Ok(());
    };
    first.gather_dense(dense)?;
    gather_dense_each(later, dense)
}
