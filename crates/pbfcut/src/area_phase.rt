//! A phase of one of several areas, in a pass after the first.

ghost use Rattle.std.specs.Prelude.{◌≡◌, true, IsTrue};
ghost use Rattle.std.specs.List.{AllByRecursion};
ghost use Rattle.pbfcut.specs.AreaPhases.{gathered_unless};

use osm_entity::EntityRef;
use pbf_block::{Kinds, Unmade};
use pbf_dense::Dense;
use pbf_header::Header;
use pbf_pass::Gather;
use std::alloc::AllocError;

/// What is gathered for one of several areas. If the first pass was enough for it, nothing more is.
#[derive(Drop)]
pub(crate) struct AreaPhase<G, R> {
    /// What the entities are gathered in.
    pub(crate) gathering: G,
    /// Whether the first pass took all of them.
    pub(crate) is_done: bool,
    /// The header that is written.
    pub(crate) header: Header,
    /// What relations gave, for a later phase.
    pub(crate) found: R,
}

impl<G: Gather, R> Gather for AreaPhase<G, R> {
    ghost gathered = { λ a e. record a {
      gathering = gathered_unless a.is_done G.gathered a.gathering e;
    } };

    #[tactic(auto, using(crate::proofs::AreaPhaseLemmas::none_gathered))]
    fn kinds() -> Kinds {
        G::kinds()
    }

    fn gather(&mut self, entity: &EntityRef<'_>) -> Result<(), AllocError> {
        if self.is_done {
            return Ok(());
        }
        self.gathering.gather(entity)
    }

    fn gather_way(&mut self, unmade: &Unmade<'_>) -> Result<(), AllocError> {
        if self.is_done {
            return Ok(());
        }
        self.gathering.gather_way(unmade)
    }

    fn gather_dense(&mut self, dense: &Dense<'_>) -> Result<(), AllocError> {
        if self.is_done {
            return Ok(());
        }
        self.gathering.gather_dense(dense)
    }
}

/// Whether the first pass was enough for all areas.
pub(crate) fn are_done<G, R>(phases: &[AreaPhase<G, R>]) -> bool
    ensures { IsTrue result → AllByRecursion (λ phase. phase.is_done ≡ true) phases.now }
{
    let Some((first, later)) = phases.split_first() else {
        return true;
    };
    first.is_done && are_done(later)
}
