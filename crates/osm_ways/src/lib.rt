//! Which entities of a list are kept: the complete-ways extract, with and without all parents, and with the members of relations that are wanted whole.
#![tactic(auto)]

mod choice_strips;
mod choosing;
mod first;
mod in_area;
pub mod laws;
mod marking;
mod members;
mod parents;
mod phases;
mod sorted;
mod whole;

pub use choice_strips::ChoiceStrips;
pub use choosing::Chooser;
pub use first::FirstPhase;
pub use in_area::{InArea, NodePhase, NodeTaker, RelationTaker};
pub use marking::mark_ids;
pub use members::MemberPhase;
pub use parents::{ChosenParents, FoundRelations, RelationPhase};
pub use phases::{Chosen, NodeIds, SeenWay, WayPhase};
pub use sorted::SortedPhase;
pub use whole::WholeTypes;
