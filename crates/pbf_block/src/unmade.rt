//! What isn't made yet: what a run holds is as small as a message, so it is cheap to pass.

ghost use Rattle.std.specs.Prelude.{◌≡◌};
ghost use Rattle.osm_entity.specs.Views.{node_of, relation_of};
ghost use Rattle.pbf_dense.specs.Cursors.{dense_left};
ghost use Rattle.pbf_block.specs.Runs.{node_from, nodes_from, relation_from};

use crate::node::node_in;
use crate::relation::relation_in;
use osm_entity::{NodeRef, RelationRef, Scale};
use pbf_dense::Dense;
use pbf_strings::Table;
use pbf_wire::Message;

/// A node, a way, a relation, or the nodes of a dense message, that are not made yet. Which of these it is, its [`Run`](crate::Run) says.
#[derive(Clone, Copy)]
pub struct Unmade<'a> {
    pub(crate) message: Message<'a>,
    pub(crate) table: &'a Table<'a>,
    pub(crate) scale: Scale,
}

impl<'a> Unmade<'a> {
    /// The node. Reads the message's fields once and does not allocate.
    pub fn node(&self) -> NodeRef<'a>
        ensures { node_of result ≡ node_from self.now }
    {
        node_in(self.message, self.table, self.scale)
    }

    /// The relation. Reads the message's fields once and does not allocate.
    pub fn relation(&self) -> RelationRef<'a>
        ensures { relation_of result ≡ relation_from self.now }
    {
        relation_in(self.message, self.table, self.scale)
    }

    /// The nodes of a dense message, from the first on. Goes through the message's fields once for each column and does not allocate.
    pub fn nodes(&self) -> Dense<'a>
        ensures { dense_left result ≡ nodes_from self.now }
    {
        Dense::over(self.message, self.table, self.scale)
    }
}
