//! The laws of dense nodes. Each is the contract of a function that does nothing.

ghost use Rattle.std.specs.Prelude.{◌≡◌, ℕ, List, [], None, length};
ghost use Rattle.pbf_wire.specs.Faults.{fields_in};
ghost use Rattle.osm_entity.specs.Entity.{NodeSpec};
ghost use Rattle.osm_entity.specs.declared.scale.Scale.{Scale};
ghost use Rattle.pbf_strings.specs.TableOut.{table_of};
ghost use Rattle.pbf_dense.specs.Nodes.{nodes};
ghost use Rattle.pbf_dense.specs.Judged.{dense_wire, dense_structure, dense_values, dense_fault};
ghost use Rattle.pbf_dense.specs.WrittenDense.{dense_message, NodesHeld};

/// Nodes that are written as one dense message are read back, wherever in the file it is, and it has no fault: none of
/// wire form, of structure, of values, and no node is too heavy.
#[tactic(auto, using(crate::proofs::DenseLaw::clauses))]
pub fn written_nodes_are_read()
    ensures wire { (place at : ℕ) (texts : List (List ℕ)) (scale : Scale) (ns : List NodeSpec)
        → NodesHeld texts scale ns → dense_wire place at (dense_message texts ns) ≡ [] }
    ensures structure { (place at : ℕ) (texts : List (List ℕ)) (scale : Scale) (ns : List NodeSpec)
        → NodesHeld texts scale ns → dense_structure place at (dense_message texts ns) ≡ [] }
    ensures values { (place at : ℕ) (texts : List (List ℕ)) (scale : Scale) (ns : List NodeSpec)
        → NodesHeld texts scale ns
        → dense_values (length (table_of texts)) place at (dense_message texts ns) ≡ [] }
    ensures read { (at : ℕ) (texts : List (List ℕ)) (scale : Scale) (ns : List NodeSpec)
        → NodesHeld texts scale ns
        → nodes (table_of texts) scale (fields_in at (dense_message texts ns)) ≡ ns }
    ensures sound { (place at : ℕ) (texts : List (List ℕ)) (scale : Scale) (ns : List NodeSpec)
        → NodesHeld texts scale ns
        → dense_fault place at (table_of texts) (dense_message texts ns) ≡ None }
{}
