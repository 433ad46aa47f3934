//! Dense nodes, written.

ghost use Rattle.std.specs.Prelude.{◌≡◌, ◌++◌, ◌∷◌, [], ◌-◌, ◌+◌, ◌≤◌, ◌^◌, min, ℕ, List, OnOk, IfOk, length, take, drop, if◌then◌else◌};
ghost use Rattle.std.specs.List.{flat_map};
ghost use Rattle.pbf_wire.specs.Message.{Column, Each, message, unless_empty};
ghost use Rattle.pbf_wire.specs.Sums.{deltas};
ghost use Rattle.pbf_strings.specs.TableOut.{texts_after};
ghost use Rattle.osm_entity.specs.Entity.{NodeSpec};
ghost use Rattle.osm_entity.specs.EntityTexts.{tag_texts, node_texts};
ghost use Rattle.osm_entity.specs.Ranges.{NodeFits};
ghost use Rattle.osm_entity.specs.Views.{node_of};
ghost use Rattle.pbf_dense.specs.WrittenDense.{HoldsNodes, are_some, run_of, columns_held, dense_message, dense_length};
ghost use Rattle.pbf_dense.specs.Cursors.{dense_left};
ghost use Rattle.pbf_dense.specs.ColumnsTaken.{TakesColumns};
ghost use Rattle.pbf_strings.specs.declared.table.TheConstants.{MOST_USED_TEXTS};

use crate::dense::Dense;
use crate::dense_nodes::{DENSEINFO, ID, KEYS_VALS, LAT, LON};
use crate::info_out::InfoOut;
use crate::take_texts::TextSource;
use osm_entity::NodeRef;
use pbf_strings::TableOut;
use pbf_wire::{ColumnOut, DeltaOut, put_column, put_unless_empty};
use std::alloc::{AllocError, Global};
use std::hash::BuildHasher;

/// A message of dense nodes that is being written. Its columns are encoded as nodes are pushed.
#[derive(Drop)]
pub struct DenseOut {
    ids: DeltaOut,
    lats: DeltaOut,
    lons: DeltaOut,
    info: InfoOut,
    runs: ColumnOut,
    tagged: bool,
}

/// Whether a node has a tag. It is a call, so that its copy of the tags takes no room where nodes are pushed.
#[inline(never)]
fn is_tagged(node: &NodeRef<'_>) -> bool
    ensures { result ≡ are_some (node_of node.now).tags }
{
    node.tags().next().is_some()
}

/// Adds the indexes of the keys and values of a node's tags in turn, and then a 0. It is a call for the same reason.
#[inline(never)]
fn push_each_tag<S: BuildHasher>(
    runs: &mut ColumnOut,
    node: &NodeRef<'_>,
    table: &mut TableOut<S>,
) -> Result<(), AllocError>
    requires { length table.old + length (tag_texts (node_of node.now).tags) ≤ MOST_USED_TEXTS }
    ensures texts { OnOk result
        (table.new ≡ texts_after table.old (tag_texts (node_of node.now).tags)) }
    ensures runs { (used : List (List ℕ))
        → OnOk result (runs.new
        ≡ runs.old ++ run_of (texts_after table.new used) (node_of node.now).tags) }
{
    for (key, value) in node.tags() {
        runs.push(u64::from(table.index_of(key)?))?;
        runs.push(u64::from(table.index_of(value)?))?;
    }
    runs.push(0)?;
    Ok(())
}

/// Like [`push_each_tag`]. If the node is seen to have no tag, its run is only the 0.
fn push_tags<S: BuildHasher>(
    runs: &mut ColumnOut,
    node: &NodeRef<'_>,
    table: &mut TableOut<S>,
) -> Result<(), AllocError>
    requires { length table.old + length (tag_texts (node_of node.now).tags) ≤ MOST_USED_TEXTS }
    ensures texts { OnOk result
        (table.new ≡ texts_after table.old (tag_texts (node_of node.now).tags)) }
    ensures runs { (used : List (List ℕ))
        → OnOk result (runs.new
        ≡ runs.old ++ run_of (texts_after table.new used) (node_of node.now).tags) }
{
    if node.is_bare() {
        let no_key = 0;
        runs.push(no_key)?;
        return Ok(());
    }
    push_each_tag(runs, node, table)
}

impl DenseOut {
    /// No nodes, which allocate nothing yet.
    pub fn new(alloc: Global) -> DenseOut
        ensures { (texts : List (List ℕ)) → HoldsNodes result texts [] }
    {
        DenseOut {
            ids: DeltaOut::new(alloc),
            lats: DeltaOut::new(alloc),
            lons: DeltaOut::new(alloc),
            info: InfoOut::new(alloc),
            runs: ColumnOut::new(alloc),
            tagged: false,
        }
    }

    /// Adds a node after the others, and its texts to the table: the keys and values of its tags in turn, then its user. The
    /// caller must prove that the node fits, that the table has room for its texts, repeats counted, and, for a message that can be
    /// read, that all nodes have the same fields of metadata. After an `Err` nodes and table are unspecified.
    pub fn push<S: BuildHasher>(
        &mut self,
        node: &NodeRef<'_>,
        table: &mut TableOut<S>,
    ) -> Result<(), AllocError>
        requires fits { NodeFits (node_of node.now) }
        requires room { length table.old + length (node_texts (node_of node.now)) ≤ MOST_USED_TEXTS }
        ensures texts { OnOk result
            (table.new ≡ texts_after table.old (node_texts (node_of node.now))) }
        ensures pushed { (ns : List NodeSpec) → HoldsNodes self.old table.old ns
            → OnOk result (HoldsNodes self.new table.new (ns ++ node_of node.now ∷ [])) }
    {
        push_tags(&mut self.runs, node, table)?;
        let user = table.index_if_some(node.meta.user)?;
        self.info.push(&node.meta, user)?;
        self.ids.push(node.id())?;
        self.lats.push(node.lat())?;
        self.lons.push(node.lon())?;
        self.tagged = self.tagged || is_tagged(node);
        Ok(())
    }

    /// Adds the next nodes of a dense message after the others, so many, which are taken from it, and their texts to the table: of each
    /// node those that [`DenseOut::push`] adds. The caller must prove that there are so many, that the table has room for their texts,
    /// repeats counted, and, for a message that can be read, that all nodes have the same fields of metadata. Numbers are copied as they
    /// are spelled if that is how they are written. After an `Err` nodes, table and message are unspecified.
    pub fn take<S: BuildHasher>(
        &mut self,
        nodes: &mut Dense<'_>,
        count: usize,
        table: &mut TableOut<S>,
    ) -> Result<(), AllocError>
        requires many { count ≤ length (dense_left nodes.old) }
        requires room { length table.old + length (flat_map node_texts
            (take count (dense_left nodes.old))) ≤ MOST_USED_TEXTS }
        ensures texts { OnOk result (table.new ≡ texts_after table.old
            (flat_map node_texts (take count (dense_left nodes.old)))) }
        ensures taken { (ns : List NodeSpec) → HoldsNodes self.old table.old ns
            → OnOk result (HoldsNodes self.new table.new
            (ns ++ take count (dense_left nodes.old))) }
        ensures rest { OnOk result (dense_left nodes.new ≡ drop count (dense_left nodes.old)) }
    {
        let mut source = TextSource {
            keys_vals: nodes.keys_vals,
            users: nodes.info.users,
            texts: nodes.table,
        };
        let tagged = source.take(&mut self.runs, &mut self.info.users, count, table)?;
        self.take_numbers(nodes, count)?;
        nodes.keys_vals = source.keys_vals;
        nodes.info.users = source.users;
        self.tagged = self.tagged || tagged;
        Ok(())
    }

    /// Takes the numbers of as many nodes over: of each its id, its place, and its metadata but for its user.
    #[tactic(auto, using(crate::proofs::InfoLemmas::still_within, crate::proofs::InfoLemmas::stored_all))]
    fn take_numbers(&mut self, nodes: &mut Dense<'_>, count: usize) -> Result<(), AllocError>
        ensures { OnOk result (TakesColumns count nodes.old nodes.new self.old self.new) }
    {
        let mut ids = nodes.ids;
        let mut lats = nodes.lats;
        let mut lons = nodes.lons;
        let mut info = nodes.info;
        self.ids.take(&mut ids, count)?;
        self.lats.take(&mut lats, count)?;
        self.lons.take(&mut lons, count)?;
        self.info.take(&mut info, count)?;
        nodes.ids = ids;
        nodes.lats = lats;
        nodes.lons = lons;
        nodes.info = info;
        Ok(())
    }

    /// Appends the fields of the message, with these as those of its DenseInfo, and with the runs of tags if a node has one.
    #[tactic(auto, using(crate::proofs::Parts::one_more, crate::proofs::Parts::last_slot, crate::proofs::DenseOutLemmas::no_runs))]
    fn put_fields(&self, out: &mut Vec<u8>, info: &[u8]) -> Result<(), AllocError>
        ensures { OnOk result (out.new.items
            ≡ out.old.items ++ message (Column ID (deltas self.now.ids)
            ∷ Each DENSEINFO (unless_empty info.now) ∷ Column LAT (deltas self.now.lats)
            ∷ Column LON (deltas self.now.lons)
            ∷ Column KEYS_VALS (if self.now.tagged then self.now.runs else []) ∷ [])) }
    {
        put_column(out, ID, self.ids.bytes())?;
        put_unless_empty(out, DENSEINFO, info)?;
        put_column(out, LAT, self.lats.bytes())?;
        put_column(out, LON, self.lons.bytes())?;
        if self.tagged {
            put_column(out, KEYS_VALS, self.runs.bytes())?;
        }
        Ok(())
    }

    /// The bytes of the message. Its indexes name the same texts in each later state of the table.
    #[tactic(auto, using(crate::proofs::DenseOutLemmas::finished))]
    pub fn finish(self, alloc: Global) -> Result<Vec<u8>, AllocError>
        ensures { (texts used : List (List ℕ)) (ns : List NodeSpec) → HoldsNodes self texts ns
            → IfOk result (λ bytes. bytes.items ≡ dense_message (texts_after texts used) ns) }
    {
        let mut info = Vec::new(alloc);
        self.info.write(&mut info)?;
        let mut bytes = Vec::new(alloc);
        self.put_fields(&mut bytes, &info)?;
        Ok(bytes)
    }

    /// How many bytes the columns hold, or the greatest number if they are more.
    pub fn held(&self) -> u64
        ensures { result ≡ min (dense_length (columns_held self.now)) (2 ^ 64 - 1) }
    {
        self.ids
            .held()
            .saturating_add(self.lats.held())
            .saturating_add(self.lons.held())
            .saturating_add(self.info.held())
            .saturating_add(self.runs.held())
    }
}
