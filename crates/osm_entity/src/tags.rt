//! Tags, wherever they lie.

ghost use Rattle.std.specs.Prelude.{◌≡◌, [], map, IfOk, IsTrue};
ghost use Rattle.osm_entity.specs.Sources.{named, owned_tag, tags_left};

use pbf_strings::Table;
use pbf_wire::{Column, Fields, low_u32};
use std::alloc::{AllocError, Global};

/// A key and its value.
pub type Tag = (Vec<u8>, Vec<u8>);

/// The text that a stored number names, of which the low 32 bits count; empty if the table has none.
pub(crate) fn named<'a>(table: &'a Table<'a>, number: u64) -> &'a [u8]
    ensures { result.now ≡ named table.now number }
{
    table.text(low_u32(number) as usize)
}

/// The tags of a dense node that are still to come: numbers of texts in turn, key and value, up to a 0 in key place.
#[derive(Clone, Copy)]
pub struct RunTags<'a> {
    numbers: Column<'a>,
    table: &'a Table<'a>,
}

impl<'a> RunTags<'a> {
    ghost use Rattle.pbf_wire.specs.Cursors.{numbers_left};
    ghost use Rattle.osm_entity.specs.Sources.{run_tags, run_tags_left};

    /// The tags up to the next 0 in key place. A number that the table has no text for gives the empty text.
    pub fn new(numbers: Column<'a>, table: &'a Table<'a>) -> RunTags<'a>
        ensures { run_tags_left result ≡ run_tags table.now (numbers_left numbers.entry) }
    {
        RunTags { numbers, table }
    }
}

impl<'a> Iterator for RunTags<'a> {
    ghost use Rattle.std.specs.Iterator.{YieldsFirstBy, item_count};
    ghost use Rattle.osm_entity.specs.Sources.{run_tags_left, lent_tag};

    type Item = (&'a [u8], &'a [u8]);

    ghost next_gives = { YieldsFirstBy lent_tag run_tags_left };

    ghost remaining = { item_count run_tags_left };

    #[tactic(auto, using(crate::proofs::TagLemmas::run_steps), unfolding(crate::proofs::TagLemmas::items_past))]
    fn next(&mut self) -> Option<(&'a [u8], &'a [u8])> {
        let key = low_u32(self.numbers.next()?) as usize;
        if key == 0 {
            self.numbers = Column::over(Fields::new(&[], 0), 0);
            return None;
        }
        let value = low_u32(self.numbers.next()?) as usize;
        Some((self.table.text(key), self.table.text(value)))
    }
}

/// The tags of a node, way or relation that are still to come: numbers of texts, the keys apart from the values.
#[derive(Clone, Copy)]
pub struct PairedTags<'a> {
    keys: Column<'a>,
    values: Column<'a>,
    table: &'a Table<'a>,
}

impl<'a> PairedTags<'a> {
    ghost use Rattle.pbf_wire.specs.Cursors.{numbers_left};
    ghost use Rattle.osm_entity.specs.Sources.{paired_tags, paired_tags_left};

    /// As many tags as both columns have numbers for. A number that the table has no text for gives the empty text.
    pub fn new(keys: Column<'a>, values: Column<'a>, table: &'a Table<'a>) -> PairedTags<'a>
        ensures { paired_tags_left result
            ≡ paired_tags table.now (numbers_left keys.entry) (numbers_left values.entry) }
    {
        PairedTags {
            keys,
            values,
            table,
        }
    }
}

impl<'a> Iterator for PairedTags<'a> {
    ghost use Rattle.std.specs.Iterator.{YieldsFirstBy, item_count};
    ghost use Rattle.osm_entity.specs.Sources.{paired_tags_left, lent_tag};

    type Item = (&'a [u8], &'a [u8]);

    ghost next_gives = { YieldsFirstBy lent_tag paired_tags_left };

    ghost remaining = { item_count paired_tags_left };

    #[tactic(auto, using(crate::proofs::TagLemmas::zip_nothing))]
    fn next(&mut self) -> Option<(&'a [u8], &'a [u8])> {
        let key = self.keys.next()?;
        let value = self.values.next()?;
        Some((named(self.table, key), named(self.table, value)))
    }
}

/// The tags of an entity that are still to come, each a key and its value.
#[derive(Clone, Copy)]
pub enum Tags<'a> {
    Owned(&'a [Tag]),
    Run(RunTags<'a>),
    Paired(PairedTags<'a>),
}

impl Tags<'_> {
    /// Whether it is seen at once that there is no tag. No column is read for that, so a `false` says nothing.
    pub fn are_none(&self) -> bool
        ensures { IsTrue result → tags_left self.now ≡ [] }
    {
        match self {
            Tags::Owned(tags) => tags.is_empty(),
            _ => false,
        }
    }
}

impl<'a> Iterator for Tags<'a> {
    ghost use Rattle.std.specs.Iterator.{YieldsFirstBy, item_count};
    ghost use Rattle.osm_entity.specs.Sources.{tags_left, lent_tag};

    type Item = (&'a [u8], &'a [u8]);

    ghost next_gives = { YieldsFirstBy lent_tag tags_left };

    ghost remaining = { item_count tags_left };

    fn next(&mut self) -> Option<(&'a [u8], &'a [u8])> {
        match self {
            Tags::Owned(tags) => {
                let ((key, value), rest) = tags.split_first()?;
                *tags = rest;
                Some((key.as_slice(), value.as_slice()))
            }
            Tags::Run(tags) => tags.next(),
            Tags::Paired(tags) => tags.next(),
        }
    }
}

/// The same tags with texts of their own.
pub(crate) fn owned_tags(alloc: Global, tags: Tags<'_>) -> Result<Vec<Tag>, AllocError>
    ensures { IfOk result (λ owned. map owned_tag owned.items ≡ tags_left tags.entry) }
{
    let mut owned = Vec::new(alloc);
    for (key, value) in tags {
        owned.push((Vec::from_slice(alloc, key)?, Vec::from_slice(alloc, value)?))?;
    }
    Ok(owned)
}
