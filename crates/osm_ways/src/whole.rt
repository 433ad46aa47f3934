//! Which relations are wanted whole, by their types.

ghost use Rattle.std.specs.Prelude.{◌≡◌, ◌==◌, IfOk, map, nat_eq};
ghost use Rattle.std.specs.List.{list_any, slice_split};
ghost use Rattle.std.specs.Cmp.Lexicographic.{pointwise};
ghost use Rattle.osm_entity.specs.Sources.{tags_left};
ghost use Rattle.osm_ways.specs.Selection.{none_whole};
ghost use Rattle.osm_ways.specs.Whole.{has_type, is_wanted, is_wanted_by, name_of};

use osm_box::number::cut_at_char;
use osm_entity::Tags;
use std::alloc::{AllocError, Global};

/// The types of relations that are wanted whole. The type of a relation is the value of its first tag `type`.
#[derive(Drop)]
pub struct WholeTypes {
    /// Whether all relations are, also those without a type.
    pub any: bool,
    /// The types, byte by byte.
    pub names: Vec<Vec<u8>>,
}

impl WholeTypes {
    /// No type: no relation is wanted whole. It allocates nothing.
    pub fn none(alloc: Global) -> WholeTypes
        ensures { is_wanted result ≡ none_whole }
    {
        WholeTypes {
            any: false,
            names: Vec::new(alloc),
        }
    }

    /// The types that the text names, with commas between them. The word `any` by itself means all relations.
    ///
    /// # Errors
    ///
    /// A request for memory was refused.
    pub fn parse(alloc: Global, text: &str) -> Result<WholeTypes, AllocError>
        ensures { IfOk result (λ types. is_wanted types ≡ is_wanted_by text.now) }
    {
        let names = names_in(alloc, text)?;
        Ok(WholeTypes {
            any: text.as_bytes() == b"any".as_slice(),
            names,
        })
    }

    /// Whether a relation with these tags is wanted whole.
    pub fn want(&self, tags: Tags<'_>) -> bool
        ensures { result ≡ is_wanted self.now (tags_left tags.entry) }
    {
        self.any || has_type(&self.names, tags)
    }
}

/// The words of a text with commas between them.
fn names_in(alloc: Global, text: &str) -> Result<Vec<Vec<u8>>, AllocError>
    ensures { IfOk result (λ names. map name_of names.items ≡ slice_split (λ b. b == 44) text.now) }
{
    let mut names = Vec::new(alloc);
    let mut rest = text;
    'names: while let Some((name, more)) = cut_at_char(rest, ',') {
        names.push(name_from(alloc, name)?)?;
        rest = more;
    }
    names.push(name_from(alloc, rest)?)?;
    Ok(names)
}

/// The bytes of a name.
fn name_from(alloc: Global, text: &str) -> Result<Vec<u8>, AllocError>
    ensures { IfOk result (λ name. name_of name ≡ text.now) }
{
    let mut name = Vec::new(alloc);
    name.extend_from_slice(text.as_bytes())?;
    Ok(name)
}

/// Whether the first tag `type` has one of these values.
fn has_type(names: &[Vec<u8>], tags: Tags<'_>) -> bool
    ensures { result ≡ has_type (map name_of names.now) (tags_left tags.entry) }
{
    if names.is_empty() {
        // Then no tag is read.
        return false;
    }
    for (key, value) in tags {
        if key == b"type".as_slice() {
            return has_name(names, value);
        }
    }
    false
}

/// Whether the name is among the names.
fn has_name(names: &[Vec<u8>], name: &[u8]) -> bool
    ensures { result ≡ list_any (pointwise nat_eq name.now) (map name_of names.now) }
{
    names.iter().any(|known| name == known.as_slice())
}
