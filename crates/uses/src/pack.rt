//! Callers of `osm_pack`.

ghost use Rattle.std.specs.Prelude.{◌≡◌, ◌+◌, ◌≤◌, true};
ghost use Rattle.osm_entity.specs.Ranges.{EntityFits};
ghost use Rattle.osm_entity.specs.Views.{entity_of};
ghost use Rattle.osm_entity.specs.Weight.{text_weight};
ghost use Rattle.osm_pack.specs.Packing.{has_header};
ghost use Rattle.pbf_header.specs.Header.{header_of};
ghost use Rattle.pbf_header.specs.declared.write.TheConstants.{MOST_HEADER_TEXT};

use osm_entity::EntityRef;
use osm_pack::Packer;
use pbf_frame::{Drain, Stop};
use pbf_header::Header;
use std::alloc::Global;
use std::hash::BuildHasher;

/// Writes a file without entities.
pub fn write_header<D: Drain, S: BuildHasher + Drop>(
    alloc: Global,
    drain: &mut D,
    hasher: S,
    header: &Header,
) -> Result<(), Stop>
    requires kept { text_weight (header_of header.now).source
        + text_weight (header_of header.now).url ≤ MOST_HEADER_TEXT }
{
    let mut packer = Packer::new(alloc, &mut *drain, hasher);
    let outcome = packer.put_header(header);
    let _drain = packer.into_drain();
    outcome
}

/// Writes an entity, after those that wait, to a file that has its header.
pub fn write_last<D: Drain, S: BuildHasher>(
    packer: &mut Packer<D, S>,
    entity: &EntityRef<'_>,
) -> Result<(), Stop>
    requires begun { has_header packer.old ≡ true }
    requires fits { EntityFits (entity_of entity.now) }
{
    packer.push(entity)?;
    packer.finish()
}
