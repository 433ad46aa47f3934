//! A caller of `osm_text`.

ghost use Rattle.std.specs.Prelude.{◌≡◌, true, IfOk};
ghost use Rattle.osm_entity.specs.Views.{entity_of};
ghost use Rattle.osm_text.specs.EntityText.{entity_line};

use osm_entity::EntityRef;
use osm_text::put_entity;
use std::alloc::{AllocError, Global};

/// The line of an entity, with dates.
pub fn dated_line(alloc: Global, entity: &EntityRef<'_>) -> Result<Vec<u8>, AllocError>
    ensures { IfOk result (λ line. line.items ≡ entity_line true (entity_of entity.now)) }
{
    let mut line = Vec::new(alloc);
    put_entity(&mut line, entity, true)?;
    Ok(line)
}
