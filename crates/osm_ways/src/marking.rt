//! Which of several sets may have one of an entity's ids.

ghost use Rattle.osm_entity.specs.Sources.{refs_left};
ghost use Rattle.osm_ids.specs.Strips.{MarksNamed, NamesAny};

use osm_entity::Refs;
use osm_ids::IdStrips;

/// Marks the sets that may have one of these ids; `false` means that there are none. `true` says nothing, and others may be marked too.
pub fn mark_ids(strips: &IdStrips, ids: Refs<'_>, marks: &mut [bool]) -> bool
    ensures { MarksNamed (NamesAny strips.now (refs_left ids.entry)) marks.old marks.new result }
{
    let mut some = false;
    let mut rest = ids;
    'ids: while let Some(id) = rest.next() {
        some |= strips.mark(id, marks);
        // Ids of the same strip are mostly together: they needn't be looked up.
        rest.pass_inside(strips.alike(id));
    }
    some
}
