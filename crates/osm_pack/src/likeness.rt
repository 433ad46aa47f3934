//! What all entities of a block have in common.

ghost use Rattle.std.specs.Prelude.{◌≡◌, ◌&&◌};
ghost use Rattle.std.specs.Ordering.{int_eq};
ghost use Rattle.osm_entity.specs.Views.{meta_of};
ghost use Rattle.pbf_block.specs.WrittenBlock.{iff, same_scale};
ghost use Rattle.osm_pack.specs.Likenesses.{present_fields, no_fields, likeness_of, same_kind, same_present, same_likeness};
ghost use Rattle.osm_pack.specs.View.{entity_shown};

use crate::frames::EntityView;
use osm_entity::{MemberKind, MetaRef, Scale};

/// Whether both are so, or neither is.
fn iff(one: bool, other: bool) -> bool
    ensures { result ≡ iff one other }
{
    if one { other } else { !other }
}

/// Which fields of metadata are present.
#[derive(Clone, Copy)]
pub(crate) struct PresentFields {
    version: bool,
    timestamp: bool,
    changeset: bool,
    uid: bool,
    user: bool,
    visible: bool,
}

impl PresentFields {
    /// None of them, as for ways and relations, where it does not matter.
    fn none() -> PresentFields
        ensures { result ≡ no_fields }
    {
        PresentFields {
            version: false,
            timestamp: false,
            changeset: false,
            uid: false,
            user: false,
            visible: false,
        }
    }

    /// Those of a node.
    fn of(meta: &MetaRef<'_>) -> PresentFields
        ensures { result ≡ present_fields (meta_of meta.now) }
    {
        PresentFields {
            version: meta.version.is_some(),
            timestamp: meta.timestamp.is_some(),
            changeset: meta.changeset.is_some(),
            uid: meta.uid.is_some(),
            user: meta.user.is_some(),
            visible: meta.visible.is_some(),
        }
    }

    /// Whether the same ones are present.
    fn same(self, other: PresentFields) -> bool
        ensures { result ≡ same_present self other }
    {
        iff(self.version, other.version)
            && iff(self.timestamp, other.timestamp)
            && iff(self.changeset, other.changeset)
            && iff(self.uid, other.uid)
            && iff(self.user, other.user)
            && iff(self.visible, other.visible)
    }
}

/// Whether stored coordinates count from the same place.
fn has_same_offsets(scale: Scale, other: Scale) -> bool
    ensures { result ≡ int_eq scale.lat_offset other.lat_offset && int_eq scale.lon_offset other.lon_offset }
{
    scale.lat_offset == other.lat_offset && scale.lon_offset == other.lon_offset
}

/// Whether stored numbers mean the same.
fn is_same_scale(scale: Scale, other: Scale) -> bool
    ensures { result ≡ same_scale scale other }
{
    scale.granularity == other.granularity
        && scale.date_granularity == other.date_granularity
        && has_same_offsets(scale, other)
}

/// Whether entities are of one kind.
fn is_same_kind(kind: MemberKind, other: MemberKind) -> bool
    ensures { result ≡ same_kind kind other }
{
    kind == other
}

/// The kind and the scale of an entity, and of a node the fields of metadata that are present.
#[derive(Clone, Copy)]
pub(crate) struct Likeness {
    kind: MemberKind,
    pub(crate) scale: Scale,
    fields: PresentFields,
}

impl Likeness {
    /// That of an entity.
    pub(crate) fn of(entity: EntityView<'_, '_>) -> Likeness
        ensures { result ≡ likeness_of (entity_shown entity.entry) }
    {
        let (kind, scale, fields) = match entity {
            EntityView::Node(view) => {
                (
                    MemberKind::Node,
                    view.scale(),
                    PresentFields::of(&view.meta),
                )
            }
            EntityView::Way(view) => (MemberKind::Way, view.scale(), PresentFields::none()),
            EntityView::Relation(view) => {
                (MemberKind::Relation, view.scale(), PresentFields::none())
            }
        };
        Likeness {
            kind,
            scale,
            fields,
        }
    }

    /// Whether entities of the one and of the other may be in one block.
    pub(crate) fn same(self, other: Likeness) -> bool
        ensures { result ≡ same_likeness self other }
    {
        is_same_kind(self.kind, other.kind)
            && is_same_scale(self.scale, other.scale)
            && self.fields.same(other.fields)
    }
}
