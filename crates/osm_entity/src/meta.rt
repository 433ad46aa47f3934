//! Who changed an entity, and when.

ghost use Rattle.std.specs.Prelude.{◌≡◌, ◌↔◌, IsTrue, IfOk};
ghost use Rattle.std.specs.Option.{option_map};
ghost use Rattle.osm_entity.specs.Scale.{millis};
ghost use Rattle.osm_entity.specs.Weight.{text_weight};
ghost use Rattle.osm_entity.specs.Ranges.{IsStored, IsUid, IfPresent, MetaFits};
ghost use Rattle.osm_entity.specs.Views.{meta_of, owned_meta};

use crate::scale::Scale;
use crate::weight::{UID_LIMIT, id_fits};
use std::alloc::{AllocError, Global};

/// The metadata of an owned entity. A field that the entity doesn't have is `None`.
#[derive(Debug, Drop)]
pub struct Meta {
    pub version: Option<i32>,
    /// In units of the date granularity, from 1970 on.
    pub timestamp: Option<i64>,
    pub changeset: Option<i64>,
    pub uid: Option<i32>,
    pub user: Option<Vec<u8>>,
    pub visible: Option<bool>,
}

/// The metadata of an entity, wherever it lies. The fields are those of [`Meta`].
#[derive(Clone, Copy, Debug)]
pub struct MetaRef<'a> {
    pub version: Option<i32>,
    pub timestamp: Option<i64>,
    pub changeset: Option<i64>,
    pub uid: Option<i32>,
    pub user: Option<&'a [u8]>,
    pub visible: Option<bool>,
}

impl Meta {
    /// The same metadata, lent.
    pub fn view(&self) -> MetaRef<'_>
        ensures { meta_of result ≡ owned_meta self.now }
    {
        MetaRef {
            version: self.version,
            timestamp: self.timestamp,
            changeset: self.changeset,
            uid: self.uid,
            user: self.user.as_ref().map(|user| user.as_slice()),
            visible: self.visible,
        }
    }
}

impl<'a> MetaRef<'a> {
    /// The time in milliseconds, from 1970 on.
    pub fn millis(&self, scale: Scale) -> Option<i128>
        ensures { result ≡ option_map (millis scale) (meta_of self.now).timestamp }
    {
        self.timestamp.map(|timestamp| scale.millis(timestamp))
    }

    /// The length of the user's text.
    pub(crate) fn user_weight(&self) -> u64
        ensures { result ≡ text_weight (meta_of self.now).user }
    {
        match self.user {
            Some(user) => user.len() as u64,
            None => 0,
        }
    }

    /// Whether the numbers that are present are in their ranges.
    pub(crate) fn fits(&self) -> bool
        ensures { IsTrue result ↔ MetaFits (meta_of self.now) }
    {
        stored_fits(self.timestamp) && stored_fits(self.changeset) && uid_fits(self.uid)
    }

    /// The same metadata with a user of its own.
    pub fn to_owned(&self, alloc: Global) -> Result<Meta, AllocError>
        ensures { IfOk result (λ owned. owned_meta owned ≡ meta_of self.now) }
    {
        let MetaRef {
            version,
            timestamp,
            changeset,
            uid,
            user: lent,
            visible,
        } = *self;
        let user = match lent {
            Some(user) => Some(Vec::from_slice(alloc, user)?),
            None => None,
        };
        Ok(Meta {
            version,
            timestamp,
            changeset,
            uid,
            user,
            visible,
        })
    }
}

/// Whether a time or a changeset is absent or in its range.
fn stored_fits(number: Option<i64>) -> bool
    ensures { IsTrue result ↔ IfPresent IsStored number }
{
    match number {
        Some(number) => id_fits(number),
        None => true,
    }
}

/// Whether a uid is absent or in its range.
fn uid_fits(uid: Option<i32>) -> bool
    ensures { IsTrue result ↔ IfPresent IsUid uid }
{
    match uid {
        Some(uid) => -UID_LIMIT < i64::from(uid) && i64::from(uid) < UID_LIMIT,
        None => true,
    }
}
