//! A caller of `osm_ids`.

use osm_ids::{IdSet, SealedIds};
use std::alloc::{AllocError, Global};

/// The ids, sealed, so that they can be looked up.
pub fn sealed(alloc: Global, ids: &[i64]) -> Result<SealedIds, AllocError> {
    let mut set = IdSet::new(alloc);
    for id in ids {
        set.add(*id)?; // Ok(true) if the id is new
    }
    match set.seal() {
        Ok(sealed) => Ok(sealed), // sealed.has(5), sealed.count()
        Err((_set, refused)) => Err(refused), // the set came back, and could go on
    }
}
