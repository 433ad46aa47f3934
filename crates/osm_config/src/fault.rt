//! What is wrong with a configuration.

ghost use Rattle.std.specs.Prelude.{◌≡◌};
ghost use Rattle.osm_config.specs.declared.fault.ConfigError.TheVariants as error;
ghost use Rattle.osm_config.specs.declared.fault.ConfigStop.TheVariants as stop;
ghost use Rattle.osm_config.specs.Readings.{IsStopError};

use osm_box::BoxFault;
use osm_polygon::PolyFault;
use std::alloc::{AllocError, AllocFailed, Global};
use thiserror::Error;

/// What is wrong with a configuration. Each is printed by its name.
#[derive(Clone, Copy, Debug, PartialEq, Eq, Error)]
pub enum ConfigReason {
    /// 1: the text isn't JSON.
    #[error("Json")]
    Json,
    /// 2: the file or an extract isn't an object, or a member isn't what it has to be: a string, a list, four numbers.
    #[error("Shape")]
    Shape,
    /// 3: there is no such member.
    #[error("Unknown")]
    Unknown,
    /// 4: a member comes twice in its object.
    #[error("Repeated")]
    Repeated,
    /// 5: a member is missing.
    #[error("Missing")]
    Missing,
    /// 6: `extracts` has no extract.
    #[error("Empty")]
    Empty,
    /// 7: a file name is empty or `-`.
    #[error("FileName")]
    FileName,
    /// 8: `output_format` isn't `pbf`.
    #[error("Format")]
    Format,
    /// 9: `file_type` is neither `poly` nor `geojson`.
    #[error("FileType")]
    FileType,
    /// 10: an extract hasn't exactly one of `bbox`, `polygon` and `multipolygon`.
    #[error("Area")]
    Area,
    /// 11: this is wrong with the box.
    #[error("BadBox")]
    BadBox(BoxFault),
    /// 12: this is wrong with the polygons.
    #[error("BadPolygon")]
    BadPolygon(PolyFault),
    /// 13: an earlier extract has the same `output`.
    #[error("SameOutput")]
    SameOutput,
}

/// The first fault of a configuration.
#[derive(Debug, Drop)]
pub struct ConfigFault {
    /// The number of the extract, counted from 1, and 0 if the fault is in none.
    pub extract: usize,
    /// The name of the member, which is empty for the extract or the file as a whole.
    pub member: String,
    /// What is wrong there.
    pub reason: ConfigReason,
}

/// Why a configuration can't be read.
#[derive(Debug, Drop)]
pub enum ConfigError {
    /// It has this fault.
    Refused(ConfigFault),
    /// Memory was refused.
    Memory,
}

impl From<AllocError> for ConfigError {
    ghost from_gives = { λ _ e. e ≡ error.Memory };

    fn from(_error: AllocError) -> ConfigError {
        ConfigError::Memory
    }
}

/// The same while the text is read: a fault has the extract's number, the member's name and the reason.
#[derive(Clone, Copy, Debug)]
pub(crate) enum ConfigStop<'v> {
    Refused(usize, &'v str, ConfigReason),
    Memory,
}

impl<'v> From<AllocError> for ConfigStop<'v> {
    ghost from_gives = { λ _ e. e ≡ stop.Memory };

    fn from(_error: AllocError) -> ConfigStop<'v> {
        ConfigStop::Memory
    }
}

impl<'v, T: Drop> From<AllocFailed<T>> for ConfigStop<'v> {
    ghost from_gives = { λ _ e. e ≡ stop.Memory };

    fn from(_error: AllocFailed<T>) -> ConfigStop<'v> {
        ConfigStop::Memory
    }
}

/// The error of a stop, with a copy of the member's name.
pub(crate) fn config_error(alloc: Global, stop: &ConfigStop<'_>) -> ConfigError
    ensures { IsStopError stop.now result }
{
    let ConfigStop::Refused(extract, name, reason) = stop else {
        return ConfigError::Memory;
    };
    match String::from_str(alloc, name) {
        Ok(member) => ConfigError::Refused(ConfigFault {
            extract: *extract,
            member,
            reason: *reason,
        }),
        Err(_) => ConfigError::Memory,
    }
}
