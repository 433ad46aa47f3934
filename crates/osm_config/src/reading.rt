//! The configuration that a text is.

ghost use Rattle.std.specs.Prelude.{◌≡◌, IfOk, map, option_map};
ghost use Rattle.std.specs.String.{string_bytes};
ghost use Rattle.std.specs.Result.{result_map_both};
ghost use Rattle.json.specs.Value.{value_view};
ghost use Rattle.osm_config.specs.Configs.{config_in, config_of_text, extracts_in, if_some_and_distinct};
ghost use Rattle.osm_config.specs.Readings.{Reads, ReadsConfig, ReadsExtracts, config_of, extract_member_of};

use crate::config::{Config, ConfiguredExtract};
use crate::extract::extracts_of;
use crate::fault::{ConfigError, ConfigReason, ConfigStop, config_error};
use crate::member::{list_in, optional_string, required};
use crate::names::{ConfigObject, judge_object};
use crate::outputs::first_repeated;
use json::{Error, Scratch, Value};
use osm_polygon::without_mark;
use std::alloc::{AllocError, Global};

/// The extracts, if there is one, and if no two have the same output.
pub(crate) fn if_some_and_distinct<'v>(
    alloc: Global,
    extracts: Vec<ConfiguredExtract>,
) -> Result<Vec<ConfiguredExtract>, ConfigStop<'v>>
    ensures { ReadsExtracts (if_some_and_distinct (map extract_member_of extracts.items)) result }
{
    if extracts.is_empty() {
        return Err(ConfigStop::Refused(0, "extracts", ConfigReason::Empty));
    }
    match first_repeated(alloc, extracts.as_slice())? {
        Some(number) => Err(ConfigStop::Refused(number, "output", ConfigReason::SameOutput)),
        None => Ok(extracts),
    }
}

/// The extracts.
fn extracts_in<'v, 'a>(
    alloc: Global,
    value: &'v Value<'a>,
) -> Result<Vec<ConfiguredExtract>, ConfigStop<'v>>
    ensures { ReadsExtracts (extracts_in (value_view value.now)) result }
{
    let list = required(0, "extracts", value)?;
    let items = list_in(0, "extracts", list)?;
    let extracts = extracts_of(alloc, items)?;
    if_some_and_distinct(alloc, extracts)
}

/// A copy of a string, if there is one.
fn copy_of(alloc: Global, string: Option<&str>) -> Result<Option<String>, AllocError>
    ensures { IfOk result (λ copy. option_map string_bytes copy
        ≡ option_map (λ s. s.now) string.entry) }
{
    match string {
        Some(string) => Ok(Some(String::from_str(alloc, string)?)),
        None => Ok(None),
    }
}

/// The configuration that a JSON value is.
fn config_in<'v, 'a>(alloc: Global, value: &'v Value<'a>) -> Result<Config, ConfigStop<'v>>
    ensures { Reads (config_in (value_view value.now))
        (result_map_both config_of (λ e. e) result) }
{
    judge_object(alloc, 0, "", ConfigObject::Whole, value)?;
    let directory = optional_string(0, "directory", value)?;
    let extracts = extracts_in(alloc, value)?;
    let directory = copy_of(alloc, directory)?;
    Ok(Config {
        directory,
        extracts,
    })
}

/// The configuration that this text is. A byte order mark before it doesn't matter.
///
/// # Errors
///
/// `Refused` with the first fault of the text, or `Memory` if memory is refused.
#[tactic(auto, unfolding(crate::specs::Configs::config_of_text))]
pub fn read_config(alloc: Global, text: &str) -> Result<Config, ConfigError>
    ensures { ReadsConfig (config_of_text text.now)
        (result_map_both config_of (λ e. e) result) }
{
    let mut scratch = Scratch::new(alloc);
    match Value::parse(alloc, without_mark(text), &mut scratch) {
        Ok(value) => match config_in(alloc, &value) {
            Ok(config) => Ok(config),
            Err(stop) => Err(config_error(alloc, &stop)),
        },
        Err(Error::OutOfMemory) => Err(ConfigError::Memory),
        Err(_) => {
            let stop = ConfigStop::Refused(0, "", ConfigReason::Json);
            Err(config_error(alloc, &stop))
        }
    }
}
