//! An extract of a configuration: an object with an output file and an area.

ghost use Rattle.std.specs.Prelude.{◌≡◌, [], map, option_map};
ghost use Rattle.std.specs.Result.{result_map_both};
ghost use Rattle.json.specs.Value.{items_view, value_view};
ghost use Rattle.osm_config.specs.Configs.{extract_in, extracts_after, is_pbf, judge_strings, with_extract};
ghost use Rattle.osm_config.specs.Readings.{Reads, ReadsExtracts, extract_member_of};

use crate::area::area_in;
use crate::config::ConfiguredExtract;
use crate::fault::{ConfigReason, ConfigStop};
use crate::member::{file_name_in, optional_string};
use crate::names::{ConfigObject, judge_object};
use json::Value;
use std::alloc::Global;

/// Whether a file of this format can be written. Without a format it is `pbf`.
fn is_pbf(format: Option<&str>) -> bool
    ensures { result ≡ is_pbf (option_map (λ s. s.now) format.entry) }
{
    match format {
        Some(format) => format == "pbf",
        None => true,
    }
}

/// Judges the members that are strings and say nothing new.
fn judge_strings<'v, 'a>(extract: usize, value: &'v Value<'a>) -> Result<(), ConfigStop<'v>>
    ensures { Reads (judge_strings extract (value_view value.now)) result }
{
    optional_string(extract, "description", value)?;
    let format = optional_string(extract, "output_format", value)?;
    if !is_pbf(format) {
        return Err(ConfigStop::Refused(extract, "output_format", ConfigReason::Format));
    }
    Ok(())
}

/// The extract of this number.
fn extract_in<'v, 'a>(
    alloc: Global,
    extract: usize,
    value: &'v Value<'a>,
) -> Result<ConfiguredExtract, ConfigStop<'v>>
    ensures { Reads (extract_in extract (value_view value.now))
        (result_map_both extract_member_of (λ e. e) result) }
{
    judge_object(alloc, extract, "", ConfigObject::Extract, value)?;
    let output = file_name_in(extract, "output", value)?;
    judge_strings(extract, value)?;
    let area = area_in(alloc, extract, value)?;
    let output = String::from_str(alloc, output)?;
    Ok(ConfiguredExtract { output, area })
}

/// The extracts so far, and one more.
fn with_extract<'v, 'a>(
    alloc: Global,
    mut extracts: Vec<ConfiguredExtract>,
    value: &'v Value<'a>,
) -> Result<Vec<ConfiguredExtract>, ConfigStop<'v>>
    ensures { ReadsExtracts
        (with_extract (map extract_member_of extracts.items) (value_view value.now)) result }
{
    let extract = extract_in(alloc, extracts.len() + 1, value)?;
    extracts.push(extract)?;
    Ok(extracts)
}

/// The extracts of a list.
pub(crate) fn extracts_of<'v, 'a>(
    alloc: Global,
    items: &'v Vec<Value<'a>>,
) -> Result<Vec<ConfiguredExtract>, ConfigStop<'v>>
    ensures { ReadsExtracts (extracts_after [] (items_view items.now.items)) result }
{
    let mut extracts = Vec::new(alloc);
    for item in items {
        extracts = with_extract(alloc, extracts, item)?;
    }
    Ok(extracts)
}
