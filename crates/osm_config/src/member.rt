//! The members of an object, by name.

ghost use Rattle.std.specs.Prelude.{◌≡◌, option_map};
ghost use Rattle.std.specs.Result.{result_map_both};
ghost use Rattle.json.specs.Value.{items_view, value_view};
ghost use Rattle.osm_config.specs.Members.{file_name_in, is_file_name, list_in, optional_string, required, string_in};
ghost use Rattle.osm_config.specs.Readings.{Reads, ReadsString};

use crate::fault::{ConfigReason, ConfigStop};
use json::Value;

/// The member of this name.
pub(crate) fn required<'v, 'a>(
    extract: usize,
    name: &'v str,
    value: &'v Value<'a>,
) -> Result<&'v Value<'a>, ConfigStop<'v>>
    ensures { Reads (required extract name.now (value_view value.now))
        (result_map_both (λ v. value_view v.now) (λ e. e) result) }
{
    match value.get(name) {
        Some(value) => Ok(value),
        None => Err(ConfigStop::Refused(extract, name, ConfigReason::Missing)),
    }
}

/// The string that the member of this name has as its value.
pub(crate) fn string_in<'v, 'a>(
    extract: usize,
    name: &'v str,
    value: &'v Value<'a>,
) -> Result<&'v str, ConfigStop<'v>>
    ensures { ReadsString (string_in extract name.now (value_view value.now)) result }
{
    match value.as_str() {
        Some(string) => Ok(string),
        None => Err(ConfigStop::Refused(extract, name, ConfigReason::Shape)),
    }
}

/// The list that the member of this name has as its value.
pub(crate) fn list_in<'v, 'a>(
    extract: usize,
    name: &'v str,
    value: &'v Value<'a>,
) -> Result<&'v Vec<Value<'a>>, ConfigStop<'v>>
    ensures { Reads (list_in extract name.now (value_view value.now))
        (result_map_both (λ items. items_view items.now.items) (λ e. e) result) }
{
    match value {
        Value::Array(items) => Ok(items),
        _ => Err(ConfigStop::Refused(extract, name, ConfigReason::Shape)),
    }
}

/// The string in the member of this name, if there is one.
pub(crate) fn optional_string<'v, 'a>(
    extract: usize,
    name: &'v str,
    value: &'v Value<'a>,
) -> Result<Option<&'v str>, ConfigStop<'v>>
    ensures { Reads (optional_string extract name.now (value_view value.now))
        (result_map_both (λ s. option_map (λ s. s.now) s) (λ e. e) result) }
{
    let Some(value) = value.get(name) else {
        return Ok(None);
    };
    let string = string_in(extract, name, value)?;
    Ok(Some(string))
}

/// Whether a file can have this name.
fn is_file_name(name: &str) -> bool
    ensures { result ≡ is_file_name name.now }
{
    !(name.is_empty() || name == "-")
}

/// The file name in the member of this name.
pub(crate) fn file_name_in<'v, 'a>(
    extract: usize,
    name: &'v str,
    value: &'v Value<'a>,
) -> Result<&'v str, ConfigStop<'v>>
    ensures { ReadsString (file_name_in extract name.now (value_view value.now)) result }
{
    let value = required(extract, name, value)?;
    let file = string_in(extract, name, value)?;
    if !is_file_name(file) {
        return Err(ConfigStop::Refused(extract, name, ConfigReason::FileName));
    }
    Ok(file)
}
