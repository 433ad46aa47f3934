//! Which members an object may have: those of its kind, each at most once.

ghost use Rattle.std.specs.Prelude.{◌≡◌, map};
ghost use Rattle.std.specs.List.{list_any};
ghost use Rattle.std.specs.Str.{bytes_eq};
ghost use Rattle.std.specs.Result.{result_map_both};
ghost use Rattle.json.specs.Value.{members_view, value_view};
ghost use Rattle.osm_config.specs.Members.{judge_names, judge_object, is_known, with_name};
ghost use Rattle.osm_config.specs.Readings.{Reads};

use crate::fault::{ConfigReason, ConfigStop};
use json::Value;
use std::alloc::Global;

/// Which object of a configuration it is.
#[derive(Clone, Copy, Debug, PartialEq, Eq)]
pub(crate) enum ConfigObject {
    Whole,
    Extract,
    Edges,
    File,
}

fn is_name_of_whole(name: &str) -> bool
    ensures { result ≡ is_known ConfigObject.Whole name.now }
{
    name == "directory" || name == "extracts"
}

fn is_name_of_extract(name: &str) -> bool
    ensures { result ≡ is_known ConfigObject.Extract name.now }
{
    name == "output"
        || name == "output_format"
        || name == "description"
        || name == "bbox"
        || name == "polygon"
        || name == "multipolygon"
}

fn is_name_of_edge(name: &str) -> bool
    ensures { result ≡ is_known ConfigObject.Edges name.now }
{
    name == "left" || name == "bottom" || name == "right" || name == "top"
}

fn is_name_of_file(name: &str) -> bool
    ensures { result ≡ is_known ConfigObject.File name.now }
{
    name == "file_name" || name == "file_type"
}

/// Whether such an object may have a member of this name.
fn is_known(object: ConfigObject, name: &str) -> bool
    ensures { result ≡ is_known object name.now }
{
    match object {
        ConfigObject::Whole => is_name_of_whole(name),
        ConfigObject::Extract => is_name_of_extract(name),
        ConfigObject::Edges => is_name_of_edge(name),
        ConfigObject::File => is_name_of_file(name),
    }
}

/// Whether one of these names is this one.
fn is_among(names: &[&str], name: &str) -> bool
    ensures { result ≡ list_any (λ n. bytes_eq n name.now) (map (λ n. n.now) names.now) }
{
    names.contains(&name)
}

/// The names so far, and one more, which has to be known and new. So there are few.
fn with_name<'v>(
    extract: usize,
    object: ConfigObject,
    mut seen: Vec<&'v str>,
    name: &'v str,
) -> Result<Vec<&'v str>, ConfigStop<'v>>
    ensures { Reads (with_name extract object (map (λ n. n.now) seen.entry.items) name.now)
        (result_map_both (λ seen. map (λ n. n.now) seen.items) (λ e. e) result) }
{
    if !is_known(object, name) {
        return Err(ConfigStop::Refused(extract, name, ConfigReason::Unknown));
    }
    if is_among(seen.as_slice(), name) {
        return Err(ConfigStop::Refused(extract, name, ConfigReason::Repeated));
    }
    seen.push(name)?;
    Ok(seen)
}

/// Judges the names of an object's members.
fn judge_names<'v, 'a>(
    alloc: Global,
    extract: usize,
    object: ConfigObject,
    members: &'v Vec<(&'a str, Value<'a>)>,
) -> Result<(), ConfigStop<'v>>
    ensures { Reads (judge_names extract object (members_view members.now.items)) result }
{
    let mut seen = Vec::new(alloc);
    for member in members {
        seen = with_name(extract, object, seen, member.0)?;
    }
    Ok(())
}

/// Judges that the value of this member is an object, and the names of its members.
pub(crate) fn judge_object<'v, 'a>(
    alloc: Global,
    extract: usize,
    name: &'v str,
    object: ConfigObject,
    value: &'v Value<'a>,
) -> Result<(), ConfigStop<'v>>
    ensures { Reads (judge_object extract name.now object (value_view value.now)) result }
{
    match value {
        Value::Object(members) => judge_names(alloc, extract, object, members),
        _ => Err(ConfigStop::Refused(extract, name, ConfigReason::Shape)),
    }
}
