//! The extracts of a configuration, with the paths of their files.

ghost use Rattle.std.specs.Prelude.{◌≡◌, IfOk, map, option_map, string_bytes};
ghost use Rattle.std.specs.Result.{result_map_both};
ghost use Rattle.osm_config.specs.Configs.{if_some_and_distinct};
ghost use Rattle.osm_config.specs.Paths.{extracts_of_text, folder_of_outputs, with_path, with_paths};
ghost use Rattle.osm_config.specs.Readings.{ReadsConfig, area_member_of, extract_member_of};

use crate::config::{Config, ConfiguredArea, ConfiguredExtract};
use crate::fault::{ConfigError, config_error};
use crate::reading::{if_some_and_distinct, read_config};
use std::alloc::{AllocError, Global};
use std::path::Path;

/// The folder in which a relative output begins: the first that is named, and the empty one, which is where the program runs, if none is.
fn folder_of_outputs<'a>(given: Option<&'a str>, named: &'a Option<String>) -> &'a str
    ensures { result.now ≡ folder_of_outputs (option_map (λ s. s.now) given.entry)
        (option_map string_bytes named.now) }
{
    match (given, named) {
        (Some(folder), _) => folder,
        (None, Some(folder)) => folder.as_str(),
        (None, None) => "",
    }
}

/// An area, with the path of its file, which is beside the configuration's.
fn with_path(
    alloc: Global,
    config: &str,
    area: ConfiguredArea,
) -> Result<ConfiguredArea, AllocError>
    ensures { IfOk result (λ placed. area_member_of placed
        ≡ with_path config.now (area_member_of area)) }
{
    match area {
        ConfiguredArea::InFile(name) => {
            let path = Path::new(config).with_file_name(alloc, name.as_str())?;
            Ok(ConfiguredArea::InFile(path.into_string()))
        }
        area => Ok(area),
    }
}

/// An extract, with the paths of its files.
fn with_paths(
    alloc: Global,
    config: &str,
    folder: &str,
    extract: ConfiguredExtract,
) -> Result<ConfiguredExtract, AllocError>
    ensures { IfOk result (λ placed. extract_member_of placed
        ≡ with_paths config.now folder.now (extract_member_of extract)) }
{
    let ConfiguredExtract { output, area } = extract;
    let area = with_path(alloc, config, area)?;
    let output = Path::new(folder).join(alloc, output.as_str())?;
    Ok(ConfiguredExtract {
        output: output.into_string(),
        area,
    })
}

/// Each of the extracts, with the paths of its files.
fn all_with_paths(
    alloc: Global,
    config: &str,
    folder: &str,
    extracts: Vec<ConfiguredExtract>,
) -> Result<Vec<ConfiguredExtract>, AllocError>
    ensures { IfOk result (λ placed. map extract_member_of placed.items
        ≡ map (with_paths config.now folder.now) (map extract_member_of extracts.items)) }
{
    let mut placed = Vec::new(alloc);
    for extract in extracts {
        placed.push(with_paths(alloc, config, folder, extract)?)?;
    }
    Ok(placed)
}

/// The extracts, if no two have the same output.
fn distinct(
    alloc: Global,
    extracts: Vec<ConfiguredExtract>,
) -> Result<Vec<ConfiguredExtract>, ConfigError>
    ensures { ReadsConfig (if_some_and_distinct (map extract_member_of extracts.items))
        (result_map_both (λ extracts. map extract_member_of extracts.items) (λ e. e) result) }
{
    match if_some_and_distinct(alloc, extracts) {
        Ok(extracts) => Ok(extracts),
        Err(stop) => Err(config_error(alloc, &stop)),
    }
}

/// The extracts of the configuration that this text is, with the paths of their files. `config` is the path of the configuration's own file: a relative
/// name of a file of polygons is looked for in the folder of that. A relative output begins in `folder`, in the folder that the configuration names if
/// `folder` is `None`, and where the program runs if neither is there.
///
/// # Errors
///
/// `Refused` with the first fault of the text, or with `SameOutput` if two extracts have the same output once their folder is known, and `Memory`
/// if memory is refused.
#[tactic(auto, unfolding(crate::specs::Paths::extracts_of_text))]
pub fn read_extracts(
    alloc: Global,
    text: &str,
    config: &str,
    folder: Option<&str>,
) -> Result<Vec<ConfiguredExtract>, ConfigError>
    ensures { ReadsConfig
        (extracts_of_text config.now (option_map (λ s. s.now) folder.entry) text.now)
        (result_map_both (λ extracts. map extract_member_of extracts.items) (λ e. e) result) }
{
    let Config {
        directory,
        extracts,
    } = read_config(alloc, text)?;
    let folder = folder_of_outputs(folder, &directory);
    let extracts = all_with_paths(alloc, config, folder, extracts)?;
    distinct(alloc, extracts)
}
