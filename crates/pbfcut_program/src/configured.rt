//! What a configuration has cut out: each area, with the path of its OUT.

ghost use Rattle.std.specs.Prelude.{◌≡◌, ◌∷◌, [], ℕ, List, IfErr, IfOk, Ok, map, option_map};
ghost use Rattle.osm_config.specs.Paths.{extracts_of_text};
ghost use Rattle.osm_config.specs.Readings as config;
ghost use Rattle.pbfcut_program.specs.Configured.{FailsConfig, FailsText, MeansConfig, MeansConfigured, MeansEach};
ghost use Rattle.pbfcut_program.specs.ConfiguredCuts.{output_area_of};
ghost use Rattle.pbfcut_program.specs.Events.{Event, Logs, text_read, then_all};
ghost use Rattle.pbfcut_program.specs.Fails.{FailsOpening, StopsOpening};
ghost use Rattle.pbfcut_program.specs.Jobs.{area_of};

use crate::host::{Host, TextFault};
use crate::jobs::{Cut, read_area};
use osm_config::{ConfiguredArea, ConfiguredExtract, read_extracts};
use osm_polygon::MultiPolygon;
use pbf_frame::Stop;
use pbfcut_cli::Ending;
use std::alloc::Global;

/// An OUT, and the area that is cut out into it.
#[derive(Drop)]
pub(crate) struct OutputCut {
    pub(crate) output: String,
    pub(crate) cut: Cut,
}

/// The extracts of the configuration in a file. `folder` is where relative outputs are, instead of the folder that the configuration names.
fn read_config_file<H: Host>(
    alloc: Global,
    host: &mut H,
    path: &str,
    folder: Option<&str>,
) -> Result<Vec<ConfiguredExtract>, Ending>
    ensures ok { IfOk result (λ extracts. (text : List ℕ)
        × (H.log host.new ≡ then_all (H.log host.old) (text_read path.now text ∷ []))
        × (extracts_of_text path.now (option_map (λ s. s.now) folder.entry) text
        ≡ Ok (map config.extract_member_of extracts.items))) }
    ensures err { IfErr result (λ how. (events : List Event)
        × (H.log host.new ≡ then_all (H.log host.old) events) × FailsOpening how events
        × FailsText path.now (option_map (λ s. s.now) folder.entry) how events) }
{
    let text = match host.read_text(path) {
        Ok(text) => text,
        Err(TextFault::Memory) => return Err(Ending::Stopped(Stop::Memory)),
        Err(TextFault::Failed) => return Err(Ending::CannotOpen),
    };
    let extracts = read_extracts(alloc, text.as_str(), path, folder)?;
    Ok(extracts)
}

/// Reads the area of an extract, if it is in a file.
#[tactic(auto, using(crate::proofs::Logging::then_none))]
fn read_configured_area<H: Host>(
    alloc: Global,
    host: &mut H,
    area: &ConfiguredArea,
) -> Result<Cut, Ending>
    ensures ok { IfOk result (λ cut. Logs (H.log host.old) (H.log host.new) (λ events.
        MeansConfigured (config.area_member_of area.now) events (area_of cut))) }
    ensures err { IfErr result (StopsOpening (H.log host.old) (H.log host.new)) }
{
    match area {
        ConfiguredArea::InBox(bounds) => Ok(Cut::Box(*bounds)),
        ConfiguredArea::InPolygons(polygons) => {
            let area = MultiPolygon::new(alloc, polygons.as_slice())?;
            Ok(Cut::Polygon(area))
        }
        ConfiguredArea::InFile(path) => {
            let area = read_area(alloc, host, path.as_str())?;
            Ok(Cut::Polygon(area))
        }
    }
}

/// Reads an extract: its area, and a copy of the path of its OUT.
fn read_extract<H: Host>(
    alloc: Global,
    host: &mut H,
    extract: &ConfiguredExtract,
) -> Result<OutputCut, Ending>
    ensures ok { IfOk result (λ out. Logs (H.log host.old) (H.log host.new) (λ events.
        MeansEach (config.extract_member_of extract.now ∷ []) events (output_area_of out ∷ []))) }
    ensures err { IfErr result (StopsOpening (H.log host.old) (H.log host.new)) }
{
    let cut = read_configured_area(alloc, host, &extract.area)?;
    let output = String::from_str(alloc, extract.output.as_str())?;
    Ok(OutputCut { output, cut })
}

/// Reads each of these extracts, in order.
fn read_each<H: Host>(
    alloc: Global,
    host: &mut H,
    extracts: &[ConfiguredExtract],
) -> Result<Vec<OutputCut>, Ending>
    ensures ok { IfOk result (λ outs. Logs (H.log host.old) (H.log host.new) (λ events.
        MeansEach (map config.extract_member_of extracts.now) events
        (map output_area_of outs.items))) }
    ensures err { IfErr result (StopsOpening (H.log host.old) (H.log host.new)) }
{
    let mut outs = Vec::new(alloc);
    let mut rest = extracts;
    'extracts: while let Some((first, more)) = rest.split_first() {
        let out = read_extract(alloc, host, first)?;
        if outs.push(out).is_err() {
            return Err(Ending::Stopped(Stop::Memory));
        }
        rest = more;
    }
    Ok(outs)
}

/// Reads what the configuration at a path has cut out, with the path of each OUT. `folder` is where relative outputs are, instead of the folder
/// that the configuration names.
pub(crate) fn read_configured<H: Host>(
    alloc: Global,
    host: &mut H,
    path: &str,
    folder: Option<&str>,
) -> Result<Vec<OutputCut>, Ending>
    ensures ok { IfOk result (λ outs. Logs (H.log host.old) (H.log host.new) (λ events.
        MeansConfig path.now (option_map (λ s. s.now) folder.entry) events
        (map output_area_of outs.items))) }
    ensures err { IfErr result (λ how. (events : List Event)
        × (H.log host.new ≡ then_all (H.log host.old) events) × FailsOpening how events
        × FailsConfig path.now (option_map (λ s. s.now) folder.entry) how events) }
{
    let extracts = read_config_file(alloc, host, path, folder)?;
    read_each(alloc, host, extracts.as_slice())
}
