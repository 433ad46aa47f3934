//! What to do next after a run that failed, in lines that begin with `hint:`. They are for people, so they are written only if standard error is a
//! terminal; IN is read again for them only if it is a plain file. No hint has a file removed that this run did not make.

use crate::asked::{Asked, Existing, error_of, glance_at, what_exists};
use crate::disk::parent_folder;
use crate::facts::{Refused, feature_of, refusal_of, tell_fact};
use crate::failure::{BROKEN_PIPE, FailedWrite, Target};
use crate::formats::{Form, form_of, osmium_target};
use crate::polygon_text::is_no_file;
use osm_box::BoxFault;
use osm_config::ConfigReason;
use osm_polygon::{PolyFault, PolyPlace, PolyReason};
use pbf_frame::Stop;
use pbf_unpack::{InflateFault, UnpackReason};
use pbf_wire::Reason;
use pbfcut_cli::{Ending, Program, Region};
use std::fs;
use std::io::{self, ErrorKind, IsTerminal};

/// The system's number for a device or a disk that is full.
const NO_SPACE: i32 = 28;

fn text(rt: &HostRuntime, hint: &str) -> Option<String> {
    String::from_str(rt.alloc(), hint).ok()
}

/// What to do with a file that requires what pbfcut does not know, by the place of the feature if that is a byte of IN.
fn of_feature(rt: &HostRuntime, asked: Asked<'_, '_>, offset: Option<u64>) -> &'static str {
    let Some(offset) = offset else {
        return "if IN has history, this takes the state of now out of it: osmium time-filter IN -o NOW.osm.pbf";
    };
    let is_history = match glance_at(rt, asked.input, offset) {
        Some(seen) => feature_of(seen.bytes()) == Some("HistoricalInformation"),
        None => false,
    };
    if is_history {
        "this takes the state of now out of the history: osmium time-filter IN -o NOW.osm.pbf"
    } else {
        "ask the author of the file for one without it"
    }
}

/// What to do with a file whose zlib data pbfcutz refuses.
fn of_zlib(detail: Option<UnpackReason>) -> &'static str {
    match detail {
        None | Some(UnpackReason::RawSize | UnpackReason::Inflate(InflateFault::Long)) => {
            "ask the author of the file for a sound one"
        }
        Some(UnpackReason::Inflate(_)) => "fetch the file again",
    }
}

/// What to do with a file whose blobs the program doesn't read, or with damaged ones.
fn of_blobs(asked: Asked<'_, '_>, refused: Refused) -> &'static str {
    match (refused.reason, asked.region) {
        (Reason::Zlib, _) if asked.program == Program::Pbfcutz => of_zlib(refused.detail),
        (Reason::Zlib, Some(Region::Box(_))) => "this cuts it: pbfcutz extract --box=BOX IN NEW",
        (Reason::Zlib, Some(Region::Polygon(_))) => {
            "this cuts it: pbfcutz extract --polygon=FILE IN NEW"
        }
        (Reason::Zlib, None) => "pbfcutz, which has the same commands, reads it",
        (Reason::Lz4, _) => match asked.program {
            Program::Pbfcut => {
                "this makes a raw file of it: osmium cat IN -f pbf,pbf_compression=none -o RAW"
            }
            Program::Pbfcutz => "this compresses it by zlib: osmium cat IN -o MAP.osm.pbf",
        },
        (Reason::Lzma | Reason::Bzip2 | Reason::Zstd, _) => {
            "few programs read these: let the program that wrote it write it again, compressed by zlib or not at all"
        }
        (Reason::Unsorted, _) => match asked.program {
            Program::Pbfcut => {
                "this sorts it: osmium sort IN -f pbf,pbf_compression=none -o SORTED.osm.pbf"
            }
            Program::Pbfcutz => "this sorts it: osmium sort IN -o SORTED.osm.pbf",
        },
        (Reason::EntityLarge, _) => {
            "the file may be sound, but beyond the limits here: 'osmium extract' may cut it"
        }
        (Reason::Changesets, _) => {
            "this leaves them out: osmium cat -t node -t way -t relation IN -o MAP.osm.pbf"
        }
        _ => "fetch the file again; if that doesn't help, ask its author for a sound one",
    }
}

/// What to do with a file that is another form of a map, or no map.
fn of_form(rt: &HostRuntime, asked: Asked<'_, '_>, form: Form) -> Option<String> {
    let target = osmium_target(asked.program);
    if let Some(name) = form.of_osmium() {
        return format!(in rt.alloc();
            "this makes a PBF file of it: osmium cat -F {name} IN {target}"
        ).ok();
    }
    let is_packed_map = asked.input.ends_with(".osm.gz") || asked.input.ends_with(".osm.bz2");
    if is_packed_map {
        return format!(in rt.alloc(); "this makes a PBF file of it: osmium cat IN {target}").ok();
    }
    text(rt, form.advice())
}

/// What to do with a file that is refused.
fn of_refusal(rt: &HostRuntime, asked: Asked<'_, '_>, refused: Refused) -> Option<String> {
    match (refused.reason, refused.offset) {
        (Reason::PrefixCut | Reason::HeaderCut | Reason::BlobCut, _) => text(
            rt,
            "most often a download broke off: fetch the file again",
        ),
        (Reason::NoHeader, Some(0)) if glance_at(rt, asked.input, 0)?.bytes().is_empty() => text(
            rt,
            "whatever made it has failed: make it or fetch it again",
        ),
        (Reason::HeaderLong, Some(0)) => {
            of_form(rt, asked, form_of(glance_at(rt, asked.input, 0)?.bytes()))
        }
        (Reason::Feature, offset) => text(rt, of_feature(rt, asked, offset)),
        _ => text(rt, of_blobs(asked, refused)),
    }
}

/// What to do about a name under which there is no file that can be read.
fn of_missing(asked: Asked<'_, '_>, path: &str, error: &io::Error) -> &'static str {
    if error.kind() == ErrorKind::PermissionDenied {
        "'ls -l' shows who may read it"
    } else if path == "-" && asked.output().is_none() && !asked.is_several {
        "standard input is /dev/stdin"
    } else if path == "-" {
        "IN is read more than once: write standard input to a file first"
    } else if path.starts_with("http://") || path.starts_with("https://") {
        "a file is wanted, not an address: fetch it first, as by curl -LO ADDRESS"
    } else if path.starts_with("~") {
        "the shell left the ~ as it is: write $HOME for it"
    } else if error.kind() == ErrorKind::NotFound {
        "is its name right? A name without / is looked for in the folder that 'pwd' prints"
    } else {
        "is its name right?"
    }
}

/// What to do if no more files can be opened.
fn of_many_files(asked: Asked<'_, '_>) -> &'static str {
    if asked.is_several {
        "each OUT is open until the run ends: allow more open files, as by ulimit -n 4096, or cut fewer areas in a run"
    } else {
        "allow more open files, as by ulimit -n 1024"
    }
}

/// What to do about the file that could not be opened.
fn of_files(rt: &HostRuntime, asked: Asked<'_, '_>, failed: Option<FailedWrite>) -> Option<String> {
    if failed.is_some_and(|failed| failed.is_of_many_files()) {
        return text(rt, of_many_files(asked));
    }
    if let Some(path) = asked.text() {
        if is_no_file(rt, path) {
            let hint = match asked.region {
                Some(_) => "write the polygon to a file first",
                None => "write the text to a file first",
            };
            return text(rt, hint);
        }
        if let Some(error) = error_of(rt, path) {
            return text(rt, of_missing(asked, path, &error));
        }
    }
    if let Some(error) = error_of(rt, asked.input) {
        return text(rt, of_missing(asked, asked.input, &error));
    }
    let output = asked.output()?;
    let folder = parent_folder(output);
    if !output.is_empty() && fs::metadata(rt, folder).is_err() {
        return format!(in rt.alloc(); "make its folder first: mkdir -p {folder}").ok();
    }
    let hint = if asked.is_several {
        "give this extract another output"
    } else {
        "name another OUT"
    };
    text(rt, hint)
}

/// What to do about a file that has the name of one of several OUTs.
fn of_existing_output(existing: Option<Existing>) -> &'static str {
    match existing {
        Some(Existing::Input) => "IN is never changed: give this extract another output",
        Some(Existing::Pipe | Existing::Device) => {
            "each OUT is a new file: give this extract another output"
        }
        _ =>
            "only new files are written: give this extract another output, or let -O replace the files that are there",
    }
}

/// What to do about a file that has OUT's name.
fn of_existing(rt: &HostRuntime, asked: Asked<'_, '_>) -> Option<String> {
    let output = asked.output()?;
    let hint = match (what_exists(rt, asked), asked.program) {
        (Some(Existing::Folder), _) => {
            return format!(in rt.alloc(); "name a file in it, as {output}/cut.osm.pbf").ok();
        }
        (existing, _) if asked.is_several => of_existing_output(existing),
        (Some(Existing::Input), _) => "IN is never changed: name another OUT",
        (Some(Existing::Pipe | Existing::Device), Program::Pbfcut) => {
            "OUT is a new file: name one; 'check' counts without one"
        }
        (Some(Existing::Pipe | Existing::Device), Program::Pbfcutz) => {
            "OUT is a new file: name one, or - for standard output; 'check' counts without one"
        }
        (Some(Existing::Alone(_)), _) => "IN isn't there but OUT is: are they swapped?",
        (Some(Existing::Longer(_)), _) => {
            "OUT is longer than IN: are they swapped? If not, name another OUT"
        }
        (_, Program::Pbfcut) => "only new files are written: name another OUT",
        (_, Program::Pbfcutz) => {
            "only new files are written: name another OUT, or let -O replace this one"
        }
    };
    text(rt, hint)
}

/// What to do about a read that failed.
fn of_read(rt: &HostRuntime, asked: Asked<'_, '_>) -> Option<String> {
    let input = asked.input;
    if fs::metadata(rt, input).ok()?.is_dir() {
        return format!(in rt.alloc(); "name a file in it: ls {input}").ok();
    }
    text(rt, "copy IN to another disk, and read the copy")
}

/// What to do about a write that failed.
fn of_write(asked: Asked<'_, '_>, failed: FailedWrite) -> Option<&'static str> {
    match (failed.target, failed.code) {
        (Target::StandardOutput, BROKEN_PIPE) => {
            Some("the program that read standard output has ended")
        }
        (Target::StandardOutput, _) if asked.is_several => {
            Some("each OUT can be used; 'check' counts it again")
        }
        (Target::StandardOutput, _) if asked.output_file().is_some() => {
            Some("OUT can be used; 'check' counts it again")
        }
        (_, NO_SPACE) => Some("make room: df -h shows how much is left"),
        (Target::Out, _) if asked.is_several => {
            Some("write to another folder, maybe on another disk: -d names it")
        }
        (Target::Out, _) => Some("write to another OUT, maybe on another disk"),
        _ => None,
    }
}

/// What the text of a polygon should be.
fn of_polygon_fault(fault: &PolyFault) -> &'static str {
    match (fault.reason, fault.place) {
        (PolyReason::Name, _) =>
            "the file and each ring begin with a line that names them: put one before this line",
        (PolyReason::Json, _) => "'python3 -m json.tool FILE' says where",
        (PolyReason::Long, _) => {
            "an edge has at most 180 degrees of longitude: use two rings, one on each side of the antimeridian, or add a corner between"
        }
        (PolyReason::Range, PolyPlace::Line(_, _)) => {
            "a line has first the longitude, then the latitude, in degrees"
        }
        (PolyReason::Range, _) => {
            "a position is [longitude, latitude] in degrees; this makes them of metres: ogr2ogr -t_srs EPSG:4326 NEW.geojson FILE"
        }
        (_, PolyPlace::Line(_, _)) => {
            "a .poly file has a name; for each ring a name, lines of longitude and latitude, and END; and END"
        }
        _ => {
            "GeoJSON has a Polygon or MultiPolygon, alone, in a GeometryCollection, or as geometry of features; its rings end as they begin"
        }
    }
}

/// What a configuration should be.
fn of_config_fault(reason: ConfigReason) -> &'static str {
    match reason {
        ConfigReason::Json => "'python3 -m json.tool FILE' says where",
        ConfigReason::Unknown | ConfigReason::Repeated => {
            "an extract may have output, output_format, description, and one of bbox, polygon and multipolygon"
        }
        ConfigReason::FileName => {
            "output and file_name are paths of files; - is none, since each extract has a file"
        }
        ConfigReason::Format => "leave output_format out; 'osmium cat' writes other formats",
        ConfigReason::FileType => {
            "leave file_type out: the text of the file shows whether it is GeoJSON or .poly"
        }
        ConfigReason::BadBox(_) => {
            "a bbox is [west, south, east, north] in degrees, as [-0.5, 51.25, 0.3, 51.7]"
        }
        ConfigReason::BadPolygon(_) => {
            "inline polygons are the coordinates of a Polygon or MultiPolygon of GeoJSON; a file is {\"file_name\": \"area.poly\"}"
        }
        ConfigReason::SameOutput => "give each extract an output of its own",
        ConfigReason::Shape | ConfigReason::Missing | ConfigReason::Empty | ConfigReason::Area => {
            "as {\"extracts\": [{\"output\": \"london.osm.pbf\", \"bbox\": [-0.5, 51.25, 0.3, 51.7]}]}"
        }
    }
}

/// What to do next after a run that ended so; the last write that failed, if one did.
fn hint(
    rt: &HostRuntime,
    asked: Asked<'_, '_>,
    ending: &Ending,
    failed: Option<FailedWrite>,
) -> Option<String> {
    if let Some(refused) = refusal_of(ending) {
        return of_refusal(rt, asked, refused);
    }
    match ending {
        Ending::Polygon(fault) => text(rt, of_polygon_fault(fault)),
        Ending::Config(fault) => text(rt, of_config_fault(fault.reason)),
        Ending::CannotOpen => of_files(rt, asked, failed),
        Ending::IsPipe => text(
            rt,
            "IN is read more than once: write what the pipe has to a file first; 'check' and 'blobs' read a pipe",
        ),
        Ending::OutExists => of_existing(rt, asked),
        Ending::Stopped(Stop::Changed(_)) => text(rt, "copy IN to a file that stays the same"),
        Ending::Stopped(Stop::Memory) if asked.region.is_some() => {
            text(rt, "a smaller area takes less memory")
        }
        Ending::Stopped(Stop::Memory) if asked.is_several => {
            text(rt, "smaller areas, or fewer in a run, take less memory")
        }
        Ending::Stopped(Stop::Read) => of_read(rt, asked),
        Ending::Stopped(Stop::Write) => text(rt, of_write(asked, failed?)?),
        _ => None,
    }
}

/// Whether this run made OUT, and left it: only pbfcut does, and only if it stopped after it had looked for OUT.
fn may_leave(asked: Asked<'_, '_>, ending: &Ending) -> bool {
    if asked.program == Program::Pbfcutz {
        return false;
    }
    match ending {
        // The file of a polygon is read, and may be too long for the memory, before it is known whether there is an OUT.
        Ending::Stopped(Stop::Memory) => asked.text().is_none(),
        Ending::Stopped(_) => true,
        _ => false,
    }
}

/// What is to be done about the OUT that this run left, if it did. After counts that could not be printed it is whole.
fn of_leaving(
    rt: &HostRuntime,
    asked: Asked<'_, '_>,
    ending: &Ending,
    failed: Option<FailedWrite>,
) -> Option<&'static str> {
    let counts_failed = match failed {
        Some(failed) => failed.target == Target::StandardOutput,
        None => false,
    };
    if counts_failed || !may_leave(asked, ending) {
        return None;
    }
    let left = fs::metadata(rt, asked.output_file()?).ok()?;
    if !left.is_file() {
        None
    } else if left.len() == 0 {
        Some("this run made OUT, and left it empty: remove it, or name another")
    } else {
        Some("this run made OUT, and left it incomplete: remove it, or name another")
    }
}

/// Writes which file a run failed for, and why; and on a terminal what to do next.
pub fn tell_hint(
    rt: &HostRuntime,
    asked: Asked<'_, '_>,
    ending: &Ending,
    failed: Option<FailedWrite>,
) {
    tell_fact(rt, asked, ending, failed);
    if !rt.stderr().is_terminal() {
        return;
    }
    if let Some(hint) = hint(rt, asked, ending, failed) {
        let _ = eprintln!(rt; "hint: {hint}");
    }
    if let Some(hint) = of_leaving(rt, asked, ending, failed) {
        let _ = eprintln!(rt; "hint: {hint}");
    }
}

/// Says on a terminal how the box should be.
pub fn tell_box(rt: &HostRuntime, fault: BoxFault) {
    if !rt.stderr().is_terminal() {
        return;
    }
    let _ = eprintln!(rt;
        "hint: the box is west,south,east,north in degrees, as --box=-0.5,51.25,0.3,51.7"
    );
    let more = match fault {
        BoxFault::Shape => "hint: it is four numbers with commas between them, and no spaces",
        BoxFault::Digit =>
            "hint: a number has no letters or signs but -, and up to nine digits after the point",
        BoxFault::Range => "hint: longitudes are from -180 to 180, latitudes from -90 to 90",
        BoxFault::LeftOverRight =>
            "hint: across the antimeridian two boxes are cut, one on each side",
        BoxFault::BottomOverTop => "hint: south is the lower latitude",
    };
    let _ = eprintln!(rt; "{more}");
}

/// Says on a terminal that an extract is empty.
pub fn tell_empty(rt: &HostRuntime, region: Region<'_>) {
    if !rt.stderr().is_terminal() {
        return;
    }
    let place = match region {
        Region::Box(_) => "the box, west,south,east,north",
        Region::Polygon(_) => "the polygon, longitude before latitude",
    };
    let _ = eprintln!(rt;
        "hint: no node of IN lies in {place}: 'pbfcutz info IN' prints IN's own box"
    );
}

/// Says on a terminal what OUT is, if its name promises something else.
pub fn tell_form(rt: &HostRuntime, program: Program, output: &str) {
    if !rt.stderr().is_terminal() {
        return;
    }
    let other = [
        ".osm", ".osm.bz2", ".osm.gz", ".xml", ".o5m", ".opl", ".geojson", ".json",
    ];
    if other.iter().any(|end| output.ends_with(*end)) {
        let _ = eprintln!(rt;
            "hint: {output} is written as PBF, whatever its name is; 'osmium cat' writes other formats"
        );
    }
    if program == Program::Pbfcut && output == "-" {
        let _ = eprintln!(rt; "hint: OUT is a file named -; pbfcutz writes to standard output");
    }
}
