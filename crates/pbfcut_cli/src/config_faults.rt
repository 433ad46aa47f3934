//! What is said of a configuration that has a fault.

ghost use Rattle.std.specs.Prelude.{◌≡◌, ◌++◌, IfOk, codes, decimal, string_bytes};
ghost use Rattle.std.specs.Char.{is_ascii_graphic};
ghost use Rattle.std.specs.List.{list_all};
ghost use Rattle.pbfcut_cli.specs.Endings.{config_place_text, config_reason_detail, config_reason_name, config_text};
ghost use Rattle.pbfcut_cli.specs.Endings.{extract_number_text, in_brackets, member_name_text, poly_place_text, poly_reason_text, printable_name};

use crate::endings::fault_name;
use crate::faults::{place_words, poly_reason};
use osm_config::{ConfigFault, ConfigReason};
use osm_polygon::PolyFault;
use std::alloc::{AllocError, Global};

/// A reason's number and name.
fn config_reason_name(reason: ConfigReason) -> &'static str
    ensures { result.now ≡ config_reason_name reason }
{
    match reason {
        ConfigReason::Json => "1 Json",
        ConfigReason::Shape => "2 Shape",
        ConfigReason::Unknown => "3 Unknown",
        ConfigReason::Repeated => "4 Repeated",
        ConfigReason::Missing => "5 Missing",
        ConfigReason::Empty => "6 Empty",
        ConfigReason::FileName => "7 FileName",
        ConfigReason::Format => "8 Format",
        ConfigReason::FileType => "9 FileType",
        ConfigReason::Area => "10 Area",
        ConfigReason::BadBox(_) => "11 BadBox",
        ConfigReason::BadPolygon(_) => "12 BadPolygon",
        ConfigReason::SameOutput => "13 SameOutput",
    }
}

/// Two texts, in brackets.
fn in_brackets(alloc: Global, first: &str, second: &str) -> Result<String, AllocError>
    ensures { IfOk result (λ text. string_bytes text ≡ in_brackets (first.now ++ second.now)) }
{
    format!(in alloc; "({first}{second})")
}

/// What is wrong with polygons, in brackets.
fn polygon_detail(alloc: Global, fault: PolyFault) -> Result<String, AllocError>
    ensures { IfOk result (λ text. string_bytes text
        ≡ in_brackets (poly_place_text fault.place ++ poly_reason_text fault.reason)) }
{
    let place = place_words(alloc, fault.place)?;
    in_brackets(alloc, place.as_str(), poly_reason(fault.reason))
}

/// What is wrong with a box or with polygons, in brackets; nothing for another reason.
fn reason_detail(alloc: Global, reason: ConfigReason) -> Result<String, AllocError>
    ensures { IfOk result (λ text. string_bytes text ≡ config_reason_detail reason) }
{
    match reason {
        ConfigReason::BadBox(fault) => in_brackets(alloc, "", fault_name(&fault)),
        ConfigReason::BadPolygon(fault) => polygon_detail(alloc, fault),
        _ => Ok(String::new(alloc)),
    }
}

/// As `extract 2: `.
fn numbered_words(alloc: Global, extract: usize) -> Result<String, AllocError>
    ensures { IfOk result (λ text. string_bytes text
        ≡ codes "extract " ++ decimal extract ++ codes ": ") }
{
    format!(in alloc; "extract {extract}: ")
}

/// The number of an extract, unless it is 0.
fn extract_words(alloc: Global, extract: usize) -> Result<String, AllocError>
    ensures { IfOk result (λ text. string_bytes text ≡ extract_number_text extract) }
{
    if extract == 0 {
        return Ok(String::new(alloc));
    }
    numbered_words(alloc, extract)
}

/// Whether each byte can be printed: it is a letter, a digit or a mark of ASCII.
fn are_graphic(bytes: &[u8]) -> bool
    ensures { result ≡ list_all is_ascii_graphic bytes.now }
{
    bytes.iter().all(|byte| byte.is_ascii_graphic())
}

/// A name, if it can be printed: a configuration may have any.
fn printable_name(name: &str) -> &str
    ensures { result.now ≡ printable_name name.now }
{
    if are_graphic(name.as_bytes()) {
        name
    } else {
        "?"
    }
}

/// As `output: `.
fn named_words(alloc: Global, name: &str) -> Result<String, AllocError>
    ensures { IfOk result (λ text. string_bytes text ≡ name.now ++ codes ": ") }
{
    format!(in alloc; "{name}: ")
}

/// The name of a member, unless there is none.
fn member_words(alloc: Global, name: &str) -> Result<String, AllocError>
    ensures { IfOk result (λ text. string_bytes text ≡ member_name_text name.now) }
{
    if name.is_empty() {
        return Ok(String::new(alloc));
    }
    named_words(alloc, printable_name(name))
}

/// The extract and the member that a fault is in.
fn place_words_of(alloc: Global, fault: &ConfigFault) -> Result<String, AllocError>
    ensures { IfOk result (λ text. string_bytes text ≡ config_place_text fault.now) }
{
    let mut place = extract_words(alloc, fault.extract)?;
    let member = member_words(alloc, fault.member.as_str())?;
    place.push_str(member.as_str())?;
    Ok(place)
}

/// The line of a fault, by its parts.
fn config_line(
    alloc: Global,
    program: &str,
    place: &str,
    name: &str,
    detail: &str,
) -> Result<String, AllocError>
    ensures { IfOk result (λ text. string_bytes text
        ≡ config_text program.now place.now name.now detail.now) }
{
    format!(in alloc; "{program}: config: {place}{name}{detail}\n")
}

/// All that is said of a configuration, as `pbfcutz: config: extract 2: bbox: 11 BadBox(Range)`.
pub(crate) fn config_message(
    alloc: Global,
    program: &str,
    fault: &ConfigFault,
) -> Result<String, AllocError>
    ensures { IfOk result (λ text. string_bytes text ≡ config_text program.now
        (config_place_text fault.now) (config_reason_name fault.now.reason)
        (config_reason_detail fault.now.reason)) }
{
    let place = place_words_of(alloc, fault)?;
    let detail = reason_detail(alloc, fault.reason)?;
    let name = config_reason_name(fault.reason);
    config_line(alloc, program, place.as_str(), name, detail.as_str())
}
