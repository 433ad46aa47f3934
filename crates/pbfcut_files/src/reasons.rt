//! What the reasons of refusals mean, in words. The manual page has the same list. The numbers in them are those of `HEADER_LIMIT`, `LARGEST_SIZE`,
//! `RAW_LIMIT` and `MOST_TEXTS`, spelled once more: no constant text can be made of a constant number.

use osm_box::BoxFault;
use osm_config::ConfigReason;
use osm_polygon::PolyReason;
use pbf_unpack::{InflateFault, UnpackReason};
use pbf_wire::Reason;

/// What is wrong with the encoding of fields, or with frames and blobs.
fn words_of_frames(reason: Reason) -> Option<&'static str> {
    let words = match reason {
        Reason::VarintCut => "a message ends inside a number",
        Reason::VarintLong => "a number has more than ten bytes, or is 2^64 or more",
        Reason::NumberZero => "a field has the number 0",
        Reason::TagLarge => "a field's tag is 2^32 or more",
        Reason::Group => "a group begins or ends (wire types 3 and 4)",
        Reason::WireType => "a wire type is 6 or 7",
        Reason::LengthPast => "a length goes past the end of its message",
        Reason::FixedCut => "a message ends inside four or eight fixed bytes",
        Reason::WrongType => "a known field has the wrong wire type",
        Reason::PrefixCut => "it ends inside the four bytes that begin a frame",
        Reason::HeaderLong => "a BlobHeader has 65,536 bytes or more",
        Reason::HeaderCut => "it ends inside a BlobHeader",
        Reason::BlobCut => "it ends inside a blob",
        Reason::DataSize => "the size of a blob is below 0 or above 33,555,455",
        Reason::NoRaw => "a blob has no data of any kind",
        Reason::RawLong => "a raw payload has 33,554,432 bytes or more",
        Reason::Zlib => "its blobs are compressed by zlib",
        Reason::Lzma => "its blobs are compressed by LZMA",
        Reason::Bzip2 => "its blobs are compressed by bzip2",
        Reason::Lz4 => "its blobs are compressed by LZ4",
        Reason::Zstd => "its blobs are compressed by Zstandard",
        Reason::NoHeader => "it ends without an OSMHeader",
        Reason::SecondHeader => "it has a second OSMHeader",
        Reason::DataFirst => "data comes before the OSMHeader",
        Reason::Missing(_) => "a required field is absent",
        Reason::FileLong => "it has more than 2^62 bytes",
        _ => return None,
    };
    Some(words)
}

/// What is wrong with a file that is refused for this reason.
pub(crate) fn words_of(reason: Reason) -> &'static str {
    if let Some(words) = words_of_frames(reason) {
        return words;
    }
    match reason {
        Reason::TooManyStrings => "a string table has more than 1,048,576 strings",
        Reason::StringIndex => "an index is outside the string table",
        Reason::ColumnLengths => "columns of dense nodes have different lengths",
        Reason::KeysVals => "the tags of dense nodes are not one run for each node",
        Reason::OutOfRange => "a number is outside its range",
        Reason::EntityLarge => "an object, or the header, is too large to be written",
        Reason::TwiceMessage => "a message that may occur once occurs twice",
        Reason::MixedGroup => "a group holds objects of two kinds",
        Reason::Changesets => "it has changesets",
        Reason::Granularity => "the granularity is below 1",
        Reason::DateGranularity => "the granularity of dates is below 1",
        Reason::Feature => "it requires a feature that is not known here",
        Reason::TagColumns => "an object has more keys than values, or fewer",
        Reason::MemberColumns => "the columns of a relation's members have different lengths",
        Reason::MemberKind => "a member is neither a node nor a way nor a relation",
        Reason::LocationColumns => "a way has locations, but not one for each of its nodes",
        Reason::Unsorted =>
            "a smart extract needs all nodes before all ways, and these before all relations",
        _ => "it is refused",
    }
}

/// What is wrong with a blob whose zlib data pbfcutz refuses.
pub(crate) fn words_of_zlib(detail: Option<UnpackReason>) -> &'static str {
    match detail {
        None => "a blob has its data twice, in zlib's form and in another",
        Some(UnpackReason::Inflate(InflateFault::Long)) => {
            "a blob unpacks to 32 MiB or more, which the format does not allow"
        }
        Some(UnpackReason::RawSize) => "a blob names another length than its data has",
        Some(UnpackReason::Inflate(_)) => "the compressed data of a blob is damaged",
    }
}

/// What is wrong with the file of a polygon.
pub(crate) fn words_of_polygon(reason: PolyReason) -> &'static str {
    match reason {
        PolyReason::Ended => "it ends before its last END",
        PolyReason::Number => "there are no two numbers there, longitude and latitude",
        PolyReason::Range => "a longitude or latitude is out of range there",
        PolyReason::Short => "a ring has too few corners",
        PolyReason::Empty => "it has no ring",
        PolyReason::Rest => "a line follows the last END",
        PolyReason::Json => "it begins with {, and is not JSON",
        PolyReason::Shape => "it is not GeoJSON of polygons",
        PolyReason::Open => "a ring does not end as it begins",
        PolyReason::Long => "an edge goes round more than half of the earth",
        PolyReason::Name => "a name is missing here: this line has numbers",
    }
}

/// What is wrong with a box.
fn words_of_box(fault: BoxFault) -> &'static str {
    match fault {
        BoxFault::Shape => "a box has four numbers",
        BoxFault::Digit => {
            "a number of a box has no letters or signs but -, and up to nine digits after the point"
        }
        BoxFault::Range => "a longitude or latitude of a box is out of range",
        BoxFault::LeftOverRight => "the west edge of a box is east of its east edge",
        BoxFault::BottomOverTop => "the south edge of a box is north of its north edge",
    }
}

/// What is wrong with a configuration.
pub(crate) fn words_of_config(reason: ConfigReason) -> &'static str {
    match reason {
        ConfigReason::Json => "it is not JSON",
        ConfigReason::Shape => "this value is of another kind than the one it has to be",
        ConfigReason::Unknown => "there is no such member",
        ConfigReason::Repeated => "this member comes twice",
        ConfigReason::Missing => "this member is missing",
        ConfigReason::Empty => "it has no extract",
        ConfigReason::FileName => "this is no name of a file",
        ConfigReason::Format => "the only format is pbf",
        ConfigReason::FileType => "the types of files are poly and geojson",
        ConfigReason::Area => "an extract has one of bbox, polygon and multipolygon",
        ConfigReason::BadBox(fault) => words_of_box(fault),
        ConfigReason::BadPolygon(fault) => words_of_polygon(fault.reason),
        ConfigReason::SameOutput => "an earlier extract has the same output",
    }
}
