//! Why bytes are refused, and where.

ghost use Rattle.std.specs.Prelude.{◌≡◌};
ghost use Rattle.pbf_wire.specs.Reasons.{reason_number, reason_name, missing_field};
ghost use Rattle.pbf_wire.specs.declared.fault.ReadFault.TheVariants as read;

use std::alloc::{AllocError, AllocFailed};
use std::fmt;
use thiserror::Error;

/// What is wrong with the bytes. Each reason has a fixed number, and faults at one place are compared by it: the reasons are
/// declared in the order of their numbers.
#[derive(Clone, Copy, Debug, PartialEq, Eq)]
pub enum Reason {
    /// 1: the message ends inside a varint.
    VarintCut,
    /// 2: a varint has more than ten bytes, or spells 2^64 or more.
    VarintLong,
    /// 3: a field has the number 0.
    NumberZero,
    /// 4: a tag is 2^32 or more.
    TagLarge,
    /// 5: a group begins or ends (wire types 3 and 4).
    Group,
    /// 6: the wire type is 6 or 7.
    WireType,
    /// 7: a length passes the end of the message.
    LengthPast,
    /// 8: the message ends inside four or eight fixed bytes.
    FixedCut,
    /// 9: a known field has another wire type than its own.
    WrongType,
    /// 10: the file ends inside the four bytes that begin a frame.
    PrefixCut,
    /// 11: a BlobHeader has 65,536 bytes or more.
    HeaderLong,
    /// 12: the file ends inside a BlobHeader.
    HeaderCut,
    /// 13: the file ends inside a Blob.
    BlobCut,
    /// 14: `datasize` is below 0 or above 33,555,455.
    DataSize,
    /// 15: a Blob has no data of any kind.
    NoRaw,
    /// 16: a raw payload has 33,554,432 bytes or more.
    RawLong,
    /// 17: a Blob is compressed by zlib.
    Zlib,
    /// 18: a Blob is compressed by LZMA.
    Lzma,
    /// 19: a Blob is compressed by bzip2.
    Bzip2,
    /// 20: a Blob is compressed by LZ4.
    Lz4,
    /// 21: a Blob is compressed by Zstandard.
    Zstd,
    /// 22: the file ends without an `OSMHeader`.
    NoHeader,
    /// 23: there is a second `OSMHeader`.
    SecondHeader,
    /// 24: an `OSMData` comes before the `OSMHeader`.
    DataFirst,
    /// 25: the required field of this number is absent.
    Missing(u64),
    /// 26: a frame ends after byte 2^62 of the file.
    FileLong,
    /// 30: a string table has more than 1,048,576 texts.
    TooManyStrings,
    /// 31: a text is named that the string table does not have.
    StringIndex,
    /// 40: columns of dense nodes that belong together have different counts.
    ColumnLengths,
    /// 41: the keys and values of dense nodes are not one run for each node.
    KeysVals,
    /// 42: a number is outside its range.
    OutOfRange,
    /// 43: an entity, or the texts of a header, are too large to be written.
    EntityLarge,
    /// 50: a message that may occur once occurs again.
    TwiceMessage,
    /// 51: a group holds entities of two kinds.
    MixedGroup,
    /// 52: a group holds changesets.
    Changesets,
    /// 53: the granularity is below 1.
    Granularity,
    /// 54: the granularity of dates is below 1.
    DateGranularity,
    /// 55: a required feature is not known.
    Feature,
    /// 57: the keys and the values of an entity have different counts.
    TagColumns,
    /// 58: the three columns of a relation's members have different counts.
    MemberColumns,
    /// 59: the kind of a member is none of node, way and relation.
    MemberKind,
    /// 60: the locations of a way are neither none nor one for each ref.
    LocationColumns,
    /// 61: the entities are not sorted by type, as a smart extract needs them.
    Unsorted,
}

impl Reason {
    /// The reason's number and its name.
    fn number_and_name(&self) -> (u32, &'static str)
        ensures number { result.0 ≡ reason_number self.now }
        ensures name { result.1.now ≡ reason_name self.now }
    {
        match self {
            Reason::VarintCut => (1, "VarintCut"),
            Reason::VarintLong => (2, "VarintLong"),
            Reason::NumberZero => (3, "NumberZero"),
            Reason::TagLarge => (4, "TagLarge"),
            Reason::Group => (5, "Group"),
            Reason::WireType => (6, "WireType"),
            Reason::LengthPast => (7, "LengthPast"),
            Reason::FixedCut => (8, "FixedCut"),
            Reason::WrongType => (9, "WrongType"),
            Reason::PrefixCut => (10, "PrefixCut"),
            Reason::HeaderLong => (11, "HeaderLong"),
            Reason::HeaderCut => (12, "HeaderCut"),
            Reason::BlobCut => (13, "BlobCut"),
            Reason::DataSize => (14, "DataSize"),
            Reason::NoRaw => (15, "NoRaw"),
            Reason::RawLong => (16, "RawLong"),
            Reason::Zlib => (17, "Zlib"),
            Reason::Lzma => (18, "Lzma"),
            Reason::Bzip2 => (19, "Bzip2"),
            Reason::Lz4 => (20, "Lz4"),
            Reason::Zstd => (21, "Zstd"),
            Reason::NoHeader => (22, "NoHeader"),
            Reason::SecondHeader => (23, "SecondHeader"),
            Reason::DataFirst => (24, "DataFirst"),
            Reason::Missing(_) => (25, "Missing"),
            Reason::FileLong => (26, "FileLong"),
            Reason::TooManyStrings => (30, "TooManyStrings"),
            Reason::StringIndex => (31, "StringIndex"),
            Reason::ColumnLengths => (40, "ColumnLengths"),
            Reason::KeysVals => (41, "KeysVals"),
            Reason::OutOfRange => (42, "OutOfRange"),
            Reason::EntityLarge => (43, "EntityLarge"),
            Reason::TwiceMessage => (50, "TwiceMessage"),
            Reason::MixedGroup => (51, "MixedGroup"),
            Reason::Changesets => (52, "Changesets"),
            Reason::Granularity => (53, "Granularity"),
            Reason::DateGranularity => (54, "DateGranularity"),
            Reason::Feature => (55, "Feature"),
            Reason::TagColumns => (57, "TagColumns"),
            Reason::MemberColumns => (58, "MemberColumns"),
            Reason::MemberKind => (59, "MemberKind"),
            Reason::LocationColumns => (60, "LocationColumns"),
            Reason::Unsorted => (61, "Unsorted"),
        }
    }

    /// The reason's number. No two reasons share one, and the number of one never changes.
    pub fn number(&self) -> u32
        ensures { result ≡ reason_number self.now }
    {
        self.number_and_name().0
    }

    /// The reason's name, without the field of `Missing`.
    pub fn name(&self) -> &'static str
        ensures { result.now ≡ reason_name self.now }
    {
        self.number_and_name().1
    }

    /// The field that `Missing` names, and 0 for every other reason.
    pub fn missing_field(&self) -> u64
        ensures { result ≡ missing_field self.now }
    {
        match self {
            Reason::Missing(field) => *field,
            _ => 0,
        }
    }
}

/// The number and the name, as `22 NoHeader` or `25 Missing(1)`.
impl fmt::Display for Reason {
    fn fmt<W: fmt::Write>(&self, f: &mut fmt::Formatter<W>) -> fmt::Result {
        let (number, name) = self.number_and_name();
        match self {
            Reason::Missing(field) => write!(f, "{number} {name}({field})"),
            _ => write!(f, "{number} {name}"),
        }
    }
}

/// A refusal: the reason, and how many bytes of the file come before the place that it is about.
#[derive(Clone, Copy, Debug, PartialEq, Eq)]
pub struct Fault {
    pub offset: u64,
    pub reason: Reason,
}

/// As `refused at 36: 25 Missing(1)`.
impl fmt::Display for Fault {
    fn fmt<W: fmt::Write>(&self, f: &mut fmt::Formatter<W>) -> fmt::Result {
        let place = self.offset;
        let reason = self.reason;
        write!(f, "refused at {place}: {reason}")
    }
}

/// Why a message could not be read.
#[derive(Clone, Copy, Debug, PartialEq, Eq, Error)]
pub enum ReadFault {
    /// The bytes are refused.
    #[error("{0}")]
    Refused(Fault),
    /// A request for memory was refused.
    #[error("out of memory")]
    Memory,
}

impl From<Fault> for ReadFault {
    ghost from_gives = { λ f e. e ≡ read.Refused f };

    fn from(fault: Fault) -> ReadFault {
        ReadFault::Refused(fault)
    }
}

impl From<AllocError> for ReadFault {
    ghost from_gives = { λ _ e. e ≡ read.Memory };

    fn from(_error: AllocError) -> ReadFault {
        ReadFault::Memory
    }
}

impl<T: Drop> From<AllocFailed<T>> for ReadFault {
    ghost from_gives = { λ _ e. e ≡ read.Memory };

    fn from(_error: AllocFailed<T>) -> ReadFault {
        ReadFault::Memory
    }
}
