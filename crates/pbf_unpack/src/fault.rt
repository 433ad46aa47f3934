//! Why the zlib data of a blob is not unpacked.

ghost use Rattle.std.specs.Prelude.{◌≡◌};
ghost use Rattle.pbf_unpack.specs.Reports.{unpack_reason_name};

use zlib::InflateFault;

/// What is wrong with zlib data.
#[derive(Clone, Copy, Debug, PartialEq, Eq)]
pub enum UnpackReason {
    /// It is no zlib stream, or its output is not shorter than the limit of raw data, 32 MiB.
    Inflate(InflateFault),
    /// `raw_size` is not the length of the payload.
    RawSize,
}

impl UnpackReason {
    /// The name of the fault.
    pub fn name(self) -> &'static str
        ensures { result.now ≡ unpack_reason_name self }
    {
        match self {
            UnpackReason::Inflate(fault) => fault.name(),
            UnpackReason::RawSize => "RawSize",
        }
    }
}

/// The fault of a blob's zlib data.
#[derive(Clone, Copy, Debug, PartialEq, Eq)]
pub struct UnpackFault {
    /// Where in the packed file the tag of the data is.
    pub offset: u64,
    pub reason: UnpackReason,
}
