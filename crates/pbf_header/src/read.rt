//! A HeaderBlock, read.

ghost use Rattle.std.specs.Prelude.{◌≡◌, ◌+◌, ◌≤◌, ◌↔◌, IfOk, OnOk, None, Some, Err, length, map};
ghost use Rattle.std.specs.Option.{option_map};
ghost use Rattle.pbf_wire.specs.declared.fault.Fault.{Fault};
ghost use Rattle.pbf_wire.specs.declared.fault.ReadFault.TheVariants.{Refused};
ghost use Rattle.pbf_wire.specs.Faults.{fields_in, found_in};
ghost use Rattle.pbf_wire.specs.Reading.{each};
ghost use Rattle.pbf_header.specs.Header.{header_of, header_in, text_of, edge, box_in, last_text};
ghost use Rattle.pbf_header.specs.HeaderFaults.{header_fault};
ghost use Rattle.pbf_wire.specs.declared.limits.TheConstants.{OFFSET_LIMIT};

use crate::header::{Header, HeaderBox, copied};
use crate::header_block::{
    BBOX, BOTTOM, LEFT, OPTIONAL_FEATURES, REPLICATION_SEQUENCE, REPLICATION_TIMESTAMP,
    REPLICATION_URL, REQUIRED_FEATURES, RIGHT, SOURCE, TOP, WRITINGPROGRAM, judge_header,
};
use pbf_wire::{Message, Payload, ReadFault, last_number, low_i64, unzigzag};
use std::alloc::{AllocError, Global};

/// An edge of a box, and 0 if it is absent.
fn edge(message: &[u8], number: u64) -> i64
    ensures { result ≡ edge number (fields_in 0 message.now) }
{
    let message = Message {
        bytes: message,
        at: 0,
    };
    unzigzag(last_number(message, number).unwrap_or(0))
}

/// The box of a message.
fn box_in(message: &[u8]) -> HeaderBox
    ensures { result ≡ box_in message.now }
{
    HeaderBox {
        left: edge(message, LEFT),
        right: edge(message, RIGHT),
        top: edge(message, TOP),
        bottom: edge(message, BOTTOM),
    }
}

/// The last text or message of a field.
fn last_bytes(payload: Message<'_>, number: u64) -> Option<&[u8]>
    ensures { option_map (λ bytes. bytes.now) result ≡ last_text number (found_in payload.entry) }
{
    let mut last = None;
    for field in payload.found() {
        if field.number == number {
            if let Payload::Bytes(bytes, _) = field.payload {
                last = Some(bytes);
            }
        }
    }
    last
}

/// The texts of a repeated field.
fn texts(alloc: Global, payload: Message<'_>, number: u64) -> Result<Vec<Vec<u8>>, AllocError>
    ensures { IfOk result
        (λ texts. map text_of texts.items ≡ each number (found_in payload.entry)) }
{
    let mut texts = Vec::new(alloc);
    for field in payload.found() {
        if field.number == number {
            if let Payload::Bytes(text, _) = field.payload {
                texts.push(Vec::from_slice(alloc, text)?)?;
            }
        }
    }
    Ok(texts)
}

/// What a HeaderBlock says; if it has a fault, what its fields before the fault say.
#[tactic(auto, unfolding(crate::specs::Header::header_in))]
fn header_in(alloc: Global, payload: Message<'_>) -> Result<Header, AllocError>
    ensures { IfOk result (λ header. header_of header
        ≡ header_in payload.entry.at payload.entry.bytes.now) }
{
    Ok(Header {
        bbox: last_bytes(payload, BBOX).map(|message| box_in(message)),
        required: texts(alloc, payload, REQUIRED_FEATURES)?,
        optional: texts(alloc, payload, OPTIONAL_FEATURES)?,
        program: copied(alloc, last_bytes(payload, WRITINGPROGRAM))?,
        source: copied(alloc, last_bytes(payload, SOURCE))?,
        url: copied(alloc, last_bytes(payload, REPLICATION_URL))?,
        timestamp: last_number(payload, REPLICATION_TIMESTAMP).map(|number| low_i64(number)),
        sequence: last_number(payload, REPLICATION_SEQUENCE).map(|number| low_i64(number)),
    })
}

impl Header {
    /// Reads a HeaderBlock whose first byte is at `at` in the file.
    ///
    /// Of several occurrences of a field the last counts, and each of the features. Refuses the least fault of the first phase
    /// that has one: of the wire form of the header and its box; of the structure, which is a second box (`TwiceMessage`) or a
    /// box that lacks an edge (`Missing`); of the required features, which have to be known (`Feature`). A refusal comes before
    /// memory is requested.
    pub fn read(alloc: Global, payload: &[u8], at: u64) -> Result<Header, ReadFault>
        requires { at + length payload.now ≤ OFFSET_LIMIT }
        ensures header { IfOk result (λ header. header_of header ≡ header_in at payload.now) }
        ensures sound { OnOk result (header_fault at payload.now ≡ None) }
        ensures refused { (fault : Fault)
            → result ≡ Err (Refused fault) ↔ header_fault at payload.now ≡ Some fault }
    {
        let payload = Message { bytes: payload, at };
        judge_header(payload)?;
        Ok(header_in(alloc, payload)?)
    }
}
