//! A HeaderBlock, written.

ghost use Rattle.std.specs.Prelude.{◌≡◌, ◌++◌, ◌^◌, ◌<◌, OnOk, map};
ghost use Rattle.std.specs.Option.{option_map, option_to_list};
ghost use Rattle.pbf_wire.specs.Message.{Each, slot_bytes};
ghost use Rattle.pbf_header.specs.Header.{header_of, text_of};
ghost use Rattle.pbf_header.specs.WrittenHeader.{box_message, header_out_for_convert, header_message};

use crate::header::{Header, HeaderBox, PROGRAM, kept_features, known_features};
use crate::header_block::{
    BBOX, BOTTOM, LEFT, OPTIONAL_FEATURES, REPLICATION_SEQUENCE, REPLICATION_TIMESTAMP,
    REPLICATION_URL, REQUIRED_FEATURES, RIGHT, SOURCE, TOP, WRITINGPROGRAM,
};
use pbf_wire::{put_bytes, put_int64, put_number, zigzag};
use std::alloc::AllocError;

/// The most bytes that the source and the base URL of a written header have together: it fits a frame then.
pub const MOST_HEADER_TEXT: u64 = 12_000_000;

/// Appends a HeaderBBox.
fn put_edge_fields(out: &mut Vec<u8>, bbox: HeaderBox) -> Result<(), AllocError>
    ensures { OnOk result (out.new.items ≡ out.old.items ++ box_message bbox) }
{
    put_number(out, LEFT, zigzag(bbox.left))?;
    put_number(out, RIGHT, zigzag(bbox.right))?;
    put_number(out, TOP, zigzag(bbox.top))?;
    put_number(out, BOTTOM, zigzag(bbox.bottom))?;
    Ok(())
}

/// Appends the box of a header, if it has one.
fn put_box(out: &mut Vec<u8>, bbox: Option<HeaderBox>) -> Result<(), AllocError>
    ensures { OnOk result (out.new.items
        ≡ out.old.items ++ slot_bytes (Each BBOX (option_to_list (option_map box_message bbox)))) }
{
    if let Some(bbox) = bbox {
        let mut edges = Vec::new(*out.allocator());
        put_edge_fields(&mut edges, bbox)?;
        put_bytes(out, BBOX, &edges)?;
    }
    Ok(())
}

/// Appends texts, each by a field with this number.
fn put_each_text(out: &mut Vec<u8>, number: u64, texts: &[Vec<u8>]) -> Result<(), AllocError>
    requires { number < 2 ^ 29 }
    ensures { OnOk result (out.new.items
        ≡ out.old.items ++ slot_bytes (Each number (map text_of texts.now))) }
{
    for text in texts {
        put_bytes(out, number, text)?;
    }
    Ok(())
}

/// Appends a text, if there is one.
fn put_text(out: &mut Vec<u8>, number: u64, text: &Option<Vec<u8>>) -> Result<(), AllocError>
    requires { number < 2 ^ 29 }
    ensures { OnOk result (out.new.items
        ≡ out.old.items ++ slot_bytes
        (Each number (option_to_list (option_map text_of text.now)))) }
{
    if let Some(text) = text {
        put_bytes(out, number, text)?;
    }
    Ok(())
}

impl Header {
    /// Appends the HeaderBlock that is written for this header: with its box, source and replication fields, and with the
    /// features and the program of what is written, whatever others the header names. After an `Err` the output is
    /// unspecified.
    pub fn write(&self, out: &mut Vec<u8>) -> Result<(), AllocError>
        ensures { OnOk result (out.new.items
            ≡ out.old.items ++ header_message (header_out_for_convert (header_of self.now))) }
    {
        let required = known_features(*out.allocator())?;
        let optional = kept_features(*out.allocator(), &self.optional)?;
        put_box(out, self.bbox)?;
        put_each_text(out, REQUIRED_FEATURES, &required)?;
        put_each_text(out, OPTIONAL_FEATURES, &optional)?;
        put_bytes(out, WRITINGPROGRAM, PROGRAM)?;
        put_text(out, SOURCE, &self.source)?;
        put_int64(out, REPLICATION_TIMESTAMP, self.timestamp)?;
        put_int64(out, REPLICATION_SEQUENCE, self.sequence)?;
        put_text(out, REPLICATION_URL, &self.url)?;
        Ok(())
    }
}
