//! The lines of a header.

ghost use Rattle.std.specs.Prelude.{◌≡◌, ◌++◌, map, OnOk};
ghost use Rattle.std.specs.Option.{option_map};
ghost use Rattle.pbf_header.specs.Header.{header_of, text_of};
ghost use Rattle.osm_text.specs.HeaderText.{text_line, text_lines, maybe_text_line, maybe_number_line, edges_text, maybe_box_line, feature_text, origin_text, change_text, header_text};

use crate::number::{put_spaced, put_spaced_pair};
use crate::quoted::put_quoted;
use pbf_header::{Header, HeaderBox};
use std::alloc::AllocError;

/// Appends the line of a text.
fn put_text_line(out: &mut Vec<u8>, word: &[u8], text: &[u8]) -> Result<(), AllocError>
    ensures { OnOk result (out.new.items ≡ out.old.items ++ text_line word.now text.now) }
{
    out.extend_from_slice(b"H ")?;
    out.extend_from_slice(word)?;
    out.push(b' ')?;
    put_quoted(out, text)?;
    out.push(b'\n')?;
    Ok(())
}

/// Appends a line for each text.
fn put_text_lines(out: &mut Vec<u8>, word: &[u8], texts: &[Vec<u8>]) -> Result<(), AllocError>
    ensures { OnOk result
        (out.new.items ≡ out.old.items ++ text_lines word.now (map text_of texts.now)) }
{
    for text in texts {
        put_text_line(out, word, text)?;
    }
    Ok(())
}

/// Appends the line of a text, if there is one.
fn put_maybe_text(out: &mut Vec<u8>, word: &[u8], text: &Option<Vec<u8>>) -> Result<(), AllocError>
    ensures { OnOk result
        (out.new.items ≡ out.old.items ++ maybe_text_line word.now (option_map text_of text.now)) }
{
    if let Some(text) = text {
        put_text_line(out, word, text)?;
    }
    Ok(())
}

/// Appends the line of a number, if there is one.
fn put_maybe_number(out: &mut Vec<u8>, word: &[u8], number: Option<i64>) -> Result<(), AllocError>
    ensures { OnOk result (out.new.items ≡ out.old.items ++ maybe_number_line word.now number) }
{
    if let Some(number) = number {
        out.extend_from_slice(b"H ")?;
        out.extend_from_slice(word)?;
        put_spaced(out, i128::from(number))?;
        out.push(b'\n')?;
    }
    Ok(())
}

/// Appends the edges of a box.
fn put_edges(out: &mut Vec<u8>, edges: HeaderBox) -> Result<(), AllocError>
    ensures { OnOk result (out.new.items ≡ out.old.items ++ edges_text edges) }
{
    put_spaced_pair(out, i128::from(edges.left), i128::from(edges.bottom))?;
    put_spaced_pair(out, i128::from(edges.right), i128::from(edges.top))?;
    Ok(())
}

/// Appends the line of the box, if there is one.
fn put_maybe_box(out: &mut Vec<u8>, bbox: Option<HeaderBox>) -> Result<(), AllocError>
    ensures { OnOk result (out.new.items ≡ out.old.items ++ maybe_box_line bbox) }
{
    if let Some(edges) = bbox {
        out.extend_from_slice(b"H bbox")?;
        put_edges(out, edges)?;
        out.push(b'\n')?;
    }
    Ok(())
}

/// Appends the lines of box and features.
#[tactic(auto, unfolding(crate::specs::HeaderText::feature_text))]
fn put_features(out: &mut Vec<u8>, header: &Header) -> Result<(), AllocError>
    ensures { OnOk result (out.new.items ≡ out.old.items ++ feature_text (header_of header.now)) }
{
    put_maybe_box(out, header.bbox)?;
    put_text_lines(out, b"required", &header.required)?;
    put_text_lines(out, b"optional", &header.optional)
}

/// Appends the lines that say where the file comes from.
#[tactic(auto, unfolding(crate::specs::HeaderText::origin_text))]
fn put_origin(out: &mut Vec<u8>, header: &Header) -> Result<(), AllocError>
    ensures { OnOk result (out.new.items ≡ out.old.items ++ origin_text (header_of header.now)) }
{
    put_maybe_text(out, b"program", &header.program)?;
    put_maybe_text(out, b"source", &header.source)
}

/// Appends the lines of the three replication fields.
#[tactic(auto, unfolding(crate::specs::HeaderText::change_text))]
fn put_changes(out: &mut Vec<u8>, header: &Header) -> Result<(), AllocError>
    ensures { OnOk result (out.new.items ≡ out.old.items ++ change_text (header_of header.now)) }
{
    put_maybe_number(out, b"timestamp", header.timestamp)?;
    put_maybe_number(out, b"sequence", header.sequence)?;
    put_maybe_text(out, b"url", &header.url)
}

/// Appends a line for each field of a header that is present: `H`, the field's word and what it holds, with single spaces
/// between. The words are `bbox` (with the edges left, bottom, right and top in nanodegrees), `required` and `optional` (a line
/// for each feature), `program`, `source`, `timestamp` (in seconds since 1970), `sequence` and `url`, in this order. Texts are
/// in quotation marks.
///
/// An `Err` says that memory is refused; the output then is unspecified.
pub fn put_header(out: &mut Vec<u8>, header: &Header) -> Result<(), AllocError>
    ensures { OnOk result (out.new.items ≡ out.old.items ++ header_text (header_of header.now)) }
{
    put_features(out, header)?;
    put_origin(out, header)?;
    put_changes(out, header)
}
