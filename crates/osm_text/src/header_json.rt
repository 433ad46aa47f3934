//! What a JSON object has of a header.

ghost use Rattle.std.specs.Prelude.{◌≡◌, ◌∷◌, ◌++◌, codes, map, OnOk};
ghost use Rattle.std.specs.List.{flat_map};
ghost use Rattle.std.specs.Option.{option_map};
ghost use Rattle.pbf_header.specs.Header.{header_of, text_of};
ghost use Rattle.osm_text.specs.HeaderJson.{edges_value, header_members, list_member, listed, maybe_box_member, maybe_number_member, maybe_text_member, number_pair};
ghost use Rattle.osm_text.specs.Quoted.{json_string};

use crate::number::put_signed;
use crate::quoted::put_json_string;
use pbf_header::{Header, HeaderBox};
use std::alloc::AllocError;

/// Appends what is before the value of a member.
fn put_key(out: &mut Vec<u8>, word: &[u8]) -> Result<(), AllocError>
    ensures { OnOk result (out.new.items ≡ out.old.items ++ codes "\"" ++ word.now ++ codes "\":") }
{
    out.push(b'"')?;
    out.extend_from_slice(word)?;
    out.extend_from_slice(b"\":")?;
    Ok(())
}

/// Appends texts, each after a comma.
fn put_more(out: &mut Vec<u8>, texts: &[Vec<u8>]) -> Result<(), AllocError>
    ensures { OnOk result (out.new.items
        ≡ out.old.items ++ flat_map (λ next. 44 ∷ json_string next) (map text_of texts.now)) }
{
    for text in texts {
        out.push(b',')?;
        put_json_string(out, text)?;
    }
    Ok(())
}

/// Appends texts with commas between.
fn put_listed(out: &mut Vec<u8>, texts: &[Vec<u8>]) -> Result<(), AllocError>
    ensures { OnOk result (out.new.items ≡ out.old.items ++ listed (map text_of texts.now)) }
{
    let Some((first, more)) = texts.split_first() else {
        return Ok(());
    };
    put_json_string(out, first)?;
    put_more(out, more)
}

/// Appends the member of a list of texts.
fn put_list_member(out: &mut Vec<u8>, word: &[u8], texts: &[Vec<u8>]) -> Result<(), AllocError>
    ensures { OnOk result
        (out.new.items ≡ out.old.items ++ list_member word.now (map text_of texts.now)) }
{
    put_key(out, word)?;
    out.push(b'[')?;
    put_listed(out, texts)?;
    out.extend_from_slice(b"],")?;
    Ok(())
}

/// Appends the member of a text, if there is one.
fn put_text_member(out: &mut Vec<u8>, word: &[u8], text: &Option<Vec<u8>>) -> Result<(), AllocError>
    ensures { OnOk result (out.new.items
        ≡ out.old.items ++ maybe_text_member word.now (option_map text_of text.now)) }
{
    if let Some(text) = text {
        put_key(out, word)?;
        put_json_string(out, text)?;
        out.push(b',')?;
    }
    Ok(())
}

/// Appends the member of a number, if there is one.
fn put_number_member(out: &mut Vec<u8>, word: &[u8], number: Option<i64>) -> Result<(), AllocError>
    ensures { OnOk result (out.new.items ≡ out.old.items ++ maybe_number_member word.now number) }
{
    if let Some(number) = number {
        put_key(out, word)?;
        put_signed(out, i128::from(number))?;
        out.push(b',')?;
    }
    Ok(())
}

/// Appends two numbers with a comma between.
#[tactic(auto, unfolding(crate::specs::HeaderJson::number_pair))]
fn put_number_pair(out: &mut Vec<u8>, first: i64, second: i64) -> Result<(), AllocError>
    ensures { OnOk result (out.new.items ≡ out.old.items ++ number_pair first second) }
{
    put_signed(out, i128::from(first))?;
    out.push(b',')?;
    put_signed(out, i128::from(second))
}

/// Appends the edges of a box in brackets.
fn put_edges_value(out: &mut Vec<u8>, edges: HeaderBox) -> Result<(), AllocError>
    ensures { OnOk result (out.new.items ≡ out.old.items ++ edges_value edges) }
{
    out.push(b'[')?;
    put_number_pair(out, edges.left, edges.bottom)?;
    out.push(b',')?;
    put_number_pair(out, edges.right, edges.top)?;
    out.push(b']')?;
    Ok(())
}

/// Appends the member of the box, if there is one.
fn put_box_member(out: &mut Vec<u8>, bbox: Option<HeaderBox>) -> Result<(), AllocError>
    ensures { OnOk result (out.new.items ≡ out.old.items ++ maybe_box_member bbox) }
{
    if let Some(edges) = bbox {
        put_key(out, b"bbox")?;
        put_edges_value(out, edges)?;
        out.push(b',')?;
    }
    Ok(())
}

/// Appends what a JSON object has of a header: a member for each field that is present, with a comma after it, by the words and in the
/// order of `put_header`. The box is a list of the four edges, and the features are two lists, which may be empty.
///
/// An `Err` says that memory is refused; the output then is unspecified.
pub fn put_header_members(out: &mut Vec<u8>, header: &Header) -> Result<(), AllocError>
    ensures { OnOk result (out.new.items ≡ out.old.items ++ header_members (header_of header.now)) }
{
    put_box_member(out, header.bbox)?;
    put_list_member(out, b"required", &header.required)?;
    put_list_member(out, b"optional", &header.optional)?;
    put_text_member(out, b"program", &header.program)?;
    put_text_member(out, b"source", &header.source)?;
    put_number_member(out, b"timestamp", header.timestamp)?;
    put_number_member(out, b"sequence", header.sequence)?;
    put_text_member(out, b"url", &header.url)
}
