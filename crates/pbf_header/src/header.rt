//! The header of a file, owned, and the one that is written in its place.

ghost use Rattle.std.specs.Prelude.{◌≡◌, IfOk, map};
ghost use Rattle.std.specs.Option.{option_map};
ghost use Rattle.pbf_strings.specs.TableOut.{has_text};
ghost use Rattle.pbf_header.specs.Header.{header_of, text_of};
ghost use Rattle.pbf_header.specs.WrittenHeader.{kept_features, known_features, header_out, header_out_for_box, header_out_for_convert};

use osm_entity::BoundingBox;
use std::alloc::{AllocError, Global};

/// The required features that are known. All are written.
pub(crate) const KNOWN_FEATURES: [&[u8]; 2] = [b"OsmSchema-V0.6", b"DenseNodes"];

/// The optional features that are written if they were read.
const KEPT_FEATURES: [&[u8]; 3] = [b"Has_Metadata", b"Sort.Type_then_ID", b"LocationsOnWays"];

/// The program that a written header names.
pub(crate) const PROGRAM: &[u8] = b"pbfcut";

/// The box that a header names, by its edges in nanodegrees. It may be any four numbers.
#[derive(Clone, Copy, Debug, PartialEq, Eq)]
pub struct HeaderBox {
    pub left: i64,
    pub right: i64,
    pub top: i64,
    pub bottom: i64,
}

/// A HeaderBlock: what a file says of itself. Texts are bytes, in any encoding.
#[derive(Debug, Drop)]
pub struct Header {
    pub bbox: Option<HeaderBox>,
    /// The features that a reader has to know.
    pub required: Vec<Vec<u8>>,
    /// The features that a reader may make use of.
    pub optional: Vec<Vec<u8>>,
    /// The program that wrote the file.
    pub program: Option<Vec<u8>>,
    /// Where the data come from.
    pub source: Option<Vec<u8>>,
    /// Where changes to the data are to be had.
    pub url: Option<Vec<u8>>,
    /// The time up to which changes are in the data, in seconds from 1970 on.
    pub timestamp: Option<i64>,
    /// The number of the newest change that is in the data.
    pub sequence: Option<i64>,
}

/// Whether the text is among the texts.
fn has(texts: &[Vec<u8>], text: &[u8]) -> bool
    ensures { result ≡ has_text (map text_of texts.now) text.now }
{
    texts.iter().any(|held| text == held.as_slice())
}

/// A text of one's own, if there is one.
pub(crate) fn copied(alloc: Global, text: Option<&[u8]>) -> Result<Option<Vec<u8>>, AllocError>
    ensures { IfOk result
        (λ owned. option_map text_of owned ≡ option_map (λ text. text.now) text.entry) }
{
    text.map(|text| Vec::from_slice(alloc, text)).transpose()
}

/// The required features of what is written.
pub(crate) fn known_features(alloc: Global) -> Result<Vec<Vec<u8>>, AllocError>
    ensures { IfOk result (λ features. map text_of features.items ≡ known_features) }
{
    let mut features = Vec::new(alloc);
    for feature in &KNOWN_FEATURES {
        features.push(Vec::from_slice(alloc, feature)?)?;
    }
    Ok(features)
}

/// Those of the optional features that what is written has too, each once.
pub(crate) fn kept_features(alloc: Global, optional: &[Vec<u8>]) -> Result<Vec<Vec<u8>>, AllocError>
    ensures { IfOk result
        (λ features. map text_of features.items ≡ kept_features (map text_of optional.now)) }
{
    let mut features = Vec::new(alloc);
    for feature in &KEPT_FEATURES {
        if has(optional, feature) {
            features.push(Vec::from_slice(alloc, feature)?)?;
        }
    }
    Ok(features)
}

impl Header {
    /// The header that is written for this one, with this box.
    fn written(&self, alloc: Global, bbox: Option<HeaderBox>) -> Result<Header, AllocError>
        ensures { IfOk result (λ header. header_of header ≡ header_out bbox (header_of self.now)) }
    {
        Ok(Header {
            bbox,
            required: known_features(alloc)?,
            optional: kept_features(alloc, &self.optional)?,
            program: Some(Vec::from_slice(alloc, PROGRAM)?),
            source: copied(alloc, self.source.as_deref())?,
            url: copied(alloc, self.url.as_deref())?,
            timestamp: self.timestamp,
            sequence: self.sequence,
        })
    }

    /// The header of an extract by this box from a file with this header. It names the box, the features that an extract has,
    /// the program `pbfcut`, and the source and the three replication fields of this header.
    pub fn for_box(&self, alloc: Global, area: BoundingBox) -> Result<Header, AllocError>
        ensures { IfOk result (λ header. header_of header
            ≡ header_out_for_box area (header_of self.now)) }
    {
        let bbox = HeaderBox {
            left: area.left,
            right: area.right,
            top: area.top,
            bottom: area.bottom,
        };
        self.written(alloc, Some(bbox))
    }

    /// The header of a file with the same entities in canonical form: as for [`Header::for_box`], with the box of this header,
    /// if it has one.
    pub fn for_convert(&self, alloc: Global) -> Result<Header, AllocError>
        ensures { IfOk result
            (λ header. header_of header ≡ header_out_for_convert (header_of self.now)) }
    {
        self.written(alloc, self.bbox)
    }
}
