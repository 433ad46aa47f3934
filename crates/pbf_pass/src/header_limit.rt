//! The limit of the header that is written.

ghost use Rattle.std.specs.Prelude.{◌≡◌, Some, None, IfOk, IfErr};
ghost use Rattle.std.specs.Option.{option_map};
ghost use Rattle.osm_entity.specs.Weight.{text_weight};
ghost use Rattle.pbf_header.specs.Header.{header_of, text_of};
ghost use Rattle.pbf_pass.specs.HeaderLimit.{HasShortTexts};
ghost use Rattle.pbf_frame.specs.declared.stop.Stop.TheVariants.{Refused};
ghost use Rattle.pbf_wire.specs.declared.fault.Reason.TheVariants.{Unsorted};
ghost use Rattle.pbf_wire.specs.Faults.{fault};
ghost use Rattle.pbf_pass.specs.HeaderLimit.{has_short_texts, held_header, header_limit};
ghost use Rattle.pbf_pass.specs.Refused.{halted, IsLimitRefused};

use crate::pass::Judged;
use crate::receipt::Halt;
use pbf_frame::Stop;
use pbf_header::{Header, MOST_HEADER_TEXT};
use pbf_wire::{Fault, Reason};

/// The header of the file that was judged, if it can be written: its source and its base URL have at most [`MOST_HEADER_TEXT`] bytes
/// together. Otherwise it is refused like an entity that is too large, at the place of its message, after all bytes of the file.
pub fn writable_header(told: &Judged) -> Result<&Header, Halt>
    ensures header { IfOk result (λ header. held_header told.now.pass
        ≡ Some (told.now.pass.header_at, header_of header.now)) }
    ensures within { IfOk result (λ header. header_limit (held_header told.now.pass) ≡ None) }
    ensures short { IfOk result (λ header. HasShortTexts (header_of header.now)) }
    ensures refused { IfErr result (IsLimitRefused told.now) }
{
    let Some(header) = &told.pass.header else {
        // A file without a fault has a header.
        return Err(told.refuse(0, Reason::NoHeader));
    };
    if !has_short_texts(header) {
        return Err(told.refuse(told.pass.header_at, Reason::EntityLarge));
    }
    Ok(header)
}

impl Judged {
    /// Refuses the file that was judged, since it isn't sorted by type: at the place of its header, after all of its bytes.
    pub fn unsorted(&self) -> Halt
        ensures { result
            ≡ halted (Refused (fault self.now.pass.header_at Unsorted)) self.now.count self.now.digest }
    {
        self.refuse(self.pass.header_at, Reason::Unsorted)
    }

    /// Refuses the file that was judged, after all of its bytes.
    fn refuse(&self, offset: u64, reason: Reason) -> Halt
        ensures { result ≡ halted (Refused (fault offset reason)) self.now.count self.now.digest }
    {
        Halt::new(
            Stop::Refused(Fault { offset, reason }),
            self.count,
            self.digest,
        )
    }
}

/// Whether a header's source and base URL are not too long together to be written.
fn has_short_texts(header: &Header) -> bool
    ensures value { result ≡ has_short_texts (header_of header.now) }
{
    text_len(&header.source).saturating_add(text_len(&header.url)) <= MOST_HEADER_TEXT
}

/// The length of a text, and 0 if there is none.
fn text_len(text: &Option<Vec<u8>>) -> u64
    ensures { result ≡ text_weight (option_map text_of text.now) }
{
    match text {
        Some(text) => text.len() as u64,
        None => 0,
    }
}
