//! `info`: the first header of a file, and how many frames there are of each type.

ghost use Rattle.std.specs.Prelude.{◌≡◌, ◌++◌, decimal, None, Some, false, IfOk, IfErr, OnOk};
ghost use Rattle.osm_text.specs.HeaderJson.{header_members};
ghost use Rattle.osm_text.specs.HeaderText.{header_text};
ghost use Rattle.pbf_header.specs.Header.{header_of};
ghost use Rattle.pbf_frame.specs.Frames.{frame_kind};
ghost use Rattle.pbf_frame.specs.declared.frame.FrameKind.TheVariants as kind;
ghost use Rattle.pbf_frame.specs.Keeps.{KeepsFeed};
ghost use Rattle.pbf_frame.specs.Verdict.{judged_known};
ghost use Rattle.pbf_pass.specs.Given.{GaveFile};
ghost use Rattle.pbf_pass.specs.Hashing.{no_mark};
ghost use Rattle.pbf_pass.specs.Payload.{lent_by, payload_of};
ghost use Rattle.pbf_pass.specs.Stops.{Caused, FaultOf, Only, ReadFailed, unchanged};
ghost use Rattle.pbfcut.specs.Summary.{IsSummary, Sums, counts_line, counts_object, fault_of_header, heading_fault, judged_headings};

use osm_text::{put_header, put_header_members, put_number};
use pbf_frame::{Feed, Frame, FrameKind, Stop};
use pbf_header::Header;
use pbf_pass::{PassCheck, Passes, Visit, pass_over};
use std::alloc::{AllocError, Global};

/// What the frames of a file are.
#[derive(Debug, Drop)]
pub struct Summary {
    /// The lines of the first header.
    pub lines: Vec<u8>,
    /// What a JSON object has of it.
    pub members: Vec<u8>,
    /// How many frames are headers.
    pub headers: u64,
    /// How many hold entities.
    pub blocks: u64,
    /// How many are of other types.
    pub others: u64,
}

impl Summary {
    /// Keeps the texts of a header, if it is the first.
    fn keep_texts(&mut self, header: &Header) -> Result<(), AllocError>
        ensures lines { OnOk result (self.old.headers ≡ 0
            → self.new.lines.items ≡ header_text (header_of header.now)) }
        ensures members { OnOk result (self.old.headers ≡ 0
            → self.new.members.items ≡ header_members (header_of header.now)) }
        ensures later { (self.old.headers ≡ 0 → ⊥) → self.new ≡ self.old }
        ensures headers { self.new.headers ≡ self.old.headers }
        ensures blocks { self.new.blocks ≡ self.old.blocks }
        ensures others { self.new.others ≡ self.old.others }
    {
        if self.headers > 0 {
            return Ok(());
        }
        self.lines.clear();
        self.members.clear();
        put_header(&mut self.lines, header)?;
        put_header_members(&mut self.members, header)
    }

    /// Judges a header, and counts it.
    fn add_header(&mut self, alloc: Global, frame: &Frame<'_>) -> Result<(), Stop>
        requires { frame.now.kind ≡ kind.Header }
        ensures added { OnOk result (Sums frame.now.kind (lent_by frame.now) self.old self.new) }
        ensures stops { IfErr result
            (Caused (Only (fault_of_header (lent_by frame.now))) ⊥ ⊥ unchanged) }
    {
        let header = Header::read(alloc, frame.payload, frame.payload_at)?;
        self.keep_texts(&header)?;
        self.headers = self.headers.saturating_add(1);
        Ok(())
    }
}

impl Visit for Summary {
    ghost took = { λ old f new. Sums (frame_kind f) (payload_of f) old new };

    ghost failed = { λ _ f _ stop. Caused (Only (heading_fault f)) ⊥ ⊥ unchanged stop };

    fn visit(&mut self, alloc: Global, frame: &Frame<'_>) -> Result<(), Stop> {
        match frame.kind {
            FrameKind::Header => self.add_header(alloc, frame),
            FrameKind::Data => {
                self.blocks = self.blocks.saturating_add(1);
                Ok(())
            }
            FrameKind::Other => {
                self.others = self.others.saturating_add(1);
                Ok(())
            }
        }
    }
}

/// Appends a number after these bytes.
fn put_count(out: &mut Vec<u8>, before: &[u8], count: u64) -> Result<(), AllocError>
    ensures { OnOk result (out.new.items ≡ out.old.items ++ before.now ++ decimal count) }
{
    out.extend_from_slice(before)?;
    put_number(out, count)
}

/// Appends the line that says how many frames there are of each type.
pub fn put_counts(out: &mut Vec<u8>, summary: &Summary) -> Result<(), AllocError>
    ensures { OnOk result (out.new.items ≡ out.old.items
        ++ counts_line summary.now.headers summary.now.blocks summary.now.others) }
{
    put_count(out, b"H frames OSMHeader ", summary.headers)?;
    put_count(out, b" OSMData ", summary.blocks)?;
    put_count(out, b" other ", summary.others)?;
    out.push(b'\n')?;
    Ok(())
}

/// Appends an object of JSON that says how many frames there are of each type.
pub fn put_counts_object(out: &mut Vec<u8>, summary: &Summary) -> Result<(), AllocError>
    ensures { OnOk result (out.new.items ≡ out.old.items
        ++ counts_object summary.now.headers summary.now.blocks summary.now.others) }
{
    put_count(out, b"{\"OSMHeader\":", summary.headers)?;
    put_count(out, b",\"OSMData\":", summary.blocks)?;
    put_count(out, b",\"other\":", summary.others)?;
    out.push(b'}')?;
    Ok(())
}

/// Reads the frames of a whole file, and judges them and the header, but not what the other frames hold.
///
/// `Refused` names the first fault of a frame or of the header. Reads each byte once, and holds one frame at a time.
pub fn read_summary<F: Feed>(alloc: Global, feed: &mut F) -> Result<Summary, Stop>
    // The feed gave a file, to its end, and the summary is that of its frames. They and its header have no fault.
    ensures gave { IfOk result (λ s. GaveFile F.Feed feed.old feed.new no_mark
        (λ file. IsSummary (judged_known false 0 (Some file)) s)) }
    // Each stop has its cause. `Refused` names the first fault of the frames, or that of the header before them. `Read` comes only if the
    // feed's count of failures rose; `Write` and `Changed` never come.
    ensures stops { IfErr result (Caused (FaultOf (judged_headings (F.remaining feed.old)))
        (ReadFailed F.Feed feed.old feed.new) ⊥ unchanged) }
    // The feed keeps its references, and its count of failures doesn't fall.
    ensures keeps { KeepsFeed F.Feed feed.old feed.new }
{
    let passes = Passes {
        alloc,
        check: PassCheck::None,
    };
    let mut summary = Summary {
        lines: Vec::new(alloc),
        members: Vec::new(alloc),
        headers: 0,
        blocks: 0,
        others: 0,
    };
    pass_over(passes, feed, &mut summary)?;
    Ok(summary)
}
