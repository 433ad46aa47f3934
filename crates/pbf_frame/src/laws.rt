//! The laws of known bytes and of the frames of a file. Each is the contract of a function that does nothing: a proof that
//! needs the law calls it, or takes the lemma of that name from this crate's `proofs/`.

ghost use Rattle.std.specs.Prelude.{◌≡◌, ℕ, ◌<◌, Bool, List, [], ◌++◌, Option, None, Ok, Err, Some, false, length};
ghost use Rattle.pbf_wire.specs.declared.fault.Fault.{Fault};
ghost use Rattle.pbf_frame.specs.Devices.{prepend, append};
ghost use Rattle.pbf_frame.specs.Ends.{comes_of_end};
ghost use Rattle.pbf_wire.specs.Least.{least};
ghost use Rattle.pbf_wire.specs.declared.limits.TheConstants.{RAW_LIMIT};
ghost use Rattle.pbf_frame.specs.declared.frame.FrameKind.{FrameKind};
ghost use Rattle.pbf_frame.specs.declared.frame.FrameKind.TheVariants as kinds;
ghost use Rattle.pbf_frame.specs.Frames.{FrameSpec, frame_bytes, frame_end, frame_kind, frame_payload, order_faults, next_of};
ghost use Rattle.pbf_frame.specs.Sound.{IsFrame, IsFrameWithin, AreFrames, had_after, place_after, IsLongestFront};
ghost use Rattle.pbf_frame.specs.Writing.{written_at, written_frame};
ghost use Rattle.pbf_frame.specs.Verdict.{joined_frames, judged, with_all};

/// Nothing after the known bytes changes them.
#[tactic(auto, using(crate::proofs::KnownBytes::append_none))]
pub fn append_none()
    ensures { (known : Option (List ℕ)) → append known [] ≡ known }
{}

/// What is added in two parts is added at once.
#[tactic(auto, using(crate::proofs::KnownBytes::append_append))]
pub fn append_append()
    ensures { (known : Option (List ℕ)) (xs ys : List ℕ)
        → append (append known xs) ys ≡ append known (xs ++ ys) }
{}

/// Nothing before the known bytes changes them.
#[tactic(auto, using(crate::proofs::KnownBytes::prepend_none))]
pub fn prepend_none()
    ensures { (known : Option (List ℕ)) → prepend [] known ≡ known }
{}

/// Bytes prepended in two parts are prepended at once.
#[tactic(auto, using(crate::proofs::KnownBytes::prepend_prepend))]
pub fn prepend_prepend()
    ensures { (known : Option (List ℕ)) (xs ys : List ℕ)
        → prepend xs (prepend ys known) ≡ prepend (xs ++ ys) known }
{}

/// A frame without a fault is read whatever follows it; and what is read as the next frame is one, and spells the bytes that
/// are gone.
#[tactic(auto, using(crate::proofs::Longest::frame_is_next, crate::proofs::Longest::next_is_frame, crate::proofs::Parting::next_split))]
pub fn one_frame()
    ensures reads { (had_header : Bool) (place : ℕ) (f : FrameSpec) (rest : List ℕ)
        → IsFrame had_header place f
        → next_of had_header place (frame_bytes f ++ rest) ≡ Ok (Some f, rest) }
    ensures sound { (had_header : Bool) (place : ℕ) (bytes : List ℕ) (f : FrameSpec) (rest : List ℕ)
        → next_of had_header place bytes ≡ Ok (Some f, rest) → IsFrame had_header place f }
    ensures spells { (had_header : Bool) (place : ℕ) (bytes : List ℕ) (f : FrameSpec)
        (rest : List ℕ) → next_of had_header place bytes ≡ Ok (Some f, rest)
        → bytes ≡ frame_bytes f ++ rest }
{}

/// The fault of the next frame stays, whatever follows the bytes, unless it comes of their end: the file is cut there, or it has no
/// header.
#[tactic(auto, using(crate::proofs::Staying::next_stays))]
pub fn fault_stays()
    ensures { (had_header : Bool) (place : ℕ) (bytes rest : List ℕ) (fault : Fault)
        → next_of had_header place bytes ≡ Err fault → comes_of_end fault.reason ≡ false
        → next_of had_header place (bytes ++ rest) ≡ Err fault }
{}

/// The verdict on bytes that begin with frames is these frames, and then those of the verdict on what follows.
#[tactic(auto, using(crate::proofs::Longest::frames_then_rest))]
pub fn frames_then_rest()
    ensures { (had_header : Bool) (place : ℕ) (frames : List FrameSpec) (rest : List ℕ)
        → AreFrames had_header place frames
        → judged had_header place (joined_frames frames ++ rest)
        ≡ with_all frames (judged (had_after had_header frames) (place_after place frames) rest) }
{}

/// The frames of the verdict are the longest list of frames without faults whose spellings, joined, begin the bytes; and its
/// fault is that of what follows them.
#[tactic(auto, using(crate::proofs::Longest::longest_front))]
pub fn longest_front()
    ensures { (had_header : Bool) (place : ℕ) (bytes : List ℕ)
        → IsLongestFront had_header place bytes (judged had_header place bytes) }
{}

/// A frame in written form has no fault if its order and its end have none; its kind and its payload are those that were
/// written, and its bytes are the same wherever it is.
#[tactic(auto, using(crate::proofs::ReadBack::written_kind, crate::proofs::ReadBack::written_payload))]
pub fn written_frame_is_read()
    ensures sound { (limit : Option ℕ) (had_header : Bool) (place : ℕ) (kind : FrameKind)
        (payload : List ℕ) → (kind ≡ kinds.Other → ⊥) → length payload < RAW_LIMIT
        → least (order_faults limit had_header place kind
        (frame_end (written_at place kind payload))) ≡ None
        → IsFrameWithin limit had_header place (written_at place kind payload) }
    ensures kind { (place : ℕ) (kind : FrameKind) (payload : List ℕ) → (kind ≡ kinds.Other → ⊥)
        → length payload < RAW_LIMIT → frame_kind (written_at place kind payload) ≡ kind }
    ensures payload { (place : ℕ) (kind : FrameKind) (payload : List ℕ) → (kind ≡ kinds.Other → ⊥)
        → length payload < RAW_LIMIT → frame_payload (written_at place kind payload) ≡ payload }
    ensures bytes { (place : ℕ) (kind : FrameKind) (payload : List ℕ)
        → frame_bytes (written_at place kind payload) ≡ written_frame kind payload }
{}
