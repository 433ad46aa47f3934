//! What holds of unpacked files. The functions do nothing: their contracts are the laws.

ghost use Rattle.pbf_unpack.specs.Laws.{RawMeansItself};

/// A file whose frames have no fault, so that all its blobs are raw, means itself.
#[tactic(auto, using(crate::proofs::RawLemmas::raw_means_itself))]
pub fn raw_means_itself()
    ensures { RawMeansItself }
{}
