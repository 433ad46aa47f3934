//! What the passes of a call are compared by.

ghost use Rattle.std.specs.Prelude.{◌≡◌, ℕ, List, [], ◌++◌, replicate};
ghost use Rattle.std.specs.Int.{to_le_bytes, w64};
ghost use Rattle.pbf_pass.specs.Hashing as spec;
ghost use Rattle.pbf_pass.specs.Hashing.{HoldsBytes, digest_by};

use sha2::{Digest, Sha256};
use std::hash::{DefaultHasher, Hasher};

/// By what function the bytes of a pass are compared with those of the first.
#[derive(Clone, Copy)]
pub enum PassCheck {
    /// By none: a later pass that reads other bytes is not noticed.
    None,
    /// By SipHash-1-3 of this key, which is drawn for the run, and the bytes.
    Keyed(u128),
    /// By SHA-256.
    Sha256,
}

/// What a pass read, hashed by its check.
#[derive(Drop)]
pub struct PassHasher {
    pub(crate) check: PassCheck,
    pub(crate) keyed: DefaultHasher,
    pub(crate) sha256: Sha256,
}

impl PassHasher {
    /// Holds nothing.
    #[tactic(auto, using(crate::proofs::HashLemmas::written_none))]
    pub(crate) fn new(check: PassCheck) -> PassHasher
        ensures check { result.check ≡ check }
        ensures holds { HoldsBytes result [] }
    {
        PassHasher {
            check,
            keyed: match check {
                PassCheck::Keyed(key) => keyed(key),
                _ => DefaultHasher::new(),
            },
            sha256: Sha256::new(),
        }
    }

    /// Holds more bytes.
    #[tactic(auto, using(crate::proofs::HashLemmas::written_more))]
    pub(crate) fn update(&mut self, bytes: &[u8])
        ensures check { self.new.check ≡ self.old.check }
        ensures holds { (b : List ℕ) → HoldsBytes self.old b → HoldsBytes self.new (b ++ bytes.now) }
    {
        match self.check {
            PassCheck::None => {}
            PassCheck::Keyed(_) => self.keyed.write(bytes),
            PassCheck::Sha256 => self.sha256.update(bytes),
        }
    }

    /// The digest of what it holds. Another digest is begun.
    pub(crate) fn digest(&mut self) -> [u8; 32]
        ensures check { self.new.check ≡ self.old.check }
        ensures digest { (b : List ℕ) → HoldsBytes self.old b → result ≡ digest_by self.old.check b }
    {
        match self.check {
            PassCheck::None => [0; 32],
            PassCheck::Keyed(key) => {
                let word = self.keyed.finish();
                self.keyed = keyed(key);
                digest_of(word)
            }
            PassCheck::Sha256 => self.sha256.finalize_reset(),
        }
    }
}

/// A hasher that has taken a key.
fn keyed(key: u128) -> DefaultHasher
    ensures { result ≡ spec.keyed key }
{
    let mut hasher = DefaultHasher::new();
    hasher.write_u128(key);
    hasher
}

/// A word as the first 8 of 32 bytes.
fn digest_of(word: u64) -> [u8; 32]
    ensures { result ≡ to_le_bytes w64 word ++ replicate 24 0 }
{
    let [a, b, c, d, e, f, g, h] = word.to_le_bytes();
    [
        a, b, c, d, e, f, g, h, 0, 0, 0, 0, 0, 0, 0, 0, 0, 0, 0, 0, 0, 0, 0, 0, 0, 0, 0, 0, 0, 0,
        0, 0,
    ]
}
