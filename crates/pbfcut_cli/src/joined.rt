//! The words as `clap` gets them: the box as a word of its own, `--box -0.5,51.25,0.3,51.7`, and `help` as a command.

ghost use Rattle.std.specs.Prelude.{◌≡◌, ◌≤◌, ◌∷◌, IfOk, length, map, string_bytes};
ghost use Rattle.pbfcut_cli.specs.Joined.{begins_below_zero, begins_number, begins_with_box, box_joined, names_box, normalized};

use std::alloc::{AllocError, Global};

/// Whether the byte is a digit or a point.
fn begins_number(byte: u8) -> bool
    ensures { result ≡ begins_number byte }
{
    byte == b'.' || byte >= b'0' && byte <= b'9'
}

/// Whether the word begins with `-` and a digit or a point.
fn begins_below_zero(word: &str) -> bool
    ensures { result ≡ begins_below_zero word.now }
{
    let bytes = word.as_bytes();
    let Some((b'-', rest)) = bytes.split_first() else {
        return false;
    };
    let Some((byte, _)) = rest.split_first() else {
        return false;
    };
    begins_number(*byte)
}

/// Whether the word is `--box` or one of its other names.
fn names_box(word: &str) -> bool
    ensures { result ≡ names_box word.now }
{
    word == "--box" || word == "--bbox" || word == "-b"
}

/// Whether the first word names the box, and the one after it begins below zero.
fn begins_with_box(first: &str, after: &[String]) -> bool
    ensures { result ≡ begins_with_box (first.now ∷ map string_bytes after.now) }
{
    let Some((edges, _)) = after.split_first() else {
        return false;
    };
    names_box(first) && begins_below_zero(edges.as_str())
}

/// The first of the words as `clap` gets it, and the words after it.
fn join_first<'a>(
    alloc: Global,
    first: &str,
    after: &'a [String],
) -> Result<(String, &'a [String]), AllocError>
    ensures joined { IfOk result (λ p. string_bytes p.0 ∷ box_joined (map string_bytes p.1.now)
        ≡ box_joined (first.now ∷ map string_bytes after.now)) }
    ensures less { IfOk result (λ p. length p.1.now ≤ length after.now) }
{
    if begins_with_box(first, after) {
        let Some((edges, rest)) = after.split_first() else {
            unreachable!();
        };
        return Ok((format!(in alloc; "{first}={edges}")?, rest));
    }
    Ok((String::from_str(alloc, first)?, after))
}

/// The words, with `--box` and a word after it that begins with `-` and a digit or a point as one word. `clap` takes no word
/// that begins with `-` for a value.
fn join_box(alloc: Global, words: &[String]) -> Result<Vec<String>, AllocError>
    ensures { IfOk result (λ joined. map string_bytes joined.items
        ≡ box_joined (map string_bytes words.now)) }
{
    let mut joined = Vec::new(alloc);
    let mut rest = words;
    while let Some((first, after)) = rest.split_first() {
        let (word, left) = join_first(alloc, first.as_str(), after)?;
        joined.push(word)?;
        rest = left;
    }
    Ok(joined)
}

/// The words of the command line as `read_words` takes them: `--box`, `--bbox` or `-b`, and a word after it that begins with `-` and a digit
/// or a point, are one word, as `--box=-0.5,51.25,0.3,51.7`; and `help` as the first word is `--help` as the last one. Other words
/// stay as they are.
///
/// # Errors
///
/// If a request for memory was refused.
pub fn normalize_words(alloc: Global, words: &[String]) -> Result<Vec<String>, AllocError>
    ensures { IfOk result (λ seen. map string_bytes seen.items
        ≡ normalized (map string_bytes words.now)) }
{
    let Some((first, rest)) = words.split_first() else {
        return Ok(Vec::new(alloc));
    };
    if first.as_str() == "help" {
        let mut seen = join_box(alloc, rest)?;
        seen.push(String::from_str(alloc, "--help")?)?;
        return Ok(seen);
    }
    join_box(alloc, words)
}
