//! The parts of a decimal number: text in, digits out. Boxes and polygons are read by them.

ghost use Rattle.std.specs.Prelude.{◌≡◌, ◌<◌, ◌≤◌, ◌^◌, length, IfSome, option_map};
ghost use Rattle.std.specs.List.{list_all};
ghost use Rattle.std.specs.Char.{is_ascii_digit};
ghost use Rattle.osm_box.specs.Degrees.{cut_of, digits_of, halves_of};

/// The text before and after the first such ASCII character, if there is one.
pub fn cut_at_char(text: &str, at: char) -> Option<(&str, &str)>
    requires { at < 128 }
    ensures { option_map (λ p. (p.0.now, p.1.now)) result ≡ cut_of at text.now }
{
    text.split_once(at)
}

/// Whether each byte is a decimal digit.
fn all_digits(bytes: &[u8]) -> bool
    ensures { result ≡ list_all is_ascii_digit bytes.now }
{
    bytes.iter().all(|byte| byte.is_ascii_digit())
}

/// The number that a text of one to `most` decimal digits writes, and `None` for any other text. `most` is at most 18, so that each fits.
pub fn digits(text: &str, most: usize) -> Option<u64>
    requires { most ≤ 18 }
    ensures value { result ≡ digits_of most text.now }
    ensures below { IfSome result (λ n. n < 10 ^ length text.now) }
    ensures sized { IfSome result (λ n. length text.now ≤ most) }
{
    if text.is_empty() || text.len() > most || !all_digits(text.as_bytes()) {
        return None;
    }
    text.parse::<u64>().ok()
}

/// The texts before and after the decimal point. Without a point it is as with `.0`.
pub fn halves(text: &str) -> (&str, &str)
    ensures { (result.0.now, result.1.now) ≡ halves_of text.now }
{
    cut_at_char(text, '.').unwrap_or((text, "0"))
}
