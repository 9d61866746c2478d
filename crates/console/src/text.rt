// The TEXT of a command. A backslash begins one of three forms: `\n` is a line feed, `\\` a backslash, and `\xHH` the byte
// of two hexadecimal digits. Every other byte stands for itself.
ghost use Rattle.std.specs.Prelude.{◌≡◌, ◌+◌, ◌<◌, min, length, take, drop, is_some, if◌then◌else◌, None, MatchOption, nat_lt, slice_set};
ghost use Rattle.std.specs.Option.{option_map};
ghost use Rattle.console.specs.Text.{any_digit_value, escaped_byte, text_of, Begins, TextsFit};

use crate::hex::from_digits;

// Fills the front of `out` with the bytes that `written` stands for, as many as find a place there, and says how many
// these are, as `Read::read` does. None where `written` is no TEXT; `out` may then hold any bytes.
pub fn unescape(written: &[u8], out: &mut [u8]) -> Option<usize>
    ensures count { result ≡ option_map (λ text. min (length text) (length out.old)) (text_of written.now) }
    ensures text { option_map (λ n. take n out.new) result ≡ option_map (take (length out.old)) (text_of written.now) }
    ensures kept { option_map (λ n. drop n out.new) result ≡ option_map (λ n. drop n out.old) result }
    ensures law { TextsFit }
{
    let mut rest = written;
    // counted by hand, since a text that is longer than `out` is read to its end
    let mut n = 0;
    while !rest.is_empty() {
        let (b, after) = next_byte(rest)?;
        n = put_byte(out, n, b);
        rest = after;
    }
    Some(n)
}

// Whether `written` is a TEXT.
pub fn is_text(written: &[u8]) -> bool
    ensures { result ≡ is_some (text_of written.now) }
{
    unescape(written, &mut []).is_some()
}

// Puts a byte at the place n of `out`, if it has that place, and says which place is next.
fn put_byte(out: &mut [u8], n: usize, b: u8) -> usize
    ensures bytes { out.new ≡ (if nat_lt n (length out.old) then slice_set out.old n b else out.old) }
    ensures next { result ≡ (if nat_lt n (length out.old) then n + 1 else n) }
{
    if n < out.len() {
        out[n] = b;
        n + 1
    } else {
        n
    }
}

// The byte that the front of a TEXT stands for, and what is written after it. None where the front is wrongly written.
fn next_byte(written: &[u8]) -> Option<(u8, &[u8])>
    requires { 0 < length written.now }
    ensures { MatchOption result (text_of written.now ≡ None) (λ p. Begins written.now p.0 p.1.now) }
{
    match written {
        [b'\\', b'x', high, low, after @ ..] => {
            let high = any_digit_value(*high)?;
            let low = any_digit_value(*low)?;
            Some((from_digits(high, low), after))
        }
        [b'\\', b, after @ ..] => Some((escaped_byte(*b)?, after)),
        [] | [b'\\'] => None,
        [b, after @ ..] => Some((*b, after)),
    }
}

// The byte that a backslash and `b` stand for.
fn escaped_byte(b: u8) -> Option<u8>
    ensures { result ≡ escaped_byte b }
{
    match b {
        b'n' => Some(b'\n'),
        b'\\' => Some(b'\\'),
        _ => None,
    }
}

// The value of a digit, also in capitals.
fn any_digit_value(b: u8) -> Option<u8>
    ensures { result ≡ any_digit_value b }
{
    let d = char::from(b).to_digit(16)?;
    u8::try_from(d).ok()
}
