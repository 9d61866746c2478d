// Bytes in hexadecimal: two digits in small letters for each byte, the high one first.
ghost use Rattle.std.specs.Prelude.{◌≡◌, ◌≢◌, ◌↔◌, ◌<◌, ◌+◌, ◌*◌, ◌/◌, ◌%◌, length, is_some, Some, MatchOption, MatchResult};
ghost use Rattle.std.specs.Simd.{first_chunks};
ghost use Rattle.std.specs.Int.{w64, to_be_bytes};
ghost use Rattle.console.specs.Hex.{digit_value, byte_of, bytes_of, hex_of, Unfit, ReadsBack};

use std::fmt;

// Why a word does not fill bytes.
#[derive(Clone, Copy, PartialEq, Eq, Debug)]
pub enum HexError {
    // It does not have two digits for each byte.
    Length,
    // Something in it is no digit.
    Digit,
}

// Fills `out` with the bytes that `word` writes, where it is hexadecimal and writes exactly so many. Else `out` may hold any bytes.
pub fn hex_fill(word: &[u8], out: &mut [u8]) -> Result<(), HexError>
    ensures value { MatchResult result (λ _. bytes_of word.now ≡ Some out.new) (λ _. Unfit word.now (length out.old)) }
    ensures why { result ≡ Err HexError.Length ↔ (length word.now ≢ 2 * length out.old) }
    ensures back { ReadsBack }
{
    if word.len() != 2 * out.len() {
        return Err(HexError::Length);
    }
    let (pairs, _) = word.as_chunks::<2>();
    // By index, since nothing is known of what a zip with `iter_mut` wrote.
    for (i, [high, low]) in pairs.iter().enumerate() {
        out[i] = byte(*high, *low).ok_or(HexError::Digit)?;
    }
    Ok(())
}

// Whether `word` is hexadecimal.
pub fn is_hex(word: &[u8]) -> bool
    ensures { result ≡ is_some (bytes_of word.now) }
{
    let Some(pairs) = pairs_of(word) else {
        return false;
    };
    pairs.iter().all(|[high, low]| byte(*high, *low).is_some())
}

// The digits of a word two at a time, or None where one is left over.
fn pairs_of(word: &[u8]) -> Option<&[[u8; 2]]>
    ensures { MatchOption result (length word.now % 2 ≢ 0) (λ pairs. (length word.now % 2 ≡ 0) × (pairs.now ≡ first_chunks 2 (length word.now / 2) word.now)) }
{
    let (pairs, rest) = word.as_chunks();
    rest.is_empty().then_some(pairs)
}

// The byte that a high and a low digit write.
fn byte(high: u8, low: u8) -> Option<u8>
    ensures { result ≡ byte_of (digit_value high) (digit_value low) }
{
    let high = digit_value(high)?;
    let low = digit_value(low)?;
    Some(from_digits(high, low))
}

// The byte of the values of a high and a low digit.
pub(crate) fn from_digits(high: u8, low: u8) -> u8
    requires high { high < 16 }
    requires low { low < 16 }
    ensures { result ≡ 16 * high + low }
{
    16 * high + low
}

// The value of a digit. Capitals are none here, so `to_digit` would take too many.
fn digit_value(b: u8) -> Option<u8>
    ensures { result ≡ digit_value b }
{
    match b {
        b'0'..=b'9' => Some(b - b'0'),
        b'a'..=b'f' => Some(b - b'a' + 10),
        _ => None,
    }
}

// Eight bytes as a number, the high one first. It is apart, since only of a parameter it is known that it holds eight, and bytes.
fn number(eight: &[u8; 8]) -> u64
    ensures { to_be_bytes w64 result ≡ eight.now }
{
    u64::from_be_bytes(*eight)
}

// Bytes that print in hexadecimal.
#[derive(Clone, Copy)]
pub struct Hex<'a>(pub &'a [u8]);

impl fmt::Display for Hex<'_> {
    ghost output = { λ h. Some (hex_of h.0.now) };

    fn fmt<W: fmt::Write>(&self, f: &mut fmt::Formatter<W>) -> fmt::Result {
        // Eight bytes to a `write!`, since a `write!` costs more than the digits of one byte.
        let (eights, last) = self.0.as_chunks::<8>();
        for eight in eights {
            let n = number(eight);
            write!(f, "{n:016x}")?;
        }
        for &b in last {
            write!(f, "{b:02x}")?;
        }
        Ok(())
    }
}
