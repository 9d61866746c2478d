// Numbers in decimal digits.
ghost use Rattle.std.specs.Prelude.{◌≡◌, ◌^◌, nat_lt};
ghost use Rattle.console.specs.Numbers.{digits_value, with_digit, unsigned_of, signed_of};

// The number of 64 bits that `word` writes, or None where it writes none. The library's `parse` would take a `+` before it.
pub fn unsigned(word: &[u8]) -> Option<u64>
    ensures { result ≡ unsigned_of word.now }
{
    match word {
        [] => None,
        _ => digits_value(word),
    }
}

// The number from -2^63 to 2^63 - 1 that `word` writes, or None where it writes none. `-0` is 0.
pub fn signed(word: &[u8]) -> Option<i64>
    ensures { result ≡ signed_of word.now }
{
    match word {
        [b'-', digits @ ..] => 0i64.checked_sub_unsigned(unsigned(digits)?),
        _ => i64::try_from(unsigned(word)?).ok(),
    }
}

// The value of digits, of which there may be none.
fn digits_value(word: &[u8]) -> Option<u64>
    ensures { result ≡ digits_value (λ n. nat_lt n (2 ^ 64)) 0 word.now }
{
    word.iter().copied().try_fold(0, with_digit)
}

// The number that `n` becomes by one more digit after its own.
fn with_digit(n: u64, b: u8) -> Option<u64>
    ensures { result ≡ with_digit n b }
{
    let d = u64::from(char::from(b).to_digit(10)?);
    n.checked_mul(10)?.checked_add(d)
}
