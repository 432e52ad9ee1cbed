ghost use Rattle.std.specs.Prelude.{◌≡◌};
ghost use Rattle.list_words.specs.Numbers.{longer, number};

/// The number that `value` becomes with one digit more behind it.
fn with_digit(value: u32, byte: u8) -> Option<u32>
    ensures { result ≡ longer value byte }
{
    match byte {
        b'0'..=b'9' => value.checked_mul(10)?.checked_add((byte - b'0') as u32),
        _ => None,
    }
}

/// The decimal number that a word writes, if it writes one of 32 bits.
// No `parse`: it takes a sign and asks for text, so two tests of the bytes would stand before it.
pub fn number(word: &[u8]) -> Option<u32>
    ensures { result ≡ number word.now }
{
    if word.is_empty() {
        return None;
    }
    let mut value: u32 = 0;
    for byte in word {
        value = with_digit(value, *byte)?;
    }
    Some(value)
}
