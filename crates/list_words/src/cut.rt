ghost use Rattle.std.specs.Prelude.{◌≡◌, ◌≤◌, length, position, ◌==◌};
ghost use Rattle.list_words.specs.Pieces.{Cut};

/// Where the first `separator` stands.
// No `position` of the iterator: over long words it takes half as long again.
fn find(bytes: &[u8], separator: u8) -> Option<usize>
    ensures { result ≡ position (λ b. b == separator) bytes.now }
{
    for (place, b) in bytes.iter().enumerate() {
        if *b == separator {
            return Some(place);
        }
    }
    None
}

/// What stands before the first `separator`, and what behind it if there is one.
// No `slice::split`: its contract says how many parts there are, and not which.
pub fn cut(bytes: &[u8], separator: u8) -> (&[u8], Option<&[u8]>)
    ensures { Cut separator bytes.now result.0.now result.1 }
{
    match find(bytes, separator) {
        Some(end) => (&bytes[..end], Some(&bytes[end + 1..])),
        None => (bytes, None),
    }
}
