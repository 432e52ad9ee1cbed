ghost use Rattle.std.specs.Prelude.{◌≡◌, ℕ, List};
ghost use Rattle.list_reader.specs.Calls.{Said, one_number, no_more, numbers};
ghost use Rattle.list_reader.specs.Readings.{outcome, Reads};

use crate::fault::{Fault, ReadError};
use list_words::{Cursor, Word};
use std::alloc::Global;

/// The next word, which has to be a number.
pub fn next_number<'a>(words: &mut Cursor<'a>) -> Result<u32, Fault<'a>>
    ensures { (then : ℕ → List (List ℕ) → Said) → one_number words.old then ≡ outcome result (λ n. then n words.new) }
{
    match words.next() {
        Some(Word::Number(value, _)) => Ok(value),
        Some(Word::Other(word)) => Err(Fault::Unreadable(word)),
        None => Err(Fault::TooFew),
    }
}

/// The last word, which has to be a number: a word behind it is one too many.
pub fn last_number<'a>(mut words: Cursor<'a>) -> Result<u32, Fault<'a>>
    ensures { (then : ℕ → Said) → one_number words.entry (λ n rest. no_more rest (then n)) ≡ outcome result then }
{
    let value = next_number(&mut words)?;
    match words.next_bytes() {
        Some(word) => Err(Fault::Unreadable(word)),
        None => Ok(value),
    }
}

/// The words that are left: up to 8 numbers.
pub fn edges<'a>(heap: Global, words: Cursor<'a>) -> Result<Vec<u32>, ReadError<'a>>
    ensures { (then : List ℕ → Said) → Reads (Unit {0}) (numbers 8 words.entry then) result (λ es. then es.items) }
{
    let mut edges = Vec::new(heap);
    for word in words {
        match word {
            Word::Number(value, _) if edges.len() < 8 => edges.push(value)?,
            Word::Number(_, bytes) | Word::Other(bytes) => {
                return Err(Fault::Unreadable(bytes).into());
            }
        }
    }
    Ok(edges)
}
