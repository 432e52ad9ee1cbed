ghost use Rattle.std.specs.Prelude.{◌≡◌, ℕ, List};
ghost use Rattle.std.specs.Iterator.{YieldsFirstRef, item_count};
ghost use Rattle.list_words.specs.Pieces.{words, words_left};
ghost use Rattle.list_words.specs.Words.{Yields};

use crate::cut::cut;
use crate::number::number;
use std::marker::Model;

/// A word of a line, as the cursor yields it.
// No `Option` beside the bytes: who reads a word asks first which of the two it is.
#[derive(Clone, Copy, PartialEq, Eq, Debug)]
pub enum Word<'a> {
    /// A decimal number of 32 bits, and the bytes that write it.
    Number(u32, &'a [u8]),
    /// Any other word.
    Other(&'a [u8]),
}

/// Goes through a line word by word.
#[derive(Debug, Drop)]
pub struct Cursor<'a> {
    rest: Option<&'a [u8]>,
}

impl<'a> Model for Cursor<'a> {
    ghost Value = { List (List ℕ) };

    ghost view = { λ s. words_left s.rest };
}

impl<'a> Cursor<'a> {
    pub fn new(line: &'a [u8]) -> Cursor<'a>
        ensures { result ≡ words line.now }
    {
        Cursor { rest: Some(line) }
    }

    /// The bytes of the next word.
    pub fn next_bytes(&mut self) -> Option<&'a [u8]>
        ensures { YieldsFirstRef (λ left. left) self.old result self.new }
    {
        let (word, rest) = cut(self.rest?, b' ');
        self.rest = rest;
        Some(word)
    }
}

impl<'a> Iterator for Cursor<'a> {
    type Item = Word<'a>;

    ghost next_gives = { Yields };

    ghost remaining = { item_count (λ left. left) };

    /// The next word, a number or another.
    fn next(&mut self) -> Option<Word<'a>> {
        let word = self.next_bytes()?;
        match number(word) {
            Some(value) => Some(Word::Number(value, word)),
            None => Some(Word::Other(word)),
        }
    }
}
