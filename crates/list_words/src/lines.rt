ghost use Rattle.std.specs.Prelude.{◌≡◌, ℕ, List};
ghost use Rattle.std.specs.Iterator.{YieldsFirstRef, item_count};
ghost use Rattle.list_words.specs.Pieces.{lines, counted, SplitAgain};

use crate::cut::cut;
use std::marker::Model;

/// How many bytes of a list count.
pub const LIMIT: usize = 65536;

/// Goes through a list line by line. Each line comes without its newline.
#[derive(Debug, Drop)]
pub struct Lines<'a> {
    rest: &'a [u8],
}

impl<'a> Model for Lines<'a> {
    ghost Value = { List (List ℕ) };

    ghost view = { λ s. lines s.rest.now };
}

impl<'a> Lines<'a> {
    /// Only the first `LIMIT` bytes count.
    pub fn new(list: &'a [u8]) -> Lines<'a>
        ensures lines { result ≡ lines (counted list.now) }
        ensures again { SplitAgain list.now result }
    {
        Lines {
            rest: &list[..LIMIT.min(list.len())],
        }
    }
}

impl<'a> Iterator for Lines<'a> {
    type Item = &'a [u8];

    ghost next_gives = { YieldsFirstRef (λ left. left) };

    ghost remaining = { item_count (λ left. left) };

    fn next(&mut self) -> Option<&'a [u8]> {
        if self.rest.is_empty() {
            return None;
        }
        let (line, rest) = cut(self.rest, b'\n');
        self.rest = rest.unwrap_or(&[]);
        Some(line)
    }
}
