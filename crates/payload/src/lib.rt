//! Payloads, by their meaning.
#![tactic(auto)]

ghost use Rattle.std.specs.Prelude.{◌≡◌, length, slice_index};
ghost use Rattle.payload.specs.Meaning.{Meaning, Proper, with_edge};

mod cells;
mod kinds;
mod mixed;
mod notes;
mod rows;
#[cfg(test)]
mod tests;

pub use kinds::{Cell, Mixed, Note, Row};

/// What an object carries. Asking changes nothing.
pub trait Payload {
    ghost meaning: { Self → Meaning };

    /// Which kind of payload it is, above 1.
    // A number and no enum: whoever writes a payload picks its kind.
    fn kind(&self) -> u32
        ensures { result ≡ (meaning self.now).kind };

    /// Whether tracing visits its edges.
    fn traced(&self) -> bool
        ensures { result ≡ (meaning self.now).traced };

    /// How many edges it has, 8 at most.
    fn width(&self) -> u32
        ensures { result ≡ length (meaning self.now).edges };

    /// The edge at a position, a birth or 0 for none; 0 also beyond the width.
    // No `Option`: 0 for none is the rules' own number.
    fn edge(&self, position: u32) -> u32
        ensures { result ≡ slice_index (meaning self.now).edges position };

    /// Replaces the edge at a position; beyond the width nothing.
    fn replace_edge(&mut self, position: u32, edge: u32)
        ensures { meaning self.new ≡ with_edge (meaning self.old) position edge };

    ghost proper: { (x : Self) → Proper (meaning x) };
}
