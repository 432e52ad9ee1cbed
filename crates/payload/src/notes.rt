ghost use Rattle.std.specs.Prelude.{◌≡◌};
ghost use Rattle.payload.specs.Meaning.{with_edge};
ghost use Rattle.payload.specs.Kinds.{note_meaning};
ghost use Rattle.payload.specs.Proper.{note_proper};

use crate::Payload;
use crate::kinds::Note;

impl Payload for Note {
    ghost meaning = { note_meaning };

    ghost proper = { note_proper };

    fn kind(&self) -> u32 {
        2
    }

    fn traced(&self) -> bool {
        false
    }

    fn width(&self) -> u32 {
        0
    }

    fn edge(&self, _position: u32) -> u32 {
        0
    }

    fn replace_edge(&mut self, position: u32, edge: u32)
        ensures means { note_meaning self.new ≡ with_edge (note_meaning self.old) position edge }
        ensures number { self.new ≡ self.old }
    {}
}
