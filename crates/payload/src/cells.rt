ghost use Rattle.std.specs.Prelude.{◌≡◌};
ghost use Rattle.payload.specs.Kinds.{a_cell, cell_meaning};
ghost use Rattle.payload.specs.Proper.{cell_proper};

use crate::Payload;
use crate::kinds::Cell;

impl Cell {
    pub fn new(edge: u32) -> Cell
        ensures { cell_meaning result ≡ a_cell edge }
    {
        Cell { edge }
    }
}

impl Payload for Cell {
    ghost meaning = { cell_meaning };

    ghost proper = { cell_proper };

    fn kind(&self) -> u32 {
        3
    }

    fn traced(&self) -> bool {
        false
    }

    fn width(&self) -> u32 {
        1
    }

    fn edge(&self, position: u32) -> u32 {
        if position == 0 { self.edge } else { 0 }
    }

    fn replace_edge(&mut self, position: u32, edge: u32) {
        if position == 0 {
            self.edge = edge;
        }
    }
}
