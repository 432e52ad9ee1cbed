ghost use Rattle.std.specs.Prelude.{◌≡◌, ◌<◌, length, MatchOption};
ghost use Rattle.payload.specs.Kinds.{a_row, row_meaning};
ghost use Rattle.payload.specs.Proper.{row_proper};

use crate::Payload;
use crate::kinds::Row;

impl Row {
    /// A row of these edges; none where there are more than 8.
    pub fn new(edges: &[u32]) -> Option<Row>
        ensures { MatchOption result (8 < length edges.now) (λ row. row_meaning row ≡ a_row edges.now) }
    {
        if edges.len() > 8 {
            return None;
        }
        let mut copied = [0; 8];
        copied[..edges.len()].copy_from_slice(edges);
        Some(Row {
            width: edges.len() as u32,
            edges: copied,
        })
    }

    fn edges(&self) -> &[u32]
        ensures { result.now ≡ (row_meaning self.now).edges }
    {
        &self.edges[..self.width as usize]
    }
}

impl Payload for Row {
    ghost meaning = { row_meaning };

    ghost proper = { row_proper };

    fn kind(&self) -> u32 {
        4
    }

    fn traced(&self) -> bool {
        true
    }

    fn width(&self) -> u32 {
        self.width
    }

    fn edge(&self, position: u32) -> u32 {
        self.edges().get(position as usize).copied().unwrap_or(0)
    }

    fn replace_edge(&mut self, position: u32, edge: u32) {
        // No `get_mut`: the borrow checker does not cover the loan of a field beside ghost fields yet.
        if position < self.width {
            self.edges[position as usize] = edge;
        }
    }
}
