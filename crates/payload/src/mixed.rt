ghost use Rattle.payload.specs.Kinds.{mixed_meaning};
ghost use Rattle.payload.specs.Proper.{mixed_proper};

use crate::Payload;
use crate::kinds::Mixed;

impl<A: Payload, B: Payload> Payload for Mixed<A, B> {
    ghost meaning = { mixed_meaning A.meaning B.meaning };

    ghost proper = { mixed_proper A.meaning B.meaning A.proper B.proper };

    // Passed on one by one: Rust has no shorter form, and the trait does not know what is held.
    fn kind(&self) -> u32 {
        match self {
            Mixed::Left(a) => a.kind(),
            Mixed::Right(b) => b.kind(),
        }
    }

    fn traced(&self) -> bool {
        match self {
            Mixed::Left(a) => a.traced(),
            Mixed::Right(b) => b.traced(),
        }
    }

    fn width(&self) -> u32 {
        match self {
            Mixed::Left(a) => a.width(),
            Mixed::Right(b) => b.width(),
        }
    }

    fn edge(&self, position: u32) -> u32 {
        match self {
            Mixed::Left(a) => a.edge(position),
            Mixed::Right(b) => b.edge(position),
        }
    }

    fn replace_edge(&mut self, position: u32, edge: u32) {
        match self {
            Mixed::Left(a) => a.replace_edge(position, edge),
            Mixed::Right(b) => b.replace_edge(position, edge),
        }
    }
}
