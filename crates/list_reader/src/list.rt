ghost use Rattle.std.specs.Prelude.{◌≡◌, map, IfOk};
ghost use Rattle.list_words.specs.Pieces.{lines, counted};
ghost use Rattle.list_reader.specs.Calls.{says};
ghost use Rattle.list_reader.specs.Readings.{said};
ghost use Rattle.list_reader.specs.Written.{ListBack};

use crate::call::Call;
use crate::fault::{Fault, ReadError};
use crate::read::read_call;
use list_words::Lines;
use std::alloc::{AllocError, Global};

/// What a line asks for, or why for nothing.
pub type Line<'a> = Result<Call, Fault<'a>>;

fn read_line(heap: Global, line: &[u8]) -> Result<Line<'_>, AllocError>
    ensures { IfOk result (λ read. said read ≡ says line.now) }
{
    match read_call(heap, line) {
        Ok(call) => Ok(Ok(call)),
        Err(ReadError::Fault(fault)) => Ok(Err(fault)),
        Err(ReadError::Memory(error)) => Err(error),
    }
}

/// What the lines of a list say, one after another.
pub fn read_list(heap: Global, list: &[u8]) -> Result<Vec<Line<'_>>, AllocError>
    ensures lines { IfOk result (λ read. map said read.items ≡ map says (lines (counted list.now))) }
    ensures back { IfOk result (λ read. ListBack list.now (map said read.items)) }
{
    let mut read = Vec::new(heap);
    for line in Lines::new(list) {
        read.push(read_line(heap, line)?)?;
    }
    Ok(read)
}
