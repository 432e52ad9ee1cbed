ghost use Rattle.std.specs.Prelude.{◌≡◌, ◌≤◌, ◌++◌, map, length, IfOk, string_bytes};
ghost use Rattle.list_reader.specs.Readings.{said};
ghost use Rattle.list_check.specs.Report.{telling, entry, entries, calls, summed, report};

use crate::describe::Described;
use list_reader::{Fault, Line, read_list};
use std::alloc::{AllocError, Global};

/// What a line says.
// No `Display`: a word that is quoted may be any bytes, and need not be text.
fn tell(heap: Global, line: &Line) -> Result<Vec<u8>, AllocError>
    ensures { IfOk result (λ text. text.items ≡ telling (said line.now)) }
{
    match line {
        Ok(call) => Ok(Described(call).to_string(heap)?.into_bytes()),
        Err(Fault::Unreadable(word)) => {
            let mut text = Vec::from_slice(heap, b"?? ")?;
            text.extend_from_slice(word)?;
            Ok(text)
        }
        Err(Fault::TooFew) => Vec::from_slice(heap, b"??"),
    }
}

/// How many of the lines ask for a call.
fn count_calls(lines: &[Line]) -> usize
    ensures value { result ≡ calls (map said lines.now) }
    ensures bound { result ≤ length lines.now }
{
    lines.iter().filter(|line| line.is_ok()).count()
}

/// A line behind its number.
fn numbered(heap: Global, number: usize, line: &Line) -> Result<Vec<u8>, AllocError>
    ensures { IfOk result (λ text. text.items ≡ entry number (said line.now)) }
{
    let mut text = format!(in heap; "{number}: ")?.into_bytes();
    text.extend_from_slice(tell(heap, line)?.as_slice())?;
    text.push(b'\n')?;
    Ok(text)
}

/// How many lines, calls and unreadable lines there were.
fn summary(heap: Global, lines: &[Line]) -> Result<String, AllocError>
    ensures { IfOk result (λ text. string_bytes text ≡ summed (map said lines.now)) }
{
    let total = lines.len();
    let calls = count_calls(lines);
    let unreadable = total - calls;
    format!(in heap; "{total} lines, {calls} calls, {unreadable} unreadable\n")
}

/// The lines, numbered from 1.
fn entries(heap: Global, lines: &[Line]) -> Result<Vec<u8>, AllocError>
    ensures { IfOk result (λ text. text.items ≡ entries 1 (map said lines.now)) }
{
    let mut text = Vec::new(heap);
    for (i, line) in lines.iter().enumerate() {
        text.extend_from_slice(numbered(heap, i + 1, line)?.as_slice())?;
    }
    Ok(text)
}

/// All that is printed of a list.
pub fn report(heap: Global, list: &[u8]) -> Result<Vec<u8>, AllocError>
    ensures { IfOk result (λ text. text.items ≡ report list.now) }
{
    let lines = read_list(heap, list)?;
    let mut text = entries(heap, lines.as_slice())?;
    text.extend_from_slice(summary(heap, lines.as_slice())?.as_bytes())?;
    Ok(text)
}
