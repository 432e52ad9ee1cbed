ghost use Rattle.std.specs.Prelude.{◌≡◌, ℕ, ◌^◌, ◌<◌};
ghost use Rattle.list_reader.specs.Calls as calls;
ghost use Rattle.list_reader.specs.Calls.{Asks, make, weaken, says, single};
ghost use Rattle.list_reader.specs.Readings.{asked, said, Reads, Makes};

use crate::arguments::{edges, last_number, next_number};
use crate::call::Call;
use crate::fault::{Fault, ReadError};
use list_words::Cursor;
use std::alloc::Global;

fn make<'a>(heap: Global, mut words: Cursor<'a>) -> Result<Call, ReadError<'a>>
    ensures { Reads (Unit {0}) (make words.entry) result (λ call. Asks (asked call)) }
{
    let class = next_number(&mut words)?;
    let dictionary = next_number(&mut words)?;
    let edges = edges(heap, words)?;
    Ok(Call::Make {
        class,
        dictionary,
        edges,
    })
}

fn weaken<'a>(mut words: Cursor<'a>) -> Result<Call, Fault<'a>>
    ensures { weaken words.entry ≡ said result }
{
    let class = next_number(&mut words)?;
    let object = next_number(&mut words)?;
    let callback = last_number(words)?;
    Ok(Call::Weaken {
        class,
        object,
        callback,
    })
}

/// A call that takes one number.
fn single<'a, F: FnOnce(u32) -> Call>(words: Cursor<'a>, call: F) -> Result<Call, Fault<'a>>
    requires { F.IsAlwaysCallable call }
    ensures { (made : ℕ → calls.Call) → ((n : ℕ) (c : Call) → n < 2 ^ 32 → F.post call n c → asked c ≡ made n) → single made words.entry ≡ said result }
{
    Ok(call(last_number(words)?))
}

/// The call that a line asks for.
pub fn read_call(heap: Global, line: &[u8]) -> Result<Call, ReadError<'_>>
    ensures { Reads (Makes line.now) (says line.now) result (λ call. Asks (asked call)) }
{
    let mut words = Cursor::new(line);
    let word = words.next_bytes().ok_or(Fault::TooFew)?;
    let &[letter] = word else {
        return Err(Fault::Unreadable(word).into());
    };
    match letter as char {
        'a' => Ok(single(words, |number| Call::Attend { host: number != 0 })?),
        'm' => make(heap, words),
        'h' => Ok(single(words, |object| Call::Hold { object })?),
        'd' => Ok(single(words, |object| Call::Drop { object })?),
        'w' => Ok(weaken(words)?),
        'u' => Ok(single(words, |reference| Call::Upgrade { reference })?),
        'i' => Ok(single(words, |object| Call::Intern { object })?),
        'b' => Ok(single(words, |turn| Call::HandBack { turn })?),
        _ => Err(Fault::Unreadable(word).into()),
    }
}
