ghost use Rattle.std.specs.Prelude.{◌≡◌, true, IfOk, OnOk};
ghost use Rattle.class_answers.specs.Answers.{answers_of, rows_after_all};

use crate::asking::{Answer, Request, ask};
use classes::ClassTable;
use std::alloc::{AllocError, Global};

/// Puts requests to a table one after another. The answers follow from its rows, whatever table it is.
pub fn ask_all<T: ClassTable>(
    heap: Global,
    table: &mut T,
    requests: &[Request],
) -> Result<Vec<Answer>, AllocError>
    ensures answers { IfOk result (λ answers. answers.items ≡ answers_of (T.rows table.old) requests.now) }
    ensures after { OnOk result (T.rows table.new ≡ rows_after_all (T.rows table.old) requests.now) }
{
    // A loop, here and below: after a chain nothing would be known of the table that its closure changes.
    let mut answers = Vec::new(heap);
    for request in requests {
        answers.push(ask(table, *request))?;
    }
    Ok(answers)
}

/// Puts the same requests to two tables, until they answer one differently. Tables with equal rows never do.
pub fn answer_alike<A: ClassTable, B: ClassTable>(
    a: &mut A,
    b: &mut B,
    requests: &[Request],
) -> bool
    ensures alike { A.rows a.old ≡ B.rows b.old → result ≡ true }
    ensures after { A.rows a.old ≡ B.rows b.old → A.rows a.new ≡ B.rows b.new }
{
    for request in requests {
        if ask(a, *request) != ask(b, *request) {
            return false;
        }
    }
    true
}
