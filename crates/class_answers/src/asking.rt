ghost use Rattle.std.specs.Prelude.{◌≡◌};
ghost use Rattle.class_answers.specs.Answers.{answer_of, rows_after};

use classes::{ClassTable, Entries};
use refusal::Fault;

/// A question to a class table, or a set del.
// An enum and no closure: one list is put to tables of several types, and the definition speaks of it.
#[derive(Clone, Copy, PartialEq, Eq, Debug)]
pub enum Request {
    Last,
    Entries { class: u32 },
    Members { class: u32 },
    HasDictionary { class: u32 },
    IsWeak { class: u32 },
    IsImmutable { class: u32 },
    HasDel { class: u32 },
    AncestorCount { class: u32 },
    Ancestor { class: u32, position: usize },
    FindDel { class: u32 },
    SetDel { class: u32, del: bool },
}

/// What a table answers to a request.
#[derive(Clone, Copy, PartialEq, Eq, Debug)]
pub enum Answer {
    /// A class, or the number of slots.
    Number(u32),
    Count(usize),
    Flag(bool),
    Entries(Entries),
    SetDel(Result<(), Fault>),
}

/// Puts a request to a table.
pub fn ask<T: ClassTable>(table: &mut T, request: Request) -> Answer
    ensures value { result ≡ answer_of (T.rows table.old) request }
    ensures after { T.rows table.new ≡ rows_after (T.rows table.old) request }
{
    match request {
        Request::Last => Answer::Number(table.last()),
        Request::Entries { class } => Answer::Entries(table.entries(class)),
        Request::Members { class } => Answer::Number(table.members(class)),
        Request::HasDictionary { class } => Answer::Flag(table.has_dictionary(class)),
        Request::IsWeak { class } => Answer::Flag(table.is_weak(class)),
        Request::IsImmutable { class } => Answer::Flag(table.is_immutable(class)),
        Request::HasDel { class } => Answer::Flag(table.has_del(class)),
        Request::AncestorCount { class } => Answer::Count(table.ancestor_count(class)),
        Request::Ancestor { class, position } => Answer::Number(table.ancestor(class, position)),
        Request::FindDel { class } => Answer::Number(table.find_del(class)),
        Request::SetDel { class, del } => Answer::SetDel(table.set_del(class, del)),
    }
}
