use crate::rows::{weak, with_ancestors, with_del};
use class_answers::{Answer, Request, ask};
use class_layer::Remembering;
use class_settled::SettledTable;
use class_tables::{ClassRow, SearchingTable};
use classes::{ClassTable, Entries};
use refusal::{Fault, Refusal};

/// Row 3 finds the del of row 2, row 4 names itself and finds it too, row 5 finds none, and row 6 has its own.
fn rows() -> [ClassRow; 6] {
    let own = ClassRow {
        members: 3,
        dictionary: true,
        ancestors: with_ancestors(&[2]).ancestors,
        ..with_del()
    };
    [
        weak(),
        with_del(),
        with_ancestors(&[1, 2]),
        with_ancestors(&[4, 3, 2]),
        with_ancestors(&[5, 5]),
        own,
    ]
}

fn finds(class: u32, found: u32) -> (Request, Answer) {
    (Request::FindDel { class }, Answer::Number(found))
}

fn sets(class: u32, del: bool) -> (Request, Answer) {
    (Request::SetDel { class, del }, Answer::SetDel(Ok(())))
}

fn refuses(class: u32, refusal: Refusal) -> (Request, Answer) {
    let fault = Fault {
        refusal,
        argument: 1,
    };
    (
        Request::SetDel { class, del: true },
        Answer::SetDel(Err(fault)),
    )
}

fn ancestor(class: u32, position: usize, found: u32) -> (Request, Answer) {
    (Request::Ancestor { class, position }, Answer::Number(found))
}

fn reads(class: u32, entries: Entries) -> (Request, Answer) {
    (Request::Entries { class }, Answer::Entries(entries))
}

/// Requests with the answers that the rules give over `rows`.
fn expected() -> [(Request, Answer); 32] {
    let own = Entries {
        members: 3,
        dictionary: true,
        weak: false,
        immutable: false,
        del: true,
        ancestor_count: 1,
    };
    [
        (Request::Last, Answer::Number(6)),
        reads(6, own),
        reads(0, Entries::default()),
        reads(7, Entries::default()),
        ancestor(4, 2, 2),
        ancestor(4, 3, 0),
        ancestor(7, 0, 0),
        finds(0, 0),
        finds(1, 0),
        finds(2, 2),
        finds(3, 2),
        finds(4, 2),
        finds(5, 0),
        finds(6, 6),
        finds(7, 0),
        refuses(0, Refusal::NoClass),
        refuses(7, Refusal::NoClass),
        refuses(1, Refusal::FixedClass),
        finds(1, 0),
        finds(3, 2),
        sets(3, true),
        finds(3, 3),
        finds(4, 3),
        sets(2, false),
        finds(2, 0),
        finds(4, 3),
        finds(6, 6),
        sets(6, false),
        finds(6, 0),
        sets(3, false),
        finds(3, 0),
        finds(4, 0),
    ]
}

/// Whether the table answers each request as expected.
fn answers<T: ClassTable>(table: &mut T) -> bool {
    expected()
        .iter()
        .all(|(request, answer)| ask(table, *request) == *answer)
}

#[test]
fn a_table_that_searches(rt: HostRuntime) -> Result<(), Fault> {
    let mut table = SearchingTable::new(&rows())?;
    assert!(rt; answers(&mut table));
    Ok(())
}

#[test]
fn a_table_that_keeps_its_answers(rt: HostRuntime) -> Result<(), Fault> {
    let mut table = SettledTable::new(&rows())?;
    assert!(rt; answers(&mut table));
    Ok(())
}

#[test]
fn layers(rt: HostRuntime) -> Result<(), Fault> {
    let mut layer = Remembering::new(SearchingTable::new(&rows())?);
    assert!(rt; answers(&mut layer));
    let mut twice = Remembering::new(Remembering::new(SettledTable::new(&rows())?));
    assert!(rt; answers(&mut twice));
    Ok(())
}
