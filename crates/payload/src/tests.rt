use crate::{Cell, Mixed, Note, Payload, Row};
use std::array;

/// Kind, whether it is traced, width, and what it has at the positions 0 to 9.
fn answers<P: Payload>(payload: &P) -> (u32, bool, u32, [u32; 10]) {
    let edges = array::from_fn(|position| payload.edge(position as u32));
    (payload.kind(), payload.traced(), payload.width(), edges)
}

#[test]
fn a_note_has_no_edge(rt: HostRuntime) {
    let mut note = Note { number: 7 };
    assert_eq!(rt; answers(&note), (2, false, 0, [0; 10]));
    note.replace_edge(0, 5);
    assert_eq!(rt; note, Note { number: 7 });
    assert_eq!(rt; answers(&note), (2, false, 0, [0; 10]));
}

#[test]
fn a_cell_has_one_edge(rt: HostRuntime) {
    let mut cell = Cell::new(5);
    assert_eq!(rt;
        answers(&cell),
        (3, false, 1, [5, 0, 0, 0, 0, 0, 0, 0, 0, 0])
    );
    cell.replace_edge(1, 6);
    assert_eq!(rt; cell.edge(0), 5, "past the width nothing is replaced");
    cell.replace_edge(0, 4294967295);
    assert_eq!(rt; cell.edge(0), 4294967295);
    cell.replace_edge(0, 0);
    assert_eq!(rt; answers(&cell), (3, false, 1, [0; 10]));
}

#[test]
fn rows_have_up_to_eight_edges(rt: HostRuntime) {
    let Some(empty) = Row::new(&[]) else {
        panic!(rt; "a row of no edges");
    };
    assert_eq!(rt; answers(&empty), (4, true, 0, [0; 10]));
    let Some(full) = Row::new(&[1, 2, 3, 4, 5, 6, 7, 8]) else {
        panic!(rt; "a row of eight edges");
    };
    assert_eq!(rt;
        answers(&full),
        (4, true, 8, [1, 2, 3, 4, 5, 6, 7, 8, 0, 0])
    );
    assert!(rt; Row::new(&[1, 2, 3, 4, 5, 6, 7, 8, 9]).is_none());
}

#[test]
fn an_edge_of_a_row_is_replaced_alone(rt: HostRuntime) {
    let Some(mut row) = Row::new(&[1, 2, 3]) else {
        panic!(rt; "a row of three edges");
    };
    row.replace_edge(3, 9);
    assert_eq!(rt; answers(&row), (4, true, 3, [1, 2, 3, 0, 0, 0, 0, 0, 0, 0]));
    row.replace_edge(2, 9);
    assert_eq!(rt; answers(&row), (4, true, 3, [1, 2, 9, 0, 0, 0, 0, 0, 0, 0]));
    row.replace_edge(0, 0);
    assert_eq!(rt; answers(&row), (4, true, 3, [0, 2, 9, 0, 0, 0, 0, 0, 0, 0]));
}

/// Any of three payloads.
type Any = Mixed<Note, Mixed<Cell, Row>>;

#[test]
fn a_mixed_payload_means_what_it_holds(rt: HostRuntime) {
    let note: Any = Mixed::Left(Note { number: 1 });
    assert_eq!(rt; answers(&note), (2, false, 0, [0; 10]));
    let mut cell: Any = Mixed::Right(Mixed::Left(Cell::new(5)));
    cell.replace_edge(0, 6);
    assert_eq!(rt;
        answers(&cell),
        (3, false, 1, [6, 0, 0, 0, 0, 0, 0, 0, 0, 0])
    );
    let Some(row) = Row::new(&[1, 2]) else {
        panic!(rt; "a row of two edges");
    };
    let mut row: Any = Mixed::Right(Mixed::Right(row));
    row.replace_edge(1, 7);
    assert_eq!(rt; answers(&row), (4, true, 2, [1, 7, 0, 0, 0, 0, 0, 0, 0, 0]));
}
