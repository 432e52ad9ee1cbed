use crate::rows::{weak, with_ancestors, with_del};
use class_answers::{Request, answer_alike};
use class_layer::Remembering;
use class_settled::SettledTable;
use class_tables::{ClassRow, SearchingTable};
use refusal::Fault;
use std::array;

/// A class with a del, which all rows from the third on name.
fn rows() -> [ClassRow; 64] {
    let mut rows = [with_ancestors(&[2]); 64];
    rows[0] = weak();
    rows[1] = with_del();
    rows
}

/// Asks for the del of each of 64 classes, which is more than a layer keeps.
fn each() -> [Request; 64] {
    array::from_fn(|i| Request::FindDel {
        class: i as u32 + 1,
    })
}

#[test]
fn a_layer_answers_as_another_table_does(rt: HostRuntime) -> Result<(), Fault> {
    let mut table = SearchingTable::new(&rows())?;
    let mut layer = Remembering::new(SettledTable::new(&rows())?);
    assert!(rt; answer_alike(&mut table, &mut layer, &each()));
    assert!(rt; answer_alike(&mut table, &mut layer, &each()));
    let forget = [Request::SetDel {
        class: 2,
        del: false,
    }];
    assert!(rt; answer_alike(&mut table, &mut layer, &forget));
    assert!(rt; answer_alike(&mut table, &mut layer, &each()));
    let mut below = layer.into_below();
    assert!(rt; answer_alike(&mut table, &mut below, &each()));
    Ok(())
}

#[test]
fn tables_of_other_rows_differ(rt: HostRuntime) -> Result<(), Fault> {
    let mut one = SearchingTable::new(&[weak(), with_del()])?;
    let mut other = SettledTable::new(&[weak(), weak()])?;
    assert!(rt; !answer_alike(&mut one, &mut other, &each()));
    Ok(())
}
