use crate::rows::weak;
use class_settled::SettledTable;
use class_tables::{ClassRow, SearchingTable};
use classes::ClassTable;
use refusal::{Fault, Refusal};

const TOO_MANY: Fault = Fault {
    refusal: Refusal::BadTable,
    argument: 0,
};

#[test]
fn tables_hold_up_to_64_rows(rt: HostRuntime) -> Result<(), Fault> {
    let rows = [weak(); 65];
    let table = SearchingTable::new(&rows[..64])?;
    assert_eq!(rt; table.last(), 64);
    let table = SettledTable::new(&rows[..64])?;
    assert_eq!(rt; table.last(), 64);
    assert_eq!(rt; SearchingTable::new(&rows).err(), Some(TOO_MANY));
    assert_eq!(rt; SettledTable::new(&rows).err(), Some(TOO_MANY));
    Ok(())
}
