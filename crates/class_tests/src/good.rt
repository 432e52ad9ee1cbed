use crate::rows::{weak, with_ancestors, with_del};
use class_tables::{Ancestors, ClassRow, SearchingTable};
use classes::good_rows;
use refusal::Fault;

fn is_good(rows: &[ClassRow]) -> Result<bool, Fault> {
    Ok(good_rows(&SearchingTable::new(rows)?))
}

#[test]
fn good_tables(rt: HostRuntime) -> Result<(), Fault> {
    assert!(rt; is_good(&[weak()])?, "one row");
    assert!(rt; is_good(&[weak(); 64])?, "64 rows");
    assert!(rt; is_good(&[weak(), with_del()])?);
    assert!(rt;
        is_good(&[weak(), with_ancestors(&[2, 2, 1, 1])])?,
        "it names itself and repeats"
    );
    assert!(rt; is_good(&[weak(), with_ancestors(&[1; 8])])?, "8 ancestors");
    let members = ClassRow {
        members: 8,
        ..ClassRow::default()
    };
    assert!(rt; is_good(&[weak(), members])?, "8 members");
    Ok(())
}

#[test]
fn tables_without_the_class_of_plain_weak_references(rt: HostRuntime) -> Result<(), Fault> {
    assert!(rt; !is_good(&[])?, "no row");
    let rows = [
        ClassRow {
            weak: false,
            ..weak()
        },
        ClassRow {
            immutable: false,
            ..weak()
        },
        ClassRow {
            members: 1,
            ..weak()
        },
        ClassRow {
            dictionary: true,
            ..weak()
        },
        ClassRow {
            del: true,
            ..weak()
        },
        ClassRow {
            ancestors: Ancestors::new(&[1]),
            ..weak()
        },
    ];
    for row in rows {
        assert!(rt; !is_good(&[row])?);
        assert!(rt; is_good(&[weak(), row])?, "as another row it is good");
    }
    Ok(())
}

#[test]
fn bad_rows(rt: HostRuntime) -> Result<(), Fault> {
    let rows = [
        ClassRow {
            members: 9,
            ..ClassRow::default()
        },
        with_ancestors(&[1; 9]),
        with_ancestors(&[0]),
        with_ancestors(&[1, 4]),
        with_ancestors(&[4294967295]),
    ];
    for row in rows {
        assert!(rt; !is_good(&[weak(), row, with_del()])?);
        assert!(rt;
            !is_good(&[weak(), with_del(), row])?,
            "the last row counts"
        );
    }
    Ok(())
}
