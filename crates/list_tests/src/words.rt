use list_reader::{Call, Fault, Line, ReadError, read_call, read_list};
use std::test::Fail;

/// Lines, each with the word that it has to quote.
const QUOTES: [(&[u8], &[u8]); 12] = [
    (b"", b""),
    (b"x 1", b"x"),
    (b"hh 1", b"hh"),
    (b"h  1", b""),
    (b"h 1 2", b"2"),
    (b"h 4294967296", b"4294967296"),
    (b"h 1\r", b"1\r"),
    (b"h +1", b"+1"),
    (b"h \xff", b"\xff"),
    (b"m 2 0 1 2 3 4 5 6 7 8 9", b"9"),
    (b"w 1 x", b"x"),
    (b"m y", b"y"),
];

#[test]
fn unreadable(rt: HostRuntime) {
    for (line, word) in QUOTES {
        let quoted = Err(ReadError::Fault(Fault::Unreadable(word)));
        assert_eq!(rt; read_call(rt.alloc(), line), quoted);
    }
}

const SHORT: [&[u8]; 6] = [b"a", b"m 2", b"h", b"w 1 2", b"u", b"b"];

#[test]
fn too_few(rt: HostRuntime) {
    for line in SHORT {
        let short = Err(ReadError::Fault(Fault::TooFew));
        assert_eq!(rt; read_call(rt.alloc(), line), short);
    }
}

/// Lines, each with the object that it holds.
const HOLDS: [(&[u8], u32); 3] = [
    (b"h 0", 0),
    (b"h 4294967295", 4294967295),
    (b"h 00000000000000000000000000000000012", 12),
];

#[test]
fn numbers(rt: HostRuntime) {
    for (line, object) in HOLDS {
        assert_eq!(rt; read_call(rt.alloc(), line), Ok(Call::Hold { object }));
    }
}

#[test]
fn edges(rt: HostRuntime) -> Result<(), Fail> {
    let make = Call::Make {
        class: 2,
        dictionary: 7,
        edges: vec![in rt.alloc(); 1, 0, 3]?,
    };
    assert_eq!(rt; read_call(rt.alloc(), b"m 2 7 1 0 3"), Ok(make));
    Ok(())
}

#[test]
fn whole_lists(rt: HostRuntime) -> Result<(), Fail> {
    let lines = read_list(rt.alloc(), b"a 1\nqqq 2\n\nh\nm 1 2 3")?;
    let make = Call::Make {
        class: 1,
        dictionary: 2,
        edges: vec![in rt.alloc(); 3]?,
    };
    let expected: Vec<Line> = vec![in rt.alloc();
        Ok(Call::Attend { host: true }),
        Err(Fault::Unreadable(b"qqq")),
        Err(Fault::Unreadable(b"")),
        Err(Fault::TooFew),
        Ok(make),
    ]?;
    assert!(rt; lines == expected);
    Ok(())
}
