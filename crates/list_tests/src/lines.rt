use list_words::Lines;
use std::alloc::{AllocError, Global};
use std::test::Fail;

/// How many lines a list has, and how many bytes are in the last of them.
fn count(heap: Global, list: &[u8]) -> Result<(usize, usize), AllocError> {
    let lines: Vec<&[u8]> = Lines::new(list).collect(heap)?;
    Ok((lines.len(), lines.last().map_or(0, |line| line.len())))
}

#[test]
fn ends_of_lists(rt: HostRuntime) -> Result<(), Fail> {
    let heap = rt.alloc();
    assert_eq!(rt; count(heap, b"")?, (0, 0), "an empty list has no line");
    assert_eq!(rt;
        count(heap, b"h 1")?,
        (1, 3),
        "the last newline may be lacking"
    );
    assert_eq!(rt; count(heap, b"h 1\n")?, (1, 3));
    assert_eq!(rt; count(heap, b"h 1\nd 12")?, (2, 4));
    assert_eq!(rt; count(heap, b"\n\n\n")?, (3, 0), "newlines end empty lines");
    Ok(())
}

#[test]
fn limit(rt: HostRuntime) -> Result<(), Fail> {
    let heap = rt.alloc();
    let mut list = vec![in heap; b'0'; 65530]?;
    list.extend_from_slice(b"\nh 123456789")?;
    assert_eq!(rt;
        count(heap, list.as_slice())?,
        (2, 5),
        "the line is cut at the limit"
    );
    let list = vec![in heap; b'0'; 65536]?;
    assert_eq!(rt; count(heap, list.as_slice())?, (1, 65536));
    let list = vec![in heap; b'0'; 70000]?;
    assert_eq!(rt; count(heap, list.as_slice())?, (1, 65536));
    Ok(())
}
