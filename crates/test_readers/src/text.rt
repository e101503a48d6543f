//! Each call once, with ample memory.
use rv_text::{Cursor, Line, Words, decimal};
use std::test::Fail;

#[test]
fn a_text_grows_by_bytes_and_digits(rt: HostRuntime) -> Result<(), Fail> {
    let mut line = Line::new(rt.alloc());
    line.text(b"states ")?;
    line.number(0)?;
    line.text(b", ")?;
    line.number(u64::MAX)?;
    assert!(rt; line.into_bytes().as_slice() == b"states 0, 18446744073709551615".as_slice());
    Ok(())
}

#[test]
fn a_number_is_digits_that_fit(rt: HostRuntime) {
    const CASES: &[(&str, Option<u64>)] = &[
        ("0", Some(0)),
        ("007", Some(7)),
        ("18446744073709551615", Some(u64::MAX)),
        ("18446744073709551616", None),
        ("99999999999999999999", None),
        ("", None),
        ("-1", None),
        ("+1", None),
        ("1 ", None),
        ("0x1", None),
    ];
    for &(text, value) in CASES {
        assert!(rt; decimal(text.as_bytes()) == value, "at {text}");
    }
}

#[test]
fn a_text_is_its_lines_one_after_the_other(rt: HostRuntime) {
    const WANTED: &[(u32, usize, &[u8], usize)] = &[
        (1, 0, b"a b", 4),
        (2, 4, b"", 5),
        (3, 5, b"c\r", 8),
        (4, 8, b"d", 9),
    ];
    let mut cursor = Cursor::new(b"a b\n\nc\r\nd");
    for &(number, from, bytes, end) in WANTED {
        let line = cursor.next_line().expect(&rt, "a line");
        assert!(rt;
            line.number == number && line.from == from && line.bytes == bytes && line.end == end
        );
    }
    assert!(rt; cursor.next_line().is_none());
    let mut one = Cursor::new(b"\n");
    assert!(rt; one.next_line().is_some() && one.next_line().is_none());
    assert!(rt; Cursor::new(b"").next_line().is_none());
}

#[test]
fn a_line_is_its_words_one_after_the_other(rt: HostRuntime) {
    let wanted: [&[u8]; 3] = [b"on", b"a:", b"\r"];
    let mut words = Words::new(b" \ton \t a: \r");
    for bytes in wanted {
        assert!(rt; words.next_word() == Some(bytes));
    }
    assert!(rt; words.next_word().is_none() && Words::new(b" \t").next_word().is_none());
}
