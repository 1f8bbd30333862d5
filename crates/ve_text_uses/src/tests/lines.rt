use std::alloc::Global;
use std::test::Fail;
use ve_lex::{LexFault, Placed, Token, next_line, next_token, tokens};

macro_rules! name {
    ($text:literal, $start:literal, $end:literal) => {
        Placed { token: Token::Name($text), start: $start, end: $end }
    };
}

macro_rules! number {
    ($text:literal, $value:literal, $start:literal, $end:literal) => {
        Placed { token: Token::Number { value: $value, text: $text }, start: $start, end: $end }
    };
}

macro_rules! symbol {
    ($byte:literal, $start:literal) => {
        Placed { token: Token::Symbol($byte), start: $start, end: $start + 1 }
    };
}

// Lines with their tokens, or with their first fault.
const LINES: &[(&[u8], Result<&[Placed], LexFault>)] = &[
    (
        b"a*12 # b",
        Ok(&[
            name!(b"a", 0, 1),
            symbol!(b'*', 1),
            number!(b"12", 12, 2, 4),
        ]),
    ),
    (b"", Ok(&[])),
    (b" \t\r", Ok(&[])),
    (b"#", Ok(&[])),
    (b"# \x00\xff$ 1234567890123456789", Ok(&[])),
    (b"x#\x00\xff", Ok(&[name!(b"x", 0, 1)])),
    (b"\tx\r", Ok(&[name!(b"x", 1, 2)])),
    (
        b"_a1_Z9 b",
        Ok(&[name!(b"_a1_Z9", 0, 6), name!(b"b", 7, 8)]),
    ),
    (b"_", Ok(&[name!(b"_", 0, 1)])),
    (b"007", Ok(&[number!(b"007", 7, 0, 3)])),
    (b"0", Ok(&[number!(b"0", 0, 0, 1)])),
    (
        b"999999999999999999",
        Ok(&[number!(b"999999999999999999", 999_999_999_999_999_999, 0, 18)]),
    ),
    (
        b"000000000000000001",
        Ok(&[number!(b"000000000000000001", 1, 0, 18)]),
    ),
    (b"12ab", Ok(&[number!(b"12", 12, 0, 2), name!(b"ab", 2, 4)])),
    (
        b"x^-2",
        Ok(&[
            name!(b"x", 0, 1),
            symbol!(b'^', 1),
            symbol!(b'-', 2),
            number!(b"2", 2, 3, 4),
        ]),
    ),
    (
        b"+(=)",
        Ok(&[
            symbol!(b'+', 0),
            symbol!(b'(', 1),
            symbol!(b'=', 2),
            symbol!(b')', 3),
        ]),
    ),
    (b"a$", Err(LexFault::BadByte { at: 1 })),
    (
        b"  1234567890123456789",
        Err(LexFault::LongNumber { at: 2 }),
    ),
    (b"0000000000000000000", Err(LexFault::LongNumber { at: 0 })),
    (b"$ 1234567890123456789", Err(LexFault::BadByte { at: 0 })),
    (
        b"1234567890123456789 $",
        Err(LexFault::LongNumber { at: 0 }),
    ),
    (b"$%", Err(LexFault::BadByte { at: 0 })),
    (b"a \x00", Err(LexFault::BadByte { at: 2 })),
    (b"12ab\xff # c", Err(LexFault::BadByte { at: 4 })),
    (b"a1234567890123456789.", Err(LexFault::BadByte { at: 20 })),
    (b"x/y", Err(LexFault::BadByte { at: 1 })),
    (b"\x0b", Err(LexFault::BadByte { at: 0 })),
];

#[test]
fn lines_have_these_tokens(rt: HostRuntime) {
    for (line, expected) in LINES {
        assert!(rt; has_tokens(rt.alloc(), line, *expected), "at {line:?}");
    }
}

fn has_tokens(alloc: Global, line: &[u8], expected: Result<&[Placed], LexFault>) -> bool {
    match (tokens(alloc, line), expected) {
        (Ok(found), Ok(expected)) => found.as_slice() == expected,
        (Err(fault), Err(expected)) => fault == expected,
        _ => false,
    }
}

#[test]
fn first_tokens_are_found(rt: HostRuntime) -> Result<(), Fail> {
    let (first, behind) = next_token(b" end # all", 7)?.ok_or("no token")?;
    assert!(rt; first == name!(b"end", 8, 11) && behind.len() == 6);
    assert!(rt; next_token(behind, 0)?.is_none());
    Ok(())
}

/// Texts with their lines.
const TEXTS: &[(&[u8], &[&[u8]])] = &[
    (b"", &[]),
    (b"\n", &[b""]),
    (b"a", &[b"a"]),
    (b"a\n", &[b"a"]),
    (b"a\nb", &[b"a", b"b"]),
    (b"\n\n", &[b"", b""]),
    (b"a\r\n#\n\n c", &[b"a\r", b"#", b"", b" c"]),
];

#[test]
fn texts_have_these_lines(rt: HostRuntime) {
    for (text, lines) in TEXTS {
        assert!(rt; has_lines(text, lines), "in {text:?}");
    }
}

fn has_lines(text: &[u8], lines: &[&[u8]]) -> bool {
    let mut rest = text;
    for line in lines {
        match next_line(rest) {
            Some((found, behind)) if found == *line => rest = behind,
            _ => return false,
        }
    }
    next_line(rest).is_none()
}
