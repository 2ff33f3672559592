// Worked examples that show what the definitions and the clauses mean.

use mm_text::*;
use std::alloc::AllocError;
use std::process::Abort;

/// A text, the bytes at which its tokens begin and end, and the first fault, if there is one.
type Reading<'a> = (&'a str, &'a [u8], &'a [u8], Option<(u8, usize)>);

static READINGS: [Reading; 18] = [
    ("", &[], &[], None),
    (" \t\r\n\x0c", &[], &[], None),
    ("a", &[0], &[1], None),
    ("$c a1 $.\n", &[0, 3, 6], &[2, 5, 8], None),
    ("a  $( b $. $)\tc$", &[0, 14], &[1, 16], None),
    ("$( a $) $( b $)", &[], &[], None),
    ("a$( b$)c", &[0, 4], &[3, 8], None),
    ("ab\x07c", &[0], &[2], Some((1, 2))),
    ("a \u{e9}", &[0], &[1], Some((1, 2))),
    ("a \x7f", &[0], &[1], Some((1, 2))),
    ("a $) b", &[0], &[1], Some((2, 2))),
    ("a $( b", &[0], &[1], Some((2, 2))),
    ("$( a\x07 ", &[], &[], Some((2, 0))),
    ("$( a\x07 \x08 $) b", &[], &[], Some((1, 4))),
    ("$( a\x07$) $) b", &[], &[], Some((1, 4))),
    ("$( $( $)", &[], &[], Some((2, 0))),
    ("$( a$)b $)", &[], &[], Some((2, 0))),
    ("$( \x07 a$( $)", &[], &[], Some((2, 0))),
];

#[test]
fn texts_are_read_up_to_their_end_or_their_first_fault(rt: HostRuntime) {
    for (text, begins, ends, fault) in &READINGS {
        let mut tokens = MmTokens::new(text.as_bytes());
        for (from, to) in begins.iter().zip(ends.iter()) {
            expect_token(&rt, &mut tokens, *from, *to, text);
        }
        // The reader returns the same answer again.
        for _ in 0..2 {
            expect_end(&rt, &mut tokens, *fault, text);
        }
    }
}

fn expect_token(rt: &impl Abort, tokens: &mut MmTokens, from: u8, to: u8, text: &str) {
    match tokens.next() {
        Ok(Some(token)) => {
            assert_eq!(rt; token.from, from as usize, "{text}");
            assert_eq!(rt; token.to, to as usize, "{text}");
        }
        _ => panic!(rt; "no token: {text}"),
    }
}

fn expect_end(rt: &impl Abort, tokens: &mut MmTokens, fault: Option<(u8, usize)>, text: &str) {
    match (tokens.next(), fault) {
        (Ok(None), None) => {}
        (Err(got), Some((kind, at))) => {
            assert_eq!(rt; got.kind, kind, "{text}");
            assert_eq!(rt; got.at, at, "{text}");
        }
        _ => panic!(rt; "another end: {text}"),
    }
}

static NUMBERS: [(&str, u64); 8] = [
    ("A", 1),
    ("T", 20),
    ("UA", 21),
    ("YT", 120),
    ("UUA", 121),
    ("YYT", 620),
    ("UUUA", 621),
    ("UVWWUYWVVXVWWVYWWVUYUUYUVYH", 9_223_372_036_854_775_808),
];

#[test]
fn numbers_have_one_spelling(rt: HostRuntime) -> Result<(), AllocError> {
    for (letters, n) in &NUMBERS {
        assert_eq!(rt; read_number(letters.as_bytes()), Some(*n), "{letters}");
        let mut to = b"Z".to_vec(rt.alloc())?;
        push_number(*n, &mut to)?;
        assert_eq!(rt; to.len(), letters.len() + 1, "{letters}");
        assert_eq!(rt; &to[1..], letters.as_bytes(), "{letters}");
    }
    Ok(())
}

static NO_NUMBERS: [&str; 14] = [
    "",
    "U",
    "AA",
    "AU",
    "AZ",
    "ZA",
    "UZA",
    "a",
    "U A",
    "@",
    "[",
    "U[",
    "UVWWUYWVVXVWWVYWWVUYUUYUVYI",
    "VYVUXUUXYWYVVUUVUXWYVWYVYYP",
];

#[test]
fn other_letters_are_no_number(rt: HostRuntime) {
    for letters in &NO_NUMBERS {
        assert_eq!(rt; read_number(letters.as_bytes()), None, "{letters}");
    }
}

/// A text, the bytes at which its statements begin with how many tokens they have, and the byte of
/// a statement that has no end.
type Statements<'a> = (&'a str, &'a [(usize, usize)], Option<usize>);

static STATEMENTS: [Statements; 7] = [
    ("", &[], None),
    (" $( a $. $) ", &[], None),
    ("$c a $. $v x $.", &[(0, 3), (8, 3)], None),
    ("${ ${ $} $}", &[(0, 1), (3, 1), (6, 1), (9, 1)], None),
    ("$( a $) a ${ $} $. $.", &[(8, 4), (19, 1)], None),
    ("$c a$. $.", &[(0, 3)], None),
    ("${ $c a ", &[(0, 1)], Some(3)),
];

#[test]
fn texts_have_their_statements(rt: HostRuntime) {
    for (text, begins, unended) in &STATEMENTS {
        let mut reader = MmTokens::new(text.as_bytes());
        let mut tokens = Vec::new(rt.alloc());
        for (from, len) in begins.iter() {
            assert!(rt;
                reader.next_statement(&mut tokens) == Ok(MmFound::Statement),
                "{text}"
            );
            assert_eq!(rt; tokens.len(), *len, "{text}");
            assert!(rt;
                tokens.first().map(|token| token.from) == Some(*from),
                "{text}"
            );
        }
        let end = unended.map_or(MmFound::End, MmFound::Unended);
        assert!(rt; reader.next_statement(&mut tokens) == Ok(end), "{text}");
    }
}
