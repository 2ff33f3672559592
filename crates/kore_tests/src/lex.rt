// Worked texts: which tokens they have, and where there is no token.

use kore_lex::{Lexer, TokenKind, text_value};
use std::alloc::{AllocError, Global};
use std::test::Fail;

/// The greatest length in bytes of a text that is tried.
const LONGEST: usize = 1000;

/// The word for a kind of token.
fn word(kind: TokenKind) -> &'static str {
    match kind {
        TokenKind::Ident => "name",
        TokenKind::SetIdent => "set",
        TokenKind::Builtin => "builtin",
        TokenKind::Text => "text",
        TokenKind::Punct(_) => "mark",
        TokenKind::Assign => "assign",
        TokenKind::End => "end",
    }
}

/// The kinds of the tokens of a text with their bytes, up to the end or to a fault.
fn tokens(alloc: Global, text: &str) -> Result<String, AllocError> {
    let mut answer = String::new(alloc);
    if text.len() > LONGEST {
        return Ok(answer);
    }
    let mut lexer = Lexer::new(text.as_bytes());
    for _ in 0..LONGEST {
        match lexer.next() {
            Ok(token) => {
                answer.push_str(word(token.kind))?;
                let part = format!(in alloc; " {}..{} ", token.from, token.to)?;
                answer.push_str(part.as_str())?;
                if token.kind == TokenKind::End {
                    break;
                }
            }
            Err(fault) => {
                let part = format!(in alloc; "fault {}", fault.at)?;
                answer.push_str(part.as_str())?;
                break;
            }
        }
    }
    Ok(answer)
}

/// Texts with their tokens.
static TOKENS: [(&str, &str); 32] = [
    ("", "end 0..0 "),
    (" \t\r\n", "end 4..4 "),
    ("a'-1Z b", "name 0..5 name 6..7 end 7..7 "),
    ("@Ab:\\and", "set 0..3 mark 3..4 builtin 4..8 end 8..8 "),
    ("::=:", "mark 0..1 assign 1..3 mark 3..4 end 4..4 "),
    (
        "{}()[],",
        "mark 0..1 mark 1..2 mark 2..3 mark 3..4 mark 4..5 mark 5..6 mark 6..7 end 7..7 ",
    ),
    // comments
    ("a//b", "name 0..1 end 4..4 "),
    ("a// \r{\n}", "name 0..1 mark 7..8 end 8..8 "),
    ("/***/a/* // \n*/", "name 5..6 end 15..15 "),
    ("a/*/", "name 0..1 fault 1"),
    ("/* *", "fault 0"),
    ("a / b", "name 0..1 fault 2"),
    // strings
    ("\"\"\"a\"", "text 0..2 text 2..5 end 5..5 "),
    ("\"\\\"\\\\\"", "text 0..6 end 6..6 "),
    ("\"\\n\\r\\t\\f\"", "text 0..10 end 10..10 "),
    ("\"\\x7F\\u20ac\\U0010FFff\"", "text 0..22 end 22..22 "),
    ("\"\u{20ac}\n\"", "text 0..6 end 6..6 "),
    (
        "[a{}(\"x",
        "mark 0..1 name 1..2 mark 2..3 mark 3..4 mark 4..5 fault 5",
    ),
    ("\"a\\", "fault 0"),
    ("\"a\\\"", "fault 0"),
    ("\"a\\n\\q\\n\"", "fault 4"),
    ("\"\\a", "fault 0"),
    ("\"\\xg0\"", "fault 1"),
    ("\"\\ud800\"", "fault 1"),
    ("\"\\U00110000\"", "fault 1"),
    ("\"\\x7\"", "fault 1"),
    // no token starts
    ("1", "fault 0"),
    ("a_", "name 0..1 fault 1"),
    ("@1", "fault 0"),
    ("\\ a", "fault 0"),
    ("=", "fault 0"),
    ("\u{e9}", "fault 0"),
];

#[test]
fn tokens_of_texts(rt: HostRuntime) -> Result<(), Fail> {
    for (text, answer) in &TOKENS {
        assert_eq!(rt; tokens(rt.alloc(), text)?.as_str(), *answer, "{text}");
    }
    Ok(())
}

#[test]
fn bytes_that_are_no_text(rt: HostRuntime) {
    let mut lexer = Lexer::new(b"a \"\\q\xff\"");
    assert!(rt; lexer.next().is_ok());
    for _ in 0..2 {
        let Err(fault) = lexer.next() else {
            panic!(rt; "a fault");
        };
        assert_eq!(rt; fault.at, 2);
    }
}

/// Strings with their values.
static VALUES: [(&str, &str); 5] = [
    ("\"\"", ""),
    ("\"a b\"", "a b"),
    ("\"\\n\\r\\t\\f\\\"\\\\\"", "\n\r\t\x0c\"\\"),
    (
        "\"\\x41\\xe9\\u20AC\\U0001f600!\"",
        "A\u{e9}\u{20ac}\u{1f600}!",
    ),
    ("\"\u{20ac}\\x5cn\" ", "\u{20ac}\\n"),
];

#[test]
fn values_of_strings(rt: HostRuntime) -> Result<(), Fail> {
    for (text, value) in &VALUES {
        let bytes = text.as_bytes();
        if bytes.len() > LONGEST {
            continue;
        }
        let Ok(token) = Lexer::new(bytes).next() else {
            panic!(rt; "a token");
        };
        let TokenKind::Text = token.kind else {
            panic!(rt; "a string");
        };
        let string = &bytes[token.from as usize..token.to as usize];
        assert_eq!(rt; text_value(rt.alloc(), string)?.as_str(), *value, "{text}");
    }
    Ok(())
}
