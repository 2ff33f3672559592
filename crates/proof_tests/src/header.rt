// The header as it is written.

use mm_header::header_text;
use std::alloc::AllocError;

/// How many times the bytes occur in a text.
fn count_of(text: &[u8], wanted: &[u8]) -> usize {
    let mut count = 0usize;
    for at in 0..text.len() {
        if text[at..].starts_with(wanted) {
            count = count.saturating_add(1);
        }
    }
    count
}

#[test]
fn has_a_statement_for_each_row(rt: HostRuntime) -> Result<(), AllocError> {
    let mut text = Vec::from_slice(rt.alloc(), b"front ")?;
    header_text(&mut text)?;
    assert_eq!(rt; text.len(), 5974);
    assert_eq!(rt; count_of(&text, b" $a "), 88);
    assert_eq!(rt; count_of(&text, b" $f "), 9);
    assert_eq!(rt; count_of(&text, b"${\n"), count_of(&text, b"$}\n"));
    assert_eq!(rt; count_of(&text, b" $e |- "), 11);
    Ok(())
}
