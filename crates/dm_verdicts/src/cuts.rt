//! A legal history that is cut off behind each of its bytes. The fault of a line that lacks its line feed is a wrong word where one of
//! its fixed words is cut, since words come first, and else the count, since such a line has too few words whatever it has.

use crate::asking::check;
use crate::legal::{HAND_OVER, TWO};
use std::alloc::Global;
use std::test::Fail;

/// What is found where the hand-over ends behind the byte that stands in its place: a wrong word, a wrong count of words, or at a line
/// feed that it is legal.
const FOUND: &str = "wwwwccccccccwwccccwwccccccccwccccwwwc
wwwwccccccccccccccc
wwwwwccccccccccccccccccwwccccccccccwwwwccccccwwwwwccccc
wwwwccccccwwwwwwwwccccc
wwwwccccccccwwwwccccwwccccccccwccccwwwc
wwccccccccccccc
wwwwwwccccccccwccccccccc
wwwwwwccccc
wwwwccccccccccccc
wwwwwccccc
wwwwccccccccwwccccwwccccccccwccccwwwc
wwwwccccccccccccccc
wwwwwccccccccccccccccccwwcccccccwwwwccccwwwwwccccc
wwwwccccccwwwwwwwwccccc
wwwwccccccwwwwwccccccc
";

/// The text up to this byte, which counts.
fn up_to(text: &[u8], place: usize) -> &[u8] {
    if place < text.len() {
        &text[..place + 1]
    } else {
        text
    }
}

fn line_feeds(text: &[u8]) -> usize {
    let mut count: usize = 0;
    for byte in text {
        if *byte == b'\n' {
            count = count.saturating_add(1);
        }
    }
    count
}

fn due(alloc: Global, mark: u8, whole: usize) -> Result<String, Fail> {
    let line = whole.saturating_add(1);
    match mark {
        b'w' => Ok(format!(in alloc; "line {line}: word")?),
        b'c' => Ok(format!(in alloc; "line {line}: count")?),
        _ => Ok(format!(in alloc; "legal {whole}\ndone")?),
    }
}

/// Whether what is said of the text is what the mark says.
fn is_due(alloc: Global, text: &[u8], mark: u8) -> Result<bool, Fail> {
    let said = check(alloc, TWO, text)?;
    let due = due(alloc, mark, line_feeds(text))?;
    Ok(said.as_slice() == due.as_bytes())
}

#[test]
fn a_hand_over_that_is_cut_off(rt: HostRuntime) -> Result<(), Fail> {
    assert_eq!(rt; FOUND.len(), HAND_OVER.len());
    for (place, mark) in FOUND.as_bytes().iter().enumerate() {
        let text = up_to(HAND_OVER.as_bytes(), place);
        assert!(rt; is_due(rt.alloc(), text, *mark)?, "behind byte {place}");
    }
    Ok(())
}
