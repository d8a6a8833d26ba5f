// What a program says of a call that failed.
use std::io;
use std::io::{Cursor, Write};

// Room for the longest text of an error.
const TEXT_BYTES: usize = 256;

// An error's text up to the number that follows a system's error, as in `Is a directory (os error 21)`.
fn without_number(text: &str) -> &str {
    text.split_once(" (os error ")
        .map_or(text, |(words, _)| words)
}

// Writes a line: what failed, as the caller names it, a colon and the error's text. There is nowhere to say that this line cannot be written.
pub fn fail(to: &impl Print, what: &[u8], error: io::Error) {
    let mut text = Cursor::new([0u8; TEXT_BYTES]);
    let _ = write!(text, "{error}");
    let n = text.position() as usize;
    let bytes = text.into_inner();
    let words = str::from_utf8(&bytes[..n.min(TEXT_BYTES)]).map_or("", without_number);
    let _ = to.write_all(what);
    let _ = to.write_all(b": ");
    let _ = to.write_all(words.as_bytes());
    let _ = to.write_all(b"\n");
}
