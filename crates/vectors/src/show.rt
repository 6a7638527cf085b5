// What is printed of a token. Where it can't be written, there is nowhere left to say so.
use lexer::item::TokenKind;

fn put(rt: &HostRuntime, s: &[u8]) {
    let _written = rt.write_all(s);
}

pub(crate) fn line(rt: &HostRuntime, s: &str) {
    let _written = println!(rt; "{s}");
}

pub(crate) fn front(rt: &HostRuntime, n: usize, eights: usize) {
    let _written = println!(rt; "front {n} eights {eights}");
}

pub(crate) fn end(rt: &HostRuntime, place: usize) {
    let _written = println!(rt; "end {place}");
}

pub(crate) fn refused(rt: &HostRuntime, number: u8, place: usize) {
    let _written = println!(rt; "refused {number} {place}");
}

fn hex(rt: &HostRuntime, s: &[u8]) {
    for b in s {
        let _written = print!(rt; "{b:02X}");
    }
}

// The longest content that is printed.
const LONGEST: usize = 4096;

// A string's content: its length and its bytes in hex.
fn content(rt: &HostRuntime, token: &[u8]) {
    let mut out = [0u8; LONGEST];
    match lexer::token::put_token(text::switches::present(), token, &mut out) {
        Ok(n) => {
            let _written = print!(rt; "{n}:");
            if n <= LONGEST {
                hex(rt, &out[..n]);
            }
        }
        Err(literals::content::ContentError::NoContent) => {
            put(rt, b"no content");
        }
        Err(literals::content::ContentError::NoRoom) => {
            put(rt, b"no room");
        }
    }
}

// A token of this kind and these bytes, by its form and value.
pub(crate) fn token(rt: &HostRuntime, kind: TokenKind, bytes: &[u8]) {
    match kind {
        TokenKind::Mark(_) => {
            put(rt, b"mark ");
            put(rt, bytes);
        }
        TokenKind::Word => {
            put(rt, b"word ");
            put(rt, bytes);
        }
        TokenKind::Text(_) => {
            put(rt, b"text ");
            content(rt, bytes);
        }
        TokenKind::Bytes(_) => {
            put(rt, b"bytes ");
            content(rt, bytes);
        }
        TokenKind::Integer(z) => {
            let _written = print!(rt; "integer {z}");
        }
        TokenKind::Decimal { minus, m, p } => {
            let sign = if minus { "-" } else { "+" };
            let _written = print!(rt; "decimal {sign} {m} {p}");
        }
    }
}

pub(crate) fn places(rt: &HostRuntime, start: usize, end: usize) {
    let _written = print!(rt; " {start} {end}, ");
}
