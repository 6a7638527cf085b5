// Runs the papers' lexical cases: each line of standard input is a case, and each gives a line of output, held to `stdout`.
//
// A case is a letter, a space and a text, in which `~HH` stands for the byte HH, and `~*NNNNN*B` for the byte B, NNNNN times (a
// decimal number of five digits). `t`: the tokens of the text, each with its value and places, up to the end or the first fault.
// `u`: the length of the longest front that is UTF-8, and how many eights of plain bytes the check passed over. `k`: whether the
// first two tokens are keys with the same content.
#![tactic(auto)]

ghost use Rattle.std.specs.Prelude.{◌<◌, ◌≤◌, length};

mod keys;
mod show;
mod tokens;

use std::io::Read;
use text::bytes::byte_at;
use text::span::MAX_TEXT;

// The value of a capital hex digit; a case has no other.
fn nibble(b: u8) -> u8
    ensures { result < 16 }
{
    text::bytes::digit_value(b).unwrap_or(0)
}

// The byte of two hex digits.
fn pair(high: u8, low: u8) -> u8 {
    nibble(high) * 16 + nibble(low)
}

// A digit of a case as a number.
fn digit_at(case: &[u8], i: usize) -> usize
    ensures { result < 16 }
{
    usize::from(nibble(byte_at(case, i)))
}

// The number of five digits from i on.
fn five_digits(case: &[u8], i: usize) -> usize
    requires { i < 18446744073709551000 }
{
    let high = digit_at(case, i) * 10000 + digit_at(case, i + 1) * 1000;
    high + digit_at(case, i + 2) * 100 + digit_at(case, i + 3) * 10 + digit_at(case, i + 4)
}

// The byte b, count times, or as often as there is room, to out from `from` on: where it ends.
fn repeat(b: u8, count: usize, out: &mut [u8], from: usize) -> usize
    requires { from ≤ length out.old }
    ensures { result ≤ length out.new }
{
    let room = &mut out[from..];
    let n = count.min(room.len());
    room[..n].fill(b);
    from + n
}

// The text of a case, with each `~HH` and `~*NNNNN*B` replaced by its bytes, to the front of out: how many bytes it has.
fn plain(case: &[u8], out: &mut [u8]) -> usize
    ensures { result ≤ length out.new }
{
    let mut i = 0;
    let mut k = 0;
    // kept: a turn goes over one byte of the case, three or nine.
    while i < case.len() {
        if out.len() <= k {
            return k;
        }
        let b = case[i];
        if b != b'~' {
            out[k] = b;
            k += 1;
            i += 1;
        } else if byte_at(case, i + 1) == b'*' {
            k = repeat(byte_at(case, i + 8), five_digits(case, i + 2), out, k);
            i += 9;
        } else {
            out[k] = pair(byte_at(case, i + 1), byte_at(case, i + 2));
            k += 1;
            i += 3;
        }
    }
    k
}

// One case: its letter, a space, and its text.
fn run(rt: &HostRuntime, line: &[u8]) {
    if line.len() < 2 {
        show::line(rt, "no case");
        return;
    }
    let mut space = [0u8; MAX_TEXT];
    let n = plain(&line[2..], &mut space);
    let text = &space[..n];
    match line[0] {
        b't' => tokens::tokens(rt, text),
        b'u' => {
            let checked = text::utf8::check_utf8(text);
            show::front(rt, checked.front, checked.eights);
        }
        _ => keys::compare(rt, text),
    }
}

// Each line of the input; a line ends with its line feed.
fn run_all(rt: &HostRuntime, s: &[u8]) {
    let mut from = 0;
    for (i, &b) in s.iter().enumerate() {
        if b == b'\n' {
            run(rt, &s[from..i]);
            from = i + 1;
        }
    }
}

// The room for the cases.
const BUFFER: usize = 65536;

// Reads until buf is full, the input ends or a read fails: how many bytes it put at the front of buf.
fn read_full(rt: &HostRuntime, buf: &mut [u8]) -> usize
    ensures { result ≤ length buf.new }
{
    let mut from = rt.stdin();
    let mut n = 0;
    // kept: how far a turn goes is what `read` says, and the library's methods that read to the end fill a Vec: memory is fixed here.
    while n < buf.len() {
        match from.read(&mut buf[n..]) {
            Ok(0) => return n,
            Ok(more) => n += more,
            Err(_) => return n,
        }
    }
    n
}

fn main(rt: HostRuntime) {
    let mut buffer = [0u8; BUFFER];
    let n = read_full(&rt, &mut buffer);
    run_all(&rt, &buffer[..n]);
}
