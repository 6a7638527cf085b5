// The text's bytes, from a descriptor or a file; and the program's arguments.
ghost use Rattle.std.specs.Prelude.{MatchOption};
ghost use Rattle.std.specs.Result.{MatchResult};
ghost use Rattle.io.specs.Counts.{IsPrefixLen};

use std::env::FillError;
use std::io::{Error, ErrorKind, Read};
use std::rt::Env;
use std::{fs, str};

// Room for a text. It has at most 65,536 bytes: one byte more shows that it is too long, and what comes after that byte isn't
// read.
pub const TEXT_ROOM: usize = 65537;

// A read that failed: how many bytes had come before.
#[derive(Clone, Copy, Debug, PartialEq, Eq)]
pub struct ReadFailed {
    pub count: usize,
}

// The same of what could not be opened, or has no name: nothing had come.
const UNREAD: ReadFailed = ReadFailed { count: 0 };

// What failed, as the caller names it, and why, as a line on standard error. Where it can't be written, there is nowhere left to
// say so.
pub fn fail(rt: &HostRuntime, what: &[u8], error: Error) {
    let _named = rt.stderr().write_all(what);
    let _said = eprintln!(rt; ": {error}");
}

// How the program is called, on standard error.
pub fn say_usage(rt: &HostRuntime, usage: &[u8]) {
    let _said = rt.stderr().write_all(usage);
}

// Whether the program was given argument `i`. Argument 0 is its name.
pub fn has_argument(rt: &HostRuntime, i: usize) -> bool {
    let mut room = [0u8; 1];
    !matches!(rt.arg(i, &mut room), Err(FillError::NotPresent))
}

// The number that Linux has for a name that is too long, ENAMETOOLONG.
const NAME_TOO_LONG: i32 = 36;

// Argument `i`, which is there, at the buffer's front: its length. Where it is longer than the buffer, standard error says so of `what`,
// and the answer is `None`.
pub fn argument(rt: &HostRuntime, i: usize, what: &[u8], buf: &mut [u8]) -> Option<usize>
    ensures { MatchOption result (Unit {0}) (λ n. IsPrefixLen n buf.new) }
{
    match rt.arg(i, buf) {
        Ok(n) => Some(n),
        Err(_) => {
            fail(rt, what, Error::from_raw_os_error(NAME_TOO_LONG));
            None
        }
    }
}

// Reads until buf is full or the input ends: how many bytes came. A read that fails is told from the end of the input, so that an
// unreadable file isn't taken for an empty text: the answer is an `Err`, and it is said on standard error, where `name` is what was read.
pub fn fill_from<R: Read>(
    rt: &HostRuntime,
    from: &mut R,
    name: &[u8],
    buf: &mut [u8],
) -> Result<usize, ReadFailed>
    ensures { MatchResult result (λ n. IsPrefixLen n buf.new) (λ f. IsPrefixLen f.count buf.new) }
{
    let mut n = 0;
    // kept: how far a turn goes is what `read` says, and the library's methods that read to the end fill a Vec: memory is fixed here.
    while n < buf.len() {
        match from.read(&mut buf[n..]) {
            Ok(0) => return Ok(n),
            Ok(more) => n += more,
            Err(error) => {
                fail(rt, name, error);
                return Err(ReadFailed { count: n });
            }
        }
    }
    Ok(n)
}

// The same from the file of this name. A file that can't be opened counts as a read that failed.
fn fill_file(rt: &HostRuntime, name: &[u8], buf: &mut [u8]) -> Result<usize, ReadFailed>
    ensures { MatchResult result (λ n. IsPrefixLen n buf.new) (λ f. IsPrefixLen f.count buf.new) }
{
    let Ok(path) = str::from_utf8(name) else {
        fail(rt, name, Error::from(ErrorKind::InvalidFilename));
        return Err(UNREAD);
    };
    match fs::open(rt, path) {
        Ok(mut file) => fill_from(rt, &mut file, name, buf),
        Err(error) => {
            fail(rt, name, error);
            Err(UNREAD)
        }
    }
}

// The longest name of a file, with the zero that C ends it with.
const NAME_ROOM: usize = 4096;

// The same from the file that argument `i` names.
pub fn fill_named(rt: &HostRuntime, i: usize, buf: &mut [u8]) -> Result<usize, ReadFailed>
    ensures { MatchResult result (λ n. IsPrefixLen n buf.new) (λ f. IsPrefixLen f.count buf.new) }
{
    let mut name = [0u8; NAME_ROOM];
    let Some(length) = argument(rt, i, b"the file's name", &mut name) else {
        return Err(UNREAD);
    };
    fill_file(rt, &name[..length], buf)
}

// A program with one argument, the name of a file: hands over the file's bytes. With none or more, standard error says how it is called.
pub fn with_file<F: FnOnce(&HostRuntime, &[u8])>(rt: &HostRuntime, usage: &[u8], run: F)
    requires { F.IsAlwaysCallable run }
{
    if !has_argument(rt, 1) || has_argument(rt, 2) {
        say_usage(rt, usage);
        return;
    }
    let mut buffer = [0u8; TEXT_ROOM];
    if let Ok(n) = fill_named(rt, 1, &mut buffer) {
        run(rt, &buffer[..n]);
    }
}
