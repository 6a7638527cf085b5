// The lines that are printed. Where one can't be written, standard error says why, and the answer is false.
use super::input::fail;
use std::io;

// A number and what stands after it.
pub fn print_number(rt: &HostRuntime, n: u64, after: &[u8]) -> io::Result<()> {
    print!(rt; "{n}")?;
    rt.write_all(after)
}

// Whether a line is written; a failure is said here.
pub fn is_told(rt: &HostRuntime, written: io::Result<()>) -> bool {
    match written {
        Ok(()) => true,
        Err(error) => {
            fail(rt, b"standard output", error);
            false
        }
    }
}

// The line of a node: its number, its kind, and where its value starts and ends.
pub fn node(rt: &HostRuntime, number: usize, kind: usize, start: usize, end: usize) -> bool {
    is_told(rt, println!(rt; "{number} {kind} {start} {end}"))
}

// The line of a refusal.
pub fn refused(rt: &HostRuntime, number: u8, place: usize) -> bool {
    is_told(rt, println!(rt; "refused {number} {place}"))
}

fn print_count(rt: &HostRuntime, name: &[u8], n: u64) -> io::Result<()> {
    rt.write_all(name)?;
    println!(rt; " {n}")
}

// The line of a count, with its name before it.
pub fn count(rt: &HostRuntime, name: &[u8], n: u64) -> bool {
    is_told(rt, print_count(rt, name, n))
}
