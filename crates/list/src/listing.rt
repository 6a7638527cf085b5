// What is printed of a text.
use console::lines;
use reader::read::read;
use reader::rows;
use reader::rows::word_of;

// The line of node n: its kind, and where its value starts and ends. Whether it is written.
// kept: `find` has the same, as `console`, which both have, knows no table; over `reader` alone the two lines would need a crate of their own.
fn print_node(rt: &HostRuntime, table: &[u32], n: usize) -> bool {
    lines::node(
        rt,
        n,
        word_of(table, n, rows::KIND),
        word_of(table, n, rows::START),
        word_of(table, n, rows::STOP),
    )
}

// The lines of the table's first nodes, `count` of them, up to one that can't be written.
fn nodes(rt: &HostRuntime, table: &[u32], count: usize) {
    for i in 0..count {
        if !print_node(rt, table, i) {
            return;
        }
    }
}

// How many nodes a listing has room for.
const LISTED: usize = 1024;

// Lists the nodes of a text.
pub(crate) fn list(rt: &HostRuntime, text: &[u8]) {
    let mut table = [0u32; rows::NODE_WORDS * LISTED];
    match read(text, &mut table) {
        Ok(count) => nodes(rt, &table, count),
        Err(refusal) => {
            lines::refused(rt, refusal.reason.number(), refusal.place);
        }
    }
}
