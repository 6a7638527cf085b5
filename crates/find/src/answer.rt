// What is printed of a text and a path.
use console::lines;
use path::find::find;
use reader::rows;
use reader::rows::word_of;
use reader::tree::MAX_NODES;

// The line of node n: its kind, and where its value starts and ends.
fn print_node(rt: &HostRuntime, table: &[u32], n: usize) {
    lines::node(
        rt,
        n,
        word_of(table, n, rows::KIND),
        word_of(table, n, rows::START),
        word_of(table, n, rows::STOP),
    );
}

// The line of the node that the path leads to, or of the refusal. A text that is read has at most 4,096 nodes, and the table
// here holds as many.
pub(crate) fn print(rt: &HostRuntime, text: &[u8], path: &[u8]) {
    let mut table = [0u32; rows::NODE_WORDS * MAX_NODES];
    match find(text, &mut table, path) {
        Ok(n) => print_node(rt, &table, n),
        Err(refusal) => {
            lines::refused(rt, refusal.reason.number(), refusal.place);
        }
    }
}
