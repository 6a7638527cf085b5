// Asks a text by a path: prints the line of the node that the path leads to, as `list` prints it. Where it leads to none, and
// for a refused text, the line is `refused`, the refusal's number and its place; the place of 23 is the number of the first
// step that has no child to go to.
//
// The first argument names the text's file, and the second is the path. What fails outside the text, as a file that can't be
// read, is said on standard error, and nothing is printed then.
#![tactic(auto)]

mod answer;

use console::input;

// The room for the path: Linux hands over no argument that is longer.
const PATH_ROOM: usize = 131072;

// Asks the text by the path.
fn ask(rt: &HostRuntime, text: &[u8]) {
    let mut path = [0u8; PATH_ROOM];
    if let Some(length) = input::argument(rt, 2, b"the path", &mut path) {
        answer::print(rt, text, &path[..length]);
    }
}

fn main(rt: HostRuntime) {
    if !input::has_argument(&rt, 2) || input::has_argument(&rt, 3) {
        input::say_usage(&rt, b"usage: find FILE PATH\n");
        return;
    }
    let mut buffer = [0u8; input::TEXT_ROOM];
    if let Ok(n) = input::fill_named(&rt, 1, &mut buffer) {
        ask(&rt, &buffer[..n]);
    }
}
