// Lists the nodes of a text, a line for each: its number, its kind, and the start and end of its value. A refused text gives
// one line instead: `refused`, the refusal's number and its place.
//
// The text comes from the file that the one argument names, or from standard input where there is no argument. What fails
// outside the text, as a file that can't be read, is said on standard error, and nothing is listed then.
#![tactic(auto)]

mod listing;

ghost use Rattle.std.specs.Result.{MatchResult};
ghost use Rattle.io.specs.Counts.{IsPrefixLen};

use console::input;
use console::input::ReadFailed;

// The text's bytes.
fn fill_text(rt: &HostRuntime, buf: &mut [u8]) -> Result<usize, ReadFailed>
    ensures { MatchResult result (λ n. IsPrefixLen n buf.new) (λ f. IsPrefixLen f.count buf.new) }
{
    if input::has_argument(rt, 1) {
        input::fill_named(rt, 1, buf)
    } else {
        input::fill_from(rt, &mut rt.stdin(), b"standard input", buf)
    }
}

fn main(rt: HostRuntime) {
    if input::has_argument(&rt, 2) {
        input::say_usage(&rt, b"usage: list FILE, or list < FILE\n");
        return;
    }
    let mut buffer = [0u8; input::TEXT_ROOM];
    if let Ok(n) = fill_text(&rt, &mut buffer) {
        listing::list(&rt, &buffer[..n]);
    }
}
