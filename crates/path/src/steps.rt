// The steps of a path.
ghost use Rattle.std.specs.Prelude.{◌≡◌, ◌≤◌, ◌<◌};
ghost use Rattle.text.specs.Bytes.{front};
ghost use Rattle.path.specs.Path.{digits, index};
ghost use Rattle.path.specs.Internal.{is_step_byte, below, index_answer};

use text::runs::front;

// Where the first step ends: at the first `.`, or at the path's end.
pub(crate) fn step_end(path: &[u8]) -> usize
    ensures { result ≡ front is_step_byte path.now }
{
    front(path, |b| b != b'.')
}

// The number that digits make, the first of which is not 0, if it is below the limit.
fn digits_below(step: &[u8], limit: usize) -> Option<usize>
    requires limit_bound { (0 < limit) × (limit ≤ 1152921504606846976) }
    ensures { result ≡ index_answer (below limit (digits 0 step.now)) }
{
    let mut v = 0;
    for &b in step {
        if !b.is_ascii_digit() {
            return None;
        }
        v = v * 10 + usize::from(b - b'0');
        if limit <= v {
            return None;
        }
    }
    Some(v)
}

// The index that a step says, if it is below the limit.
pub(crate) fn index_of(step: &[u8], limit: usize) -> Option<usize>
    requires { limit ≤ 1152921504606846976 }
    ensures { result ≡ index_answer (below limit (index step.now)) }
{
    if limit == 0 {
        return None;
    }
    match step {
        [] => None,
        [b'0', ..] => { if step.len() == 1 { Some(0) } else { None } }
        _ => digits_below(step, limit),
    }
}
