// Runs of bytes: how far a test goes on passing.
ghost use Rattle.std.specs.Prelude.{◌≡◌, ℕ, Bool, true, false, ◌≤◌, ◌<◌, length, slice_index};
ghost use Rattle.text.specs.Bytes.{front};

// How many bytes at the front of a slice pass the test: what `front` says of every `p` that says of a byte what the test says of it.
pub fn front<F: Fn(u8) -> bool>(s: &[u8], passes: F) -> usize
    requires { F.IsAlwaysCallable passes }
    ensures within { result ≤ length s.now }
    ensures before { (k : ℕ) → k < result → F.post passes (slice_index s.now k) true }
    ensures stop { result < length s.now → F.post passes (slice_index s.now result) false }
    ensures counts { (p : ℕ → Bool) → ((b : ℕ) (r : Bool) → b < 256 → F.post passes b r → r ≡ p b) → result ≡ front p s.now }
{
    s.iter().position(|b| !passes(*b)).unwrap_or(s.len())
}
