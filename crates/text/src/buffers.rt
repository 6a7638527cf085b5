// Bytes put into lent buffers.
ghost use Rattle.std.specs.Prelude.{◌≡◌, ◌≤◌, ◌+◌, length};
ghost use Rattle.text.specs.Buffers.{overwritten};

// Writes the bytes of `src` over those of `dst` from `at` on.
pub fn put_at(src: &[u8], dst: &mut [u8], at: usize)
    requires { at + length src.now ≤ length dst.old }
    ensures { dst.new ≡ overwritten at src.now dst.old }
{
    // kept: a byte a turn, as `copy_from_slice` asks the C library for `memmove`, which the archive for C asks for nowhere else.
    for (i, b) in src.iter().enumerate() {
        dst[at + i] = *b;
    }
}
