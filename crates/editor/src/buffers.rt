// Bytes put into lent buffers: over what stands there, from a place on.
ghost use Rattle.std.specs.Prelude.{◌≡◌, ◌≤◌, ◌+◌, ◌-◌, length, replicate};
ghost use Rattle.text.specs.Buffers.{overwritten};
ghost use Rattle.editor.specs.Edit.{splice, with_text};

pub(crate) use text::buffers::put_at;
use text::span::Span;

// Makes the bytes of `dst` from `from` to before `to` zero. If there are none between, it changes nothing.
fn zero_out(dst: &mut [u8], from: usize, to: usize)
    requires { to ≤ length dst.old }
    ensures { dst.new ≡ overwritten from (replicate (to - from) 0) dst.old }
{
    if from < to {
        dst[from..to].fill(0);
    }
}

// Puts a new text in place of one of `used` bytes at the front of `dst`, with zeros where the old one was longer.
pub(crate) fn put_text(dst: &mut [u8], used: usize, new: &[u8])
    requires { (used ≤ length dst.old) × (length new.now ≤ length dst.old) }
    ensures { dst.new ≡ with_text used new.now dst.old }
{
    put_at(new, dst, 0);
    zero_out(dst, new.len(), used);
}

// Puts at the front of `dst` the text with the bytes of the span replaced.
pub(crate) fn put_splice(text: &[u8], span: Span, replacement: &[u8], dst: &mut [u8])
    requires { (span.start ≤ span.stop) × (span.stop ≤ length text.now) × (span.start + length replacement.now + (length text.now - span.stop) ≤ length dst.old) }
    ensures { dst.new ≡ overwritten 0 (splice span.start span.stop replacement.now text.now) dst.old }
{
    put_at(&text[..span.start], dst, 0);
    put_at(replacement, dst, span.start);
    put_at(&text[span.stop..], dst, span.start + replacement.len());
}
