// Where runs of bytes end: words, numbers, line comments.
ghost use Rattle.std.specs.Prelude.{◌≡◌, ◌≤◌, ◌+◌, length, drop};
ghost use Rattle.text.specs.Bytes.{front, is_word_byte, is_number_byte};
ghost use Rattle.lexer.specs.Closing.{not_newline};

use super::scanner::Scanner;
use text::bytes;
use text::bytes::class_of;
use text::runs::front;

impl<'a> Scanner<'a> {
    // A letter, a digit or a joiner.
    #[tactic(auto, using(text::proofs::ClassLaws::word_class), unfolding(text::proofs::ClassLaws::is_word_class))]
    fn is_word_byte(&self, b: u8) -> bool
        ensures { result ≡ is_word_byte b }
    {
        matches!(class_of(self.classes, b), bytes::DIGIT..=bytes::JOINER)
    }

    // The same, or a point or a plus.
    #[tactic(auto, unfolding(text::specs::Bytes::is_number_byte))]
    fn is_number_byte(&self, b: u8) -> bool
        ensures { result ≡ is_number_byte b }
    {
        b == b'.' || b == b'+' || self.is_word_byte(b)
    }

    pub(crate) fn word_end(&self, from: usize) -> usize
        requires { from ≤ length self.now.text.now }
        ensures { result ≡ from + front is_word_byte (drop from self.now.text.now) }
    {
        from + front(&self.text[from..], |b| self.is_word_byte(b))
    }

    pub(crate) fn number_end(&self, from: usize) -> usize
        requires { from ≤ length self.now.text.now }
        ensures { result ≡ from + front is_number_byte (drop from self.now.text.now) }
    {
        from + front(&self.text[from..], |b| self.is_number_byte(b))
    }
}

// Where a line ends: before a line feed or a carriage return, or at the text's end.
pub(crate) fn line_end(text: &[u8], from: usize) -> usize
    requires { from ≤ length text.now }
    ensures { result ≡ from + front not_newline (drop from text.now) }
{
    from + front(&text[from..], |b| b != b'\n' && b != b'\r')
}
