// Up to four bytes by value: counted, fed to the UTF-8 machine, put into an output.
ghost use Rattle.std.specs.Prelude.{◌≡◌, cond, ◌≤◌, ◌<◌, ◌+◌, [], ◌∷◌, length, MatchOption};
ghost use Rattle.std.proofs.lemmas.List.Edits.{sets};
ghost use Rattle.text.specs.Bytes.{feed};
ghost use Rattle.text.specs.Utf8.{utf8_step, listed};
ghost use Rattle.text.specs.Internal.{bytes_read};

use crate::utf8::Utf8;

// Up to four bytes: those of a character, or those that a step of a decoder gives.
#[derive(Clone, Copy)]
pub enum Few {
    Zero,
    One(u8),
    Two(u8, u8),
    Three(u8, u8, u8),
    Four(u8, u8, u8, u8),
}

impl Few {
    // How many bytes these are.
    #[tactic(auto, unfolding(crate::specs::Utf8::listed))]
    pub fn len(self) -> usize
        ensures { result ≡ length (listed self) }
    {
        match self {
            Few::Zero => 0,
            Few::One(..) => 1,
            Few::Two(..) => 2,
            Few::Three(..) => 3,
            Few::Four(..) => 4,
        }
    }

    // The first byte and those after it.
    #[tactic(auto, unfolding(crate::specs::Utf8::listed))]
    pub fn split_first(self) -> Option<(u8, Few)>
        ensures { MatchOption result (listed self ≡ []) (λ p. listed self ≡ p.0 ∷ listed p.1) }
    {
        match self {
            Few::Zero => None,
            Few::One(a) => Some((a, Few::Zero)),
            Few::Two(a, b) => Some((a, Few::One(b))),
            Few::Three(a, b, d) => Some((a, Few::Two(b, d))),
            Few::Four(a, b, d, e) => Some((a, Few::Three(b, d, e))),
        }
    }

    // Puts the bytes into the output from k on.
    #[tactic(auto, unfolding(crate::specs::Utf8::listed))]
    pub fn put(self, out: &mut [u8], k: usize)
        requires { k + length (listed self) ≤ length out.old }
        ensures { out.new ≡ sets out.old k (listed self) }
    {
        match self {
            Few::Zero => {}
            Few::One(a) => {
                out[k] = a;
            }
            Few::Two(a, b) => {
                out[k] = a;
                out[k + 1] = b;
            }
            Few::Three(a, b, d) => {
                out[k] = a;
                out[k + 1] = b;
                out[k + 2] = d;
            }
            Few::Four(a, b, d, e) => {
                out[k] = a;
                out[k + 1] = b;
                out[k + 2] = d;
                out[k + 3] = e;
            }
        }
    }
}

// The machine after the bytes.
#[tactic(auto, using(crate::proofs::FewLaws::read_step), unfolding(crate::specs::Utf8::listed, crate::specs::Bytes::feed))]
fn feed_few(u: Utf8, f: Few) -> Utf8
    requires { bytes_read u + 4 < 18446744073709551615 }
    ensures { result ≡ feed utf8_step u (listed f) }
{
    match f {
        Few::Zero => u,
        Few::One(a) => u.step(a),
        Few::Two(a, b) => u.step(a).step(b),
        Few::Three(a, b, d) => u.step(a).step(b).step(d),
        Few::Four(a, b, d, e) => u.step(a).step(b).step(d).step(e),
    }
}

// The same for a text's bytes; other bytes are not judged.
pub fn feed_text(text: bool, u: Utf8, f: Few) -> Utf8
    requires { bytes_read u + 4 < 18446744073709551615 }
    ensures { result ≡ cond text (feed utf8_step u (listed f)) u }
{
    if text { feed_few(u, f) } else { u }
}
