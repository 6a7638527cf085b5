// UTF-8 by RFC 3629: a machine fed byte by byte, the check of a slice, and the bytes of a scalar value.
ghost use Rattle.std.specs.Prelude.{◌≡◌, ◌<◌, ◌≤◌, ◌+◌, length, drop, get_or};
ghost use Rattle.text.specs.Utf8.{lead, later, utf8_step, utf8, is_whole, whole_front, plain_eight, plain_eights, encode};
ghost use Rattle.text.specs.Internal.{bytes_read, is_part, character_end};

use crate::few::Few;

// Where the machine stands. Whole(n): n bytes, all of whole characters. Part: n bytes of whole characters, then `read` bytes of
// a begun one; its next byte lies in low..high, and `more` bytes follow that. Broken(n): what follows the first n bytes is no
// character.
#[derive(Clone, Copy)]
pub enum Utf8 {
    Whole(usize),
    Part {
        n: usize,
        read: usize,
        more: usize,
        low: u8,
        high: u8,
    },
    Broken(usize),
}

// The machine after a character's first byte.
#[tactic(auto, unfolding(crate::specs::Utf8::lead))]
fn first_byte(n: usize, b: u8) -> Utf8
    requires { n < 18446744073709551615 }
    ensures { result ≡ lead n b }
{
    // kept: tests in a row, as the check of text that is not ASCII was slower with matches by ranges here and in `step`
    if b <= 0x7f {
        return Utf8::Whole(n + 1);
    }
    if b < 0xc2 {
        return Utf8::Broken(n);
    }
    if b <= 0xdf {
        return begun(n, 0, 0x80, 0xbf);
    }
    if b == 0xe0 {
        return begun(n, 1, 0xa0, 0xbf);
    }
    if b <= 0xec {
        return begun(n, 1, 0x80, 0xbf);
    }
    if b == 0xed {
        return begun(n, 1, 0x80, 0x9f);
    }
    if b <= 0xef {
        return begun(n, 1, 0x80, 0xbf);
    }
    if b == 0xf0 {
        return begun(n, 2, 0x90, 0xbf);
    }
    if b <= 0xf3 {
        return begun(n, 2, 0x80, 0xbf);
    }
    if b == 0xf4 {
        return begun(n, 2, 0x80, 0x8f);
    }
    Utf8::Broken(n)
}

// One byte of a character read; the next lies in low..high, and `more` follow that.
fn begun(n: usize, more: usize, low: u8, high: u8) -> Utf8
    ensures { result ≡ Utf8.Part n 1 more low high }
{
    Utf8::Part {
        n,
        read: 1,
        more,
        low,
        high,
    }
}

// The machine after a later byte of a character, one that may stand there.
#[tactic(auto, unfolding(crate::specs::Utf8::later))]
fn later_byte(n: usize, read: usize, more: usize) -> Utf8
    requires { n + read < 18446744073709551615 }
    ensures { result ≡ later n read more }
{
    if more == 0 {
        Utf8::Whole(n + read + 1)
    } else {
        Utf8::Part {
            n,
            read: read + 1,
            more: more - 1,
            low: 0x80,
            high: 0xbf,
        }
    }
}

impl Utf8 {
    // The machine after one byte more.
    #[tactic(auto, unfolding(crate::specs::Utf8::utf8_step, crate::specs::Internal::bytes_read))]
    pub(crate) fn step(self, b: u8) -> Utf8
        requires { bytes_read self < 18446744073709551615 }
        ensures { result ≡ utf8_step self b }
    {
        match self {
            Utf8::Whole(n) => first_byte(n, b),
            Utf8::Part {
                n,
                read,
                more,
                low,
                high,
            } => {
                if b < low {
                    return Utf8::Broken(n);
                }
                if b <= high {
                    return later_byte(n, read, more);
                }
                Utf8::Broken(n)
            }
            Utf8::Broken(n) => Utf8::Broken(n),
        }
    }

    // The length of the longest front of whole characters.
    #[tactic(auto, unfolding(crate::specs::Utf8::whole_front))]
    fn front(self) -> usize
        ensures { result ≡ whole_front self }
    {
        match self {
            Utf8::Whole(n) | Utf8::Part { n, .. } | Utf8::Broken(n) => n,
        }
    }

    // Whether the machine stands between characters.
    #[tactic(auto, unfolding(crate::specs::Utf8::is_whole))]
    pub fn is_whole(self) -> bool
        ensures { result ≡ is_whole self }
    {
        matches!(self, Utf8::Whole(_))
    }

    // Whether the machine is inside a character.
    #[tactic(auto, unfolding(crate::specs::Internal::is_part))]
    fn is_part(self) -> bool
        ensures { result ≡ is_part self }
    {
        matches!(self, Utf8::Part { .. })
    }
}

// Where the character that begins at i ends, or i if no whole character stands there.
fn character_end(s: &[u8], i: usize) -> usize
    requires { i < length s.now }
    ensures { result ≡ character_end (lead i (get_or s.now i 0)) (drop (i + 1) s.now) }
{
    let mut u = first_byte(i, s[i]);
    for b in &s[i + 1..] {
        if !u.is_part() {
            break;
        }
        u = u.step(*b);
    }
    u.front()
}

// Whether eight bytes stand at i that are all below 80 hex: exactly then the eight or-ed together are, so that one comparison tells.
fn plain_eight(s: &[u8], i: usize) -> bool
    requires { i ≤ length s.now }
    ensures { result ≡ plain_eight (drop i s.now) }
{
    if s.len() - i < 8 {
        return false;
    }
    let all = s[i] | s[i + 1] | s[i + 2] | s[i + 3] | s[i + 4] | s[i + 5] | s[i + 6] | s[i + 7];
    all < 0x80
}

// What the check of a slice tells: the length of its longest front that is UTF-8, and how many eights of plain bytes it passed over.
#[derive(Clone, Copy)]
pub struct Checked {
    pub front: usize,
    pub eights: usize,
}

// The UTF-8 check. At a character's start it passes over eight bytes in one step if all are below 80 hex, else over one character; it
// stops where no whole character stands.
pub fn check_utf8(s: &[u8]) -> Checked
    ensures { (result.front ≡ whole_front (utf8 s.now)) × (result.eights ≡ plain_eights s.now) }
{
    let mut i = 0;
    let mut eights = 0;
    while i < s.len() {
        if plain_eight(s, i) {
            i += 8;
            eights += 1;
        } else {
            let end = character_end(s, i);
            if end == i {
                return Checked { front: i, eights };
            }
            i = end;
        }
    }
    Checked { front: i, eights }
}

// The length of the longest front of a slice that is UTF-8: the slice's own where all of it is.
pub fn valid_front(s: &[u8]) -> usize
    ensures { result ≡ whole_front (utf8 s.now) }
{
    check_utf8(s).front
}

// The UTF-8 of a scalar value. Public for the crates above, which ask it of scalar values only.
#[tactic(auto, unfolding(crate::specs::Utf8::encode))]
pub fn utf8_of(v: u32) -> Few
    requires { v < 0x110000 }
    ensures { result ≡ encode v }
{
    match v {
        0x00..=0x7f => Few::One(v as u8),
        0x80..=0x7ff => Few::Two((0xc0 + v / 0x40) as u8, (0x80 + v % 0x40) as u8),
        0x800..=0xffff => Few::Three(
            (0xe0 + v / 0x1000) as u8,
            (0x80 + v / 0x40 % 0x40) as u8,
            (0x80 + v % 0x40) as u8,
        ),
        _ => Few::Four(
            (0xf0 + v / 0x40000) as u8,
            (0x80 + v / 0x1000 % 0x40) as u8,
            (0x80 + v / 0x40 % 0x40) as u8,
            (0x80 + v % 0x40) as u8,
        ),
    }
}
