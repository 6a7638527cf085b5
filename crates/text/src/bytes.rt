// Bytes: the one at a place, the class of one, its value as a digit; and two slices against each other.
ghost use Rattle.std.specs.Prelude.{◌≡◌, ◌<◌, get_or, MatchOption};
ghost use Rattle.text.specs.Bytes.{class_of, class_number, digit_value, same_bytes};
ghost use Rattle.text.specs.Internal.{ClassTable};

// The byte at a place; 0 past the end.
pub fn byte_at(s: &[u8], i: usize) -> u8
    ensures { result ≡ get_or s.now i 0 }
{
    s.get(i).copied().unwrap_or(0)
}

// The classes by number. Letters, digits and joiners, the bytes of a word, are 1 to 4.
pub const SPACE: u8 = 0;

pub const DIGIT: u8 = 1;

pub const CAPITAL: u8 = 2;

pub const SMALL: u8 = 3;

pub const JOINER: u8 = 4;

pub const QUOTE: u8 = 5;

pub const TICK: u8 = 6;

pub const MARK: u8 = 7;

pub const SLASH: u8 = 8;

pub const PLUS: u8 = 9;

pub const OTHER: u8 = 10;

// The class of each of the 256 bytes.
const CLASS: [u8; 256] = [
    10, 10, 10, 10, 10, 10, 10, 10, 10, 0, 0, 10, 10, 0, 10, 10, 10, 10, 10, 10, 10, 10, 10, 10,
    10, 10, 10, 10, 10, 10, 10, 10, 0, 10, 5, 10, 10, 10, 10, 6, 7, 7, 10, 9, 7, 4, 10, 8, 1, 1, 1,
    1, 1, 1, 1, 1, 1, 1, 7, 10, 10, 10, 10, 10, 10, 2, 2, 2, 2, 2, 2, 2, 2, 2, 2, 2, 2, 2, 2, 2, 2,
    2, 2, 2, 2, 2, 2, 2, 2, 2, 2, 7, 10, 7, 10, 4, 10, 3, 3, 3, 3, 3, 3, 3, 3, 3, 3, 3, 3, 3, 3, 3,
    3, 3, 3, 3, 3, 3, 3, 3, 3, 3, 3, 7, 10, 7, 10, 10, 10, 10, 10, 10, 10, 10, 10, 10, 10, 10, 10,
    10, 10, 10, 10, 10, 10, 10, 10, 10, 10, 10, 10, 10, 10, 10, 10, 10, 10, 10, 10, 10, 10, 10, 10,
    10, 10, 10, 10, 10, 10, 10, 10, 10, 10, 10, 10, 10, 10, 10, 10, 10, 10, 10, 10, 10, 10, 10, 10,
    10, 10, 10, 10, 10, 10, 10, 10, 10, 10, 10, 10, 10, 10, 10, 10, 10, 10, 10, 10, 10, 10, 10, 10,
    10, 10, 10, 10, 10, 10, 10, 10, 10, 10, 10, 10, 10, 10, 10, 10, 10, 10, 10, 10, 10, 10, 10, 10,
    10, 10, 10, 10, 10, 10, 10, 10, 10, 10, 10, 10, 10, 10, 10, 10, 10, 10, 10, 10, 10,
];

// The table. This is a copy, so a caller makes it once and lends it.
pub fn classes() -> [u8; 256]
    ensures { ClassTable result }
{
    CLASS
}

// The number of a byte's class, from the table that is lent.
pub fn class_of(classes: &[u8; 256], b: u8) -> u8
    requires { ClassTable classes.now }
    ensures { result ≡ class_number (class_of b) }
{
    classes[b as usize]
}

// The value of a digit in a base up to 16, hex digits in either case.
#[tactic(auto, unfolding(crate::specs::Bytes::digit_value))]
pub fn digit_value(b: u8) -> Option<u8>
    ensures { MatchOption result (digit_value b ≡ 16) (λ d. (d ≡ digit_value b) × (d < 16)) }
{
    match b {
        b'0'..=b'9' => Some(b - b'0'),
        b'A'..=b'F' => Some(b - b'A' + 10),
        b'a'..=b'f' => Some(b - b'a' + 10),
        _ => None,
    }
}

// Whether two slices hold the same bytes.
#[tactic(auto, using(crate::proofs::SameLaws::same_pointwise))]
pub fn same_bytes(a: &[u8], b: &[u8]) -> bool
    ensures { result ≡ same_bytes a.now b.now }
{
    a == b
}
