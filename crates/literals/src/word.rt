// The shape of words.
ghost use Rattle.std.specs.Prelude.{◌≡◌, ◌||◌};
ghost use Rattle.text.specs.Bytes.{is_capital, is_small, is_letter_or_digit, is_joiner};
ghost use Rattle.literals.specs.Word.{shape_step, is_good, has_shape};

// Lead: after a first `_`. Good: after a letter or digit. Joined: after a later joiner.
#[derive(Clone, Copy)]
pub enum Shape {
    Start,
    Lead,
    Good,
    Joined,
    Bad,
}

fn is_letter(b: u8) -> bool
    ensures { result ≡ (is_capital b || is_small b) }
{
    matches!(b, b'A'..=b'Z' | b'a'..=b'z')
}

#[tactic(auto, unfolding(text::specs::Bytes::is_letter_or_digit))]
fn is_letter_or_digit(b: u8) -> bool
    ensures { result ≡ is_letter_or_digit b }
{
    matches!(b, b'A'..=b'Z' | b'a'..=b'z' | b'0'..=b'9')
}

// Whether a `_` or `-` stands here.
fn is_joiner(b: u8) -> bool
    ensures { result ≡ is_joiner b }
{
    matches!(b, b'_' | b'-')
}

// The shape after one byte more.
#[tactic(auto, unfolding(crate::specs::Word::shape_step))]
fn shape_step(state: Shape, b: u8) -> Shape
    ensures { result ≡ shape_step state b }
{
    match state {
        Shape::Start if b == b'_' => Shape::Lead,
        Shape::Start if is_letter(b) => Shape::Good,
        Shape::Lead | Shape::Good | Shape::Joined if is_letter_or_digit(b) => Shape::Good,
        Shape::Good if is_joiner(b) => Shape::Joined,
        _ => Shape::Bad,
    }
}

#[tactic(auto, unfolding(crate::specs::Word::is_good))]
fn is_good(state: Shape) -> bool
    ensures { result ≡ is_good state }
{
    matches!(state, Shape::Good)
}

// Whether the whole slice has the shape of a word.
#[tactic(auto, unfolding(crate::specs::Word::has_shape))]
pub fn has_shape(s: &[u8]) -> bool
    ensures { result ≡ has_shape s.now }
{
    let mut state = Shape::Start;
    for b in s {
        state = shape_step(state, *b);
    }
    is_good(state)
}
