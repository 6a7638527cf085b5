// Numbers: a machine over the bytes of a number token, and what the token means at its end.
ghost use Rattle.std.specs.Prelude.{◌≡◌, ◌<◌, ◌+◌, ◌*◌, true, false, pos, neg_ℤ, ◌+ℤ◌, MatchOption};
ghost use Rattle.text.specs.Bytes.{is_digit_in, digit_value};
ghost use Rattle.literals.specs.Number.{number_step, signed_by, as_integer, as_decimal, meaning, number};
ghost use Rattle.literals.specs.InternalNumber.{cap, capped, places_of};

use text::bytes::digit_value;

// The greatest integer, and the greatest m of a decimal.
const MOST: u64 = 9223372036854775807;

// The greatest p of a decimal; the least is its negative.
const MOST_POWER: u64 = 400;

// The digits so far and the exponent are kept exact up to this. Above it a number is refused, whatever follows: it is above MOST,
// and above every count of fraction digits by more than MOST_POWER.
const CAP: u64 = 10000000000000000000;

// Where a number stands, named by its last byte, with what has been read: whether a sign (signed) and a minus, the whole number
// m of all digits so far, the count of fraction digits (places), the exponent's minus and its value. Zero is a 0 as the whole
// integer part; Dot stands after the point, ExpLetter after the `e` or `E`; Prefix after `0x`, `0o` or `0b`, and Based after a digit
// there.
#[derive(Clone, Copy)]
pub enum Number {
    Start,
    Bad,
    Sign {
        minus: bool,
    },
    Zero {
        signed: bool,
        minus: bool,
    },
    Digit {
        minus: bool,
        m: u64,
    },
    Underscore {
        minus: bool,
        m: u64,
    },
    Dot {
        minus: bool,
        m: u64,
    },
    Prefix {
        base: u64,
    },
    Based {
        base: u64,
        m: u64,
    },
    BasedUnderscore {
        base: u64,
        m: u64,
    },
    Fraction {
        minus: bool,
        m: u64,
        places: u64,
    },
    FractionUnderscore {
        minus: bool,
        m: u64,
        places: u64,
    },
    ExpLetter {
        minus: bool,
        m: u64,
        places: u64,
    },
    ExpSign {
        minus: bool,
        m: u64,
        places: u64,
        below: bool,
    },
    ExpDigit {
        minus: bool,
        m: u64,
        places: u64,
        below: bool,
        exp: u64,
    },
    ExpUnderscore {
        minus: bool,
        m: u64,
        places: u64,
        below: bool,
        exp: u64,
    },
}

// What a number token means: an integer, or a decimal, (-1)^minus * m * 10^p.
#[derive(Clone, Copy, Debug, PartialEq, Eq)]
pub enum NumberValue {
    Integer(i64),
    Decimal { minus: bool, m: u64, p: i64 },
}

// Why a number token means nothing: no number ends where it does, or its number is out of range (refusals 3 and 5).
#[derive(Clone, Copy, Debug, PartialEq, Eq)]
pub enum NumberError {
    Malformed,
    TooWide,
}

// m with one more digit, exact up to the cap.
#[tactic(auto, unfolding(crate::specs::InternalNumber::cap))]
fn and_digit(base: u64, m: u64, d: u64) -> u64
    requires base_nonzero { 0 < base }
    requires d_bound { d < 256 }
    ensures { result ≡ cap (m * base + d) }
{
    if CAP / base < m {
        return CAP;
    }
    (m * base + d).min(CAP)
}

// The value of a digit in this base, which is at most 16. The definition counts any other byte as 16.
fn digit_in(base: u64, b: u8) -> Option<u64>
    ensures { MatchOption result (is_digit_in base b ≡ false) (λ d. (is_digit_in base b ≡ true) × (d ≡ digit_value b) × (d < 256)) }
{
    let d = match digit_value(b) {
        Some(d) => u64::from(d),
        None => 16,
    };
    if d < base { Some(d) } else { None }
}

// The machine's step, one function for each state that goes on. Each contract says that the answer is the definition's next state
// up to the cap.
#[tactic(auto, unfolding(text::specs::Bytes::digit_value, crate::specs::Number::number_step, crate::specs::InternalNumber::capped))]
fn start_step(b: u8) -> Number
    ensures { capped result ≡ capped (number_step Number.Start b) }
{
    match b {
        b'+' => Number::Sign { minus: false },
        b'-' => Number::Sign { minus: true },
        b'0' => Number::Zero {
            signed: false,
            minus: false,
        },
        b'1'..=b'9' => Number::Digit {
            minus: false,
            m: u64::from(b - b'0'),
        },
        _ => Number::Bad,
    }
}

#[tactic(auto, unfolding(text::specs::Bytes::digit_value, crate::specs::Number::number_step, crate::specs::InternalNumber::capped))]
fn sign_step(minus: bool, b: u8) -> Number
    ensures { capped result ≡ capped (number_step (Number.Sign minus) b) }
{
    match b {
        b'0' => Number::Zero {
            signed: true,
            minus,
        },
        b'1'..=b'9' => Number::Digit {
            minus,
            m: u64::from(b - b'0'),
        },
        _ => Number::Bad,
    }
}

#[tactic(auto, unfolding(crate::specs::Number::base_of, crate::specs::Number::number_step, crate::specs::InternalNumber::capped))]
fn zero_step(signed: bool, minus: bool, b: u8) -> Number
    ensures { capped result ≡ capped (number_step (Number.Zero signed minus) b) }
{
    match b {
        b'.' => Number::Dot { minus, m: 0 },
        b'e' | b'E' => Number::ExpLetter {
            minus,
            m: 0,
            places: 0,
        },
        b'x' if !signed => Number::Prefix { base: 16 },
        b'o' if !signed => Number::Prefix { base: 8 },
        b'b' if !signed => Number::Prefix { base: 2 },
        _ => Number::Bad,
    }
}

#[tactic(auto, using(crate::proofs::NumberLaws::cap_cap), unfolding(crate::specs::Number::number_step, crate::specs::InternalNumber::capped))]
fn digit_step(minus: bool, m: u64, b: u8) -> Number
    ensures { capped result ≡ capped (number_step (Number.Digit minus m) b) }
{
    match digit_in(10, b) {
        Some(d) => Number::Digit {
            minus,
            m: and_digit(10, m, d),
        },
        None => match b {
            b'_' => Number::Underscore { minus, m },
            b'.' => Number::Dot { minus, m },
            b'e' | b'E' => Number::ExpLetter {
                minus,
                m,
                places: 0,
            },
            _ => Number::Bad,
        },
    }
}

#[tactic(auto, using(crate::proofs::NumberLaws::cap_cap), unfolding(crate::specs::Number::number_step, crate::specs::InternalNumber::capped))]
fn underscore_step(minus: bool, m: u64, b: u8) -> Number
    ensures { capped result ≡ capped (number_step (Number.Underscore minus m) b) }
{
    match digit_in(10, b) {
        Some(d) => Number::Digit {
            minus,
            m: and_digit(10, m, d),
        },
        None => Number::Bad,
    }
}

#[tactic(auto, using(crate::proofs::NumberLaws::cap_cap), unfolding(crate::specs::Number::number_step, crate::specs::InternalNumber::capped))]
fn dot_step(minus: bool, m: u64, b: u8) -> Number
    ensures { capped result ≡ capped (number_step (Number.Dot minus m) b) }
{
    match digit_in(10, b) {
        Some(d) => Number::Fraction {
            minus,
            m: and_digit(10, m, d),
            places: 1,
        },
        None => Number::Bad,
    }
}

#[tactic(auto, unfolding(crate::specs::Number::number_step, crate::specs::InternalNumber::capped))]
fn prefix_step(base: u64, b: u8) -> Number
    ensures { capped result ≡ capped (number_step (Number.Prefix base) b) }
{
    match digit_in(base, b) {
        Some(d) => Number::Based { base, m: d },
        None => Number::Bad,
    }
}

#[tactic(auto, using(crate::proofs::NumberLaws::cap_cap), unfolding(crate::specs::Number::number_step, crate::specs::InternalNumber::capped))]
fn based_step(base: u64, m: u64, b: u8) -> Number
    ensures { capped result ≡ capped (number_step (Number.Based base m) b) }
{
    match digit_in(base, b) {
        Some(d) => Number::Based {
            base,
            m: and_digit(base, m, d),
        },
        None => match b {
            b'_' => Number::BasedUnderscore { base, m },
            _ => Number::Bad,
        },
    }
}

#[tactic(auto, using(crate::proofs::NumberLaws::cap_cap), unfolding(crate::specs::Number::number_step, crate::specs::InternalNumber::capped))]
fn based_underscore_step(base: u64, m: u64, b: u8) -> Number
    ensures { capped result ≡ capped (number_step (Number.BasedUnderscore base m) b) }
{
    match digit_in(base, b) {
        Some(d) => Number::Based {
            base,
            m: and_digit(base, m, d),
        },
        None => Number::Bad,
    }
}

#[tactic(auto, using(crate::proofs::NumberLaws::cap_cap), unfolding(crate::specs::Number::number_step, crate::specs::InternalNumber::capped))]
fn fraction_step(minus: bool, m: u64, places: u64, b: u8) -> Number
    requires { places < 18446744073709551615 }
    ensures { capped result ≡ capped (number_step (Number.Fraction minus m places) b) }
{
    match digit_in(10, b) {
        Some(d) => Number::Fraction {
            minus,
            m: and_digit(10, m, d),
            places: places + 1,
        },
        None => match b {
            b'_' => Number::FractionUnderscore { minus, m, places },
            b'e' | b'E' => Number::ExpLetter { minus, m, places },
            _ => Number::Bad,
        },
    }
}

#[tactic(auto, using(crate::proofs::NumberLaws::cap_cap), unfolding(crate::specs::Number::number_step, crate::specs::InternalNumber::capped))]
fn fraction_underscore_step(minus: bool, m: u64, places: u64, b: u8) -> Number
    requires { places < 18446744073709551615 }
    ensures { capped result ≡ capped (number_step (Number.FractionUnderscore minus m places) b) }
{
    match digit_in(10, b) {
        Some(d) => Number::Fraction {
            minus,
            m: and_digit(10, m, d),
            places: places + 1,
        },
        None => Number::Bad,
    }
}

#[tactic(auto, unfolding(crate::specs::Number::number_step, crate::specs::InternalNumber::capped))]
fn exp_letter_step(minus: bool, m: u64, places: u64, b: u8) -> Number
    ensures { capped result ≡ capped (number_step (Number.ExpLetter minus m places) b) }
{
    match b {
        b'+' => Number::ExpSign {
            minus,
            m,
            places,
            below: false,
        },
        b'-' => Number::ExpSign {
            minus,
            m,
            places,
            below: true,
        },
        // no sign: judged as a first digit, as after a `+`
        _ => exp_sign_step(minus, m, places, false, b),
    }
}

#[tactic(auto, unfolding(crate::specs::Number::number_step, crate::specs::InternalNumber::capped))]
fn exp_sign_step(minus: bool, m: u64, places: u64, below: bool, b: u8) -> Number
    ensures { capped result ≡ capped (number_step (Number.ExpSign minus m places below) b) }
{
    // a first digit: judged as a further one, after 0
    exp_underscore_step(minus, m, places, below, 0, b)
}

#[tactic(auto, unfolding(text::specs::Bytes::digit_value, crate::specs::Number::number_step, crate::specs::InternalNumber::capped))]
fn exp_digit_step(minus: bool, m: u64, places: u64, below: bool, exp: u64, b: u8) -> Number
    ensures { capped result ≡ capped (number_step (Number.ExpDigit minus m places below exp) b) }
{
    match b {
        b'_' => Number::ExpUnderscore {
            minus,
            m,
            places,
            below,
            exp,
        },
        // no underscore: judged as a digit, as after one
        _ => exp_underscore_step(minus, m, places, below, exp, b),
    }
}

#[tactic(auto, using(crate::proofs::NumberLaws::cap_cap), unfolding(crate::specs::Number::number_step, crate::specs::InternalNumber::capped))]
fn exp_underscore_step(minus: bool, m: u64, places: u64, below: bool, exp: u64, b: u8) -> Number
    ensures { capped result ≡ capped (number_step (Number.ExpUnderscore minus m places below exp) b) }
{
    let Some(d) = digit_in(10, b) else {
        return Number::Bad;
    };
    Number::ExpDigit {
        minus,
        m,
        places,
        below,
        exp: and_digit(10, exp, d),
    }
}

// The machine after one byte more.
#[tactic(auto, unfolding(crate::specs::Number::number_step, crate::specs::InternalNumber::capped, crate::specs::InternalNumber::places_of))]
fn number_step(state: Number, b: u8) -> Number
    requires { places_of state < 18446744073709551615 }
    ensures { capped result ≡ capped (number_step state b) }
{
    match state {
        Number::Start => start_step(b),
        Number::Bad => Number::Bad,
        Number::Sign { minus } => sign_step(minus, b),
        Number::Zero { signed, minus } => zero_step(signed, minus, b),
        Number::Digit { minus, m } => digit_step(minus, m, b),
        Number::Underscore { minus, m } => underscore_step(minus, m, b),
        Number::Dot { minus, m } => dot_step(minus, m, b),
        Number::Prefix { base } => prefix_step(base, b),
        Number::Based { base, m } => based_step(base, m, b),
        Number::BasedUnderscore { base, m } => based_underscore_step(base, m, b),
        Number::Fraction { minus, m, places } => fraction_step(minus, m, places, b),
        Number::FractionUnderscore { minus, m, places } => fraction_underscore_step(
            minus, m, places, b,
        ),
        Number::ExpLetter { minus, m, places } => exp_letter_step(minus, m, places, b),
        Number::ExpSign {
            minus,
            m,
            places,
            below,
        } => exp_sign_step(minus, m, places, below, b),
        Number::ExpDigit {
            minus,
            m,
            places,
            below,
            exp,
        } => exp_digit_step(minus, m, places, below, exp, b),
        Number::ExpUnderscore {
            minus,
            m,
            places,
            below,
            exp,
        } => exp_underscore_step(minus, m, places, below, exp, b),
    }
}

// An integer's meaning. Its lowest is one below the negative of MOST, so the sign is taken from m - 1, which fits.
fn as_integer(minus: bool, m: u64) -> Result<NumberValue, NumberError>
    ensures { result ≡ as_integer minus m }
{
    if minus {
        if MOST + 1 < m {
            return Err(NumberError::TooWide);
        }
        if m == 0 {
            return Ok(NumberValue::Integer(0));
        }
        let less = (m - 1) as i64;
        return Ok(NumberValue::Integer(-1 - less));
    }
    if MOST < m {
        return Err(NumberError::TooWide);
    }
    Ok(NumberValue::Integer(m as i64))
}

// A decimal's meaning with this power, or its negative where it is below 0.
fn as_decimal(minus: bool, m: u64, below: bool, power: u64) -> Result<NumberValue, NumberError>
    ensures { result ≡ as_decimal minus m (signed_by below power) }
{
    if MOST < m {
        return Err(NumberError::TooWide);
    }
    if MOST_POWER < power {
        return Err(NumberError::TooWide);
    }
    let p = power as i64;
    if below {
        return Ok(NumberValue::Decimal { minus, m, p: 0 - p });
    }
    Ok(NumberValue::Decimal { minus, m, p })
}

// A decimal's meaning with an exponent.
fn with_exponent(
    minus: bool,
    m: u64,
    places: u64,
    below: bool,
    exp: u64,
) -> Result<NumberValue, NumberError>
    ensures { result ≡ as_decimal minus m (signed_by below exp +ℤ neg_ℤ (pos places)) }
{
    if below {
        if MOST_POWER < exp {
            return Err(NumberError::TooWide);
        }
        if MOST_POWER < places {
            return Err(NumberError::TooWide);
        }
        return as_decimal(minus, m, true, exp + places);
    }
    if exp < places {
        return as_decimal(minus, m, true, places - exp);
    }
    as_decimal(minus, m, false, exp - places)
}

// What the machine means where it stops.
#[tactic(auto, unfolding(crate::specs::Number::meaning))]
fn meaning_of(state: Number) -> Result<NumberValue, NumberError>
    ensures { result ≡ meaning state }
{
    match state {
        Number::Zero { minus, .. } => as_integer(minus, 0),
        Number::Digit { minus, m } => as_integer(minus, m),
        Number::Based { m, .. } => as_integer(false, m),
        Number::Fraction { minus, m, places } => as_decimal(minus, m, true, places),
        Number::ExpDigit {
            minus,
            m,
            places,
            below,
            exp,
        } => with_exponent(minus, m, places, below, exp),
        _ => Err(NumberError::Malformed),
    }
}

// What a number token means.
pub fn number_of(token: &[u8]) -> Result<NumberValue, NumberError>
    ensures { result ≡ number token.now }
{
    let mut state = Number::Start;
    for b in token {
        state = number_step(state, *b);
    }
    meaning_of(state)
}
