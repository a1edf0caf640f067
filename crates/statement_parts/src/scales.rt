//! Delays in ticks, of which all times of a run are made (19.8).

ghost use Rattle.std.specs.Prelude.{◌≡◌, ◌<◌, ◌+◌, ◌-◌, ◌*◌, ◌^◌, ◌&&◌, true, false, IfSome, MatchOption, if◌then◌else◌};
ghost use Rattle.statement_parts.specs.Scales as spec;

/// The unit and the precision of a module: each is one tick, multiplied by ten so often. `shown` is how often the least precision of all
/// modules is multiplied by ten to be the unit: formats of the time show it in those (17.1.1.6).
#[derive(Clone, Copy)]
pub struct TimeScale {
    pub unit: u8,
    pub precision: u8,
    pub shown: u8,
}

/// The scale of a module where none is told: a unit is a tick.
pub const TICKS: TimeScale = TimeScale {
    unit: 0,
    precision: 0,
    shown: 0,
};

/// A module by its first token, and its scale.
#[derive(Clone, Copy)]
pub struct ModuleScale {
    pub token: usize,
    pub scale: TimeScale,
}

/// A number with a point: its digits, and how many of them stand behind the point.
#[derive(Clone, Copy)]
pub struct Decimal {
    pub digits: u64,
    pub behind: u8,
}

/// The longest delay of a run, in ticks.
const LONGEST: u64 = 4_294_967_295;

/// A number multiplied by ten so often, where that is no longer than a delay may be.
fn in_tens(number: u64, power: u8) -> Option<u64>
    ensures { MatchOption result (spec.longest < number * 10 ^ power) (λ found. found ≡ number * 10 ^ power) }
{
    if number > LONGEST {
        return None;
    }
    if power == 0 {
        return Some(number);
    }
    in_tens(number * 10, power - 1)
}

/// A number divided by ten so often, rounded.
fn rounded(number: u64, power: u8) -> u64
    ensures { spec.IsRounded number (10 ^ power) result }
{
    if power == 0 {
        return number;
    }
    if power > 1 {
        return rounded(number / 10, power - 1);
    }
    if number % 10 < 5 {
        number / 10
    } else {
        number / 10 + 1
    }
}

/// A delay of so many units, in ticks. None where it is longer than one may be.
pub fn scaled(delay: u64, scale: TimeScale) -> Option<u64>
    ensures { MatchOption result (spec.longest < delay * 10 ^ scale.unit) (λ ticks. ticks ≡ delay * 10 ^ scale.unit) }
{
    in_tens(delay, scale.unit)
}

/// The value of a byte as a digit.
fn digit(byte: u8) -> Option<u64>
    ensures { MatchOption result (spec.is_decimal_byte byte ≡ false) (λ value. (spec.is_decimal_byte byte ≡ true) × (value ≡ byte - 48)) }
{
    if b'0' <= byte && byte <= b'9' {
        Some(u64::from(byte - b'0'))
    } else {
        None
    }
}

/// A number with a byte more of its text: a digit, the point or a `_`.
fn with_byte(number: Decimal, pointed: bool, byte: u8) -> Option<Decimal>
    ensures digits { IfSome result (λ made. made.digits ≡ (if spec.is_decimal_byte byte then number.digits * 10 + (byte - 48) else number.digits)) }
    ensures behind { IfSome result (λ made. made.behind ≡ number.behind + (if spec.is_decimal_byte byte && pointed then 1 else 0)) }
{
    if byte == b'.' || byte == b'_' {
        return Some(number);
    }
    let value = digit(byte)?;
    let digits = number.digits.checked_mul(10)?.checked_add(value)?;
    let behind = number.behind.checked_add(u8::from(pointed))?;
    Some(Decimal { digits, behind })
}

/// The number that a text with a point spells (3.5.2). None where it has an exponent, or more digits than 64 bits hold.
pub fn decimal_of(text: &[u8]) -> Option<Decimal>
    ensures digits { IfSome result (λ number. number.digits ≡ spec.number_behind 0 text.now) }
    ensures behind { IfSome result (λ number. number.behind ≡ spec.digits_behind text.now) }
{
    let mut left = text;
    let mut pointed = false;
    let mut number = Decimal {
        digits: 0,
        behind: 0,
    };
    while let [byte, rest @ ..] = left {
        number = with_byte(number, pointed, *byte)?;
        pointed = pointed || *byte == b'.';
        left = rest;
    }
    Some(number)
}

/// A delay of a number with a point, in ticks, rounded to the precision. None where it is longer than one may be.
pub fn scaled_decimal(number: Decimal, scale: TimeScale) -> Option<u64>
    ensures { IfSome result (spec.IsScaled number scale) }
{
    let finer = scale.unit.saturating_sub(scale.precision);
    let whole = if number.behind <= finer {
        in_tens(number.digits, finer - number.behind)?
    } else {
        rounded(number.digits, number.behind - finer)
    };
    in_tens(whole, scale.precision)
}
