// Reading a line of a text: its numbers with the byte after each, and its event. A number over the last tick is kept as the first one
// over it, so no number of digits is too many.
ghost use Rattle.std.specs.Prelude.{◌≡◌, ◌+◌, ◌*◌, ◌-◌, ◌≤◌, drop};
ghost use Rattle.rules.specs.LoadList.{last_tick};
ghost use Rattle.rules.specs.Text.{is_digit, read_field, read_line};
ghost use Rattle.text.specs.Found.{kept, WithDigit, DigitsFound, FirstDigit, NumberFound, Stop, field_found, line_found};

use rules::{Event, LAST_TICK};

// The digits from a place on: where they end, and the number that they name.
#[derive(Drop)]
pub struct Digits {
    pub end: usize,
    pub number: u32,
}

// A number with the byte after it, and the place after that byte.
#[derive(Drop)]
pub struct Field {
    pub number: u32,
    pub after: usize,
}

// A line's event, and the place after the line.
#[derive(Drop)]
pub struct Line {
    pub event: Event,
    pub after: usize,
}

// One digit more after a number.
fn with_digit(number: u32, byte: u8) -> u32
    requires { WithDigit number byte }
    ensures { result ≡ kept (10 * number + (byte - 48)) }
{
    (10 * number + (byte - b'0') as u32).min(LAST_TICK + 1)
}

// The digits from a place on, after those that made `sum`.
fn digits_at(text: &[u8], from: usize, sum: u32) -> Digits
    requires { sum ≤ last_tick + 1 }
    ensures { DigitsFound sum (drop from text.now) from result }
{
    let mut number = sum;
    for end in from..text.len() {
        let byte = text[end];
        if !byte.is_ascii_digit() {
            return Digits { end, number };
        }
        number = with_digit(number, byte);
    }
    Digits {
        end: from.max(text.len()),
        number,
    }
}

// The number whose first digit is at a place. No digit may come after a zero, so a zero is a whole number.
fn number_at(text: &[u8], from: usize, first: u8) -> Digits
    requires { FirstDigit text.now from first }
    ensures { NumberFound (drop from text.now) from result }
{
    if first == b'0' {
        return Digits {
            end: from + 1,
            number: 0,
        };
    }
    digits_at(text, from + 1, (first - b'0') as u32)
}

// A number from a place on that ends with this byte, or none where there is no number in the shape.
fn field_at(text: &[u8], from: usize, stop: u8) -> Option<Field>
    requires { Stop stop }
    ensures { result ≡ field_found from (read_field stop (drop from text.now)) }
{
    let first = *text.get(from)?;
    if !first.is_ascii_digit() {
        return None;
    }
    let Digits { end, number } = number_at(text, from, first);
    if *text.get(end)? != stop {
        return None;
    }
    Some(Field {
        number,
        after: end + 1,
    })
}

// The line from a place on, or none where it is outside the shape.
pub fn line_at(text: &[u8], from: usize) -> Option<Line>
    ensures { result ≡ line_found from (read_line (drop from text.now)) }
{
    let first = field_at(text, from, b' ')?;
    let second = field_at(text, first.after, b' ')?;
    let slot = u8::try_from(second.number).ok()?;
    let third = field_at(text, second.after, b'\n')?;
    let symbol = u16::try_from(third.number).ok()?;
    let event = Event {
        tick: first.number,
        slot,
        symbol,
    };
    Some(Line {
        event,
        after: third.after,
    })
}
