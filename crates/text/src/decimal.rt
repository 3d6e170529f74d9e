// Numbers in decimal: how many digits one has, and one written into a text with the byte after it.
ghost use Rattle.std.specs.Prelude.{◌≡◌, ◌++◌, ◌+◌, ◌≤◌, length, take, drop};
ghost use Rattle.rules.specs.Text.{decimal, field};

pub fn digits(number: u32) -> usize
    ensures { (result ≡ length (decimal number)) × (result ≤ 10) }
{
    match number {
        0..10 => 1,
        10..100 => 2,
        100..1_000 => 3,
        1_000..10_000 => 4,
        10_000..100_000 => 5,
        100_000..1_000_000 => 6,
        1_000_000..10_000_000 => 7,
        10_000_000..100_000_000 => 8,
        100_000_000..1_000_000_000 => 9,
        _ => 10,
    }
}

// Writes a number from a place on, its last digit first, and the byte after it. The answer is the place after that byte.
pub fn put_field(text: &mut [u8], at: usize, number: u32, stop: u8) -> usize
    requires { at + length (field number stop) ≤ length text.old }
    ensures next { result ≡ at + length (field number stop) }
    ensures written { text.new ≡ take at text.old ++ field number stop ++ drop (at + length (field number stop)) text.old }
{
    let end = at + digits(number);
    text[end] = stop;
    let mut left = number;
    for place in (at + 1..end).rev() {
        text[place] = b'0' + (left % 10) as u8;
        left /= 10;
    }
    text[at] = b'0' + left as u8;
    end + 1
}
