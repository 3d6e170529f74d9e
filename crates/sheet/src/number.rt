// Big-endian numbers at a place of a slice, read and written. A byte past the end reads as 0, and nothing is written where there is
// too little room, so no place is refused.
ghost use Rattle.std.specs.Prelude.{◌≡◌, get_or};
ghost use Rattle.rules.specs.Basics.{number16, number32, bytes32};
ghost use Rattle.rules.specs.LoadList.{put};

pub fn byte_at(s: &[u8], at: usize) -> u8
    ensures { result ≡ get_or s.now at 0 }
{
    s.get(at).copied().unwrap_or(0)
}

pub fn number16_at(s: &[u8], at: usize) -> u16
    ensures { result ≡ number16 s.now at }
{
    match s.get(at..) {
        Some([high, low, ..]) => u16::from_be_bytes([*high, *low]),
        Some([high]) => u16::from_be_bytes([*high, 0]),
        _ => 0,
    }
}

pub fn number32_at(s: &[u8], at: usize) -> u32
    ensures { result ≡ number32 s.now at }
{
    match s.get(at..) {
        Some([a, b, c, d, ..]) => u32::from_be_bytes([*a, *b, *c, *d]),
        Some([a, b, c]) => u32::from_be_bytes([*a, *b, *c, 0]),
        Some([a, b]) => u32::from_be_bytes([*a, *b, 0, 0]),
        Some([a]) => u32::from_be_bytes([*a, 0, 0, 0]),
        _ => 0,
    }
}

// Writes a number over four bytes from a place on, if they are there, and leaves every other byte alone.
pub fn put_number32(room: &mut [u8], at: usize, number: u32)
    ensures { room.new ≡ put at (bytes32 number) room.old }
{
    if room.len() < 4 {
        return;
    }
    if room.len() - 4 < at {
        return;
    }
    room[at..at + 4].copy_from_slice(&number.to_be_bytes());
}
