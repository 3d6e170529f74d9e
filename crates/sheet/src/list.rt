// Reading a load list, head and events, and writing one into lent room.
ghost use Rattle.std.specs.Prelude.{◌≡◌, ◌+◌, ◌*◌};
ghost use Rattle.rules.specs.LoadList.{event, event_at, head_size, event_size, read_event, event_bytes, put, put_head, put_event};
ghost use Rattle.rules.specs.Refusals.{read_list};
ghost use Rattle.sheet.specs.Put.{put_result};

use crate::number::{byte_at, number16_at, number32_at};
use rules::{Event, MOST_EVENTS, Refusal};

// The number of bytes of a list of this many events: a head, and an event to each.
pub fn list_size(events: u32) -> usize
    ensures { result ≡ head_size + event_size * events }
{
    7 + 7 * events as usize
}

// The number of events, or that these bytes are no list. (Refusal 8)
pub fn read_list(list: &[u8]) -> Option<u16>
    ensures { result ≡ read_list list.now }
{
    let length = number32_at(list, 0);
    let count = number16_at(list, 5);
    if list.len() < 7
        || length as usize != list.len() - 4
        || byte_at(list, 4) != 1
        || MOST_EVENTS < count
        || length != 3 + 7 * count as u32
    {
        return None;
    }
    Some(count)
}

// The event at the front of the part of a list that begins at it.
pub fn read_event(part: &[u8]) -> Option<Event>
    ensures { result ≡ read_event part.now }
{
    if part.len() < 7 {
        return None;
    }
    Some(Event {
        tick: number32_at(part, 0),
        slot: byte_at(part, 4),
        symbol: number16_at(part, 5),
    })
}

// A number of four bytes, a byte and a number of two. A list's head and its events are all of this form.
fn seven_bytes(long: u32, byte: u8, short: u16) -> [u8; 7]
    ensures { result ≡ event_bytes (event long byte short) }
{
    let [a, b, c, d] = long.to_be_bytes();
    let [high, low] = short.to_be_bytes();
    [a, b, c, d, byte, high, low]
}

// Writes them at a place of the room, if it is long enough, and leaves every other byte alone.
fn put_at(room: &mut [u8], at: u32, bytes: [u8; 7]) -> Result<(), Refusal>
    ensures answers { result ≡ put_result at event_size room.old }
    ensures written { room.new ≡ put at bytes room.old }
{
    let from = at as usize;
    if room.len() < from + 7 {
        return Err(Refusal::ShortRoom);
    }
    room[from..from + 7].copy_from_slice(&bytes);
    Ok(())
}

// Writes the head of a list of this many events at the front of the room.
pub fn put_head(room: &mut [u8], count: u16) -> Result<(), Refusal>
    ensures answers { result ≡ put_result 0 head_size room.old }
    ensures written { room.new ≡ put_head count room.old }
{
    put_at(room, 0, seven_bytes(3 + 7 * count as u32, 1, count))
}

// Writes an event at its place of the room.
pub fn put_event(room: &mut [u8], index: u16, event: Event) -> Result<(), Refusal>
    ensures answers { result ≡ put_result (event_at index) event_size room.old }
    ensures written { room.new ≡ put_event index event room.old }
{
    put_at(
        room,
        7 + 7 * index as u32,
        seven_bytes(event.tick, event.slot, event.symbol),
    )
}
