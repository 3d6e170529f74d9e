// The walk along a load list: a reader that holds the caller's bytes and its place in them.
ghost use Rattle.std.specs.Prelude.{◌≡◌, drop};
ghost use Rattle.rules.specs.LoadList.{read_event, event_at};

use crate::list::read_event;
use rules::Event;

// The work: the event at a place of the list, read from the part that begins there.
fn event_in(list: &[u8], at: usize) -> Option<Event>
    ensures { result ≡ read_event (drop at list.now) }
{
    if at < list.len() {
        read_event(&list[at..])
    } else {
        None
    }
}

// The reader: a list, and the place of the event that it comes to next.
#[derive(Drop)]
pub struct Walk<'a> {
    pub list: &'a [u8],
    pub at: usize,
}

fn placed<'a>(list: &'a [u8], at: usize) -> Walk<'a>
    ensures { (result.list ≡ list.entry) × (result.at ≡ at) }
{
    Walk { list, at }
}

fn here<'a>(w: Walk<'a>) -> Option<Event>
    ensures { result ≡ read_event (drop w.entry.at w.entry.list.now) }
{
    event_in(w.list, w.at)
}

// From a list and a place to the event there, through the reader: whoever calls this one meets plain bytes and numbers.
fn event_from(list: &[u8], at: usize) -> Option<Event>
    ensures { result ≡ read_event (drop at list.now) }
{
    here(placed(list, at))
}

// The event of this number.
pub fn event_of(list: &[u8], index: u32) -> Option<Event>
    ensures { result ≡ read_event (drop (event_at index) list.now) }
{
    event_from(list, 7 + 7 * index as usize)
}
