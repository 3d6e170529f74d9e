// A load list that was read: its bytes, as many as its events need, and the number of its events. Who has one need not test its size again.
ghost use Rattle.std.specs.Prelude.{◌≡◌, ◌<◌, drop, IfOk, Some, None};
ghost use Rattle.rules.specs.LoadList.{read_event, event_at};
ghost use Rattle.rules.specs.Refusals.{read_list};
ghost use Rattle.rules.specs.declared.refusal.Refusal.TheVariants.{ListForm};
ghost use Rattle.std.specs.Result.{IfErr};
ghost use Rattle.sheet.specs.Next.{NextEvent};
ghost use Rattle.sheet.specs.Size.{Sized};
ghost use Rattle.sheet.specs.Ticks.{in_order};

use crate::list::read_list;
use crate::ticks::first_bad_tick;
use crate::walk::event_of;
use rules::{Event, Refusal};

#[derive(Clone, Copy)]
pub struct LoadList<'a> {
    pub bytes: &'a [u8],
    pub count: u16,
    pub ghost sized: { Sized count bytes.now },
}

impl<'a> LoadList<'a> {
    // The list in these bytes, or that they are none.
    pub fn read(bytes: &'a [u8]) -> Result<LoadList<'a>, Refusal>
        ensures list { IfOk result (λ l. (read_list bytes.now ≡ Some l.count) × (l.bytes ≡ bytes.entry)) }
        ensures refusal { IfErr result (λ r. (read_list bytes.now ≡ None) × (r ≡ ListForm)) }
    {
        let Some(count) = read_list(bytes) else {
            return Err(Refusal::ListForm);
        };
        Ok(LoadList { bytes, count })
    }

    // The event of this number.
    pub fn event(self, index: u16) -> Event
        requires { index < self.count }
        ensures read { Some result ≡ read_event (drop (event_at index) self.entry.bytes.now) }
        ensures next { NextEvent self.entry.count self.entry.bytes.now index result }
    {
        let Some(event) = event_of(self.bytes, index as u32) else {
            unreachable!()
        };
        event
    }

    // The rule of ticks: none is over the limit, and each is above the one before.
    pub fn check_ticks(self) -> Result<(), Refusal>
        ensures { result ≡ in_order self.entry.count self.entry.bytes.now }
    {
        let first = first_bad_tick(self.bytes, self.count);
        if first < self.count as u32 {
            return Err(Refusal::EventTick { event: first });
        }
        Ok(())
    }
}
