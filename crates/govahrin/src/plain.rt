// Why a draw waited, in plain numbers for a host in C.
ghost use Rattle.std.specs.Prelude.{◌≡◌};
ghost use Rattle.rules.specs.Why.{event_or_none, plain_account, plain_reason};

use rules::{Account, NO_EVENT, PlainReason, Reason};

// An event by its number, or what a host is told where there is none.
fn event_or_none(event: Option<u32>) -> u32
    ensures { result ≡ event_or_none event }
{
    event.unwrap_or(NO_EVENT)
}

fn plain_account(account: Account) -> PlainReason
    ensures { result ≡ plain_account account }
{
    PlainReason {
        number: 0,
        detail: 0,
        brought: event_or_none(account.brought),
        taken: event_or_none(account.taken),
        own: account.waits.own,
        another: account.waits.another,
        nothing: account.waits.nothing,
    }
}

// Of a refusal the five numbers after the detail are 0.
pub fn plain_reason(reason: Reason) -> PlainReason
    ensures { result ≡ plain_reason reason }
{
    if reason.number == 0 {
        return plain_account(reason.account);
    }
    PlainReason {
        number: reason.number,
        detail: reason.detail,
        brought: 0,
        taken: 0,
        own: 0,
        another: 0,
        nothing: 0,
    }
}
