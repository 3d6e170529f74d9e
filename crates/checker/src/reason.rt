// Why a draw waited: the refusals of a check, then the run with the account of the draw.
ghost use Rattle.std.specs.Prelude.{◌≡◌, ◌<◌, get_or};
ghost use Rattle.rules.specs.Job.{call, draws_of};
ghost use Rattle.rules.specs.Why.{why};
ghost use Rattle.checker.specs.Follow.{call_of};
ghost use Rattle.checker.specs.Accounts.{AccountedFor, reason_in};

use crate::account::untold;
use crate::job::TakenJob;
use crate::run::run_told;
use rules::{Account, FREE, Reason, Refusal};
use sheet::LoadList;

// The symbol of a draw; past the last draw there is none.
fn symbol_of(job: TakenJob<'_>, draw: u32) -> u16
    ensures { draw < job.entry.shape.draws → result ≡ get_or (draws_of (call_of job.entry)) draw 0 }
{
    if job.shape.draws as u32 <= draw {
        return FREE;
    }
    sheet::draw_symbol(job.bytes, job.shape, draw as u16)
}

// The account from the run for a job and a list that were read. Nobody asks for the ticks and the slots of all draws, so none are noted.
fn account_of(job: TakenJob<'_>, list: LoadList<'_>, draw: u32) -> Result<Account, Refusal>
    ensures { AccountedFor (call_of job.entry) list.entry.count list.entry.bytes.now draw result }
{
    let k = job.shape.slots;
    let mut held = sheet::starting_slots(job.bytes, k);
    let symbol = symbol_of(job, draw);
    run_told(job, list, &mut held[..k as usize], draw, symbol)
}

// The account of this draw, or the one refusal: those of a check in their order, then 18. No room is lent, so 7 is not given.
fn explain(job: &[u8], list: &[u8], draw: u32, rounds: u32) -> Result<Account, Refusal>
    ensures { reason_in result ≡ why (call job.now rounds) list.now draw }
{
    let job = TakenJob::read(job, rounds)?;
    let list = LoadList::read(list)?;
    list.check_ticks()?;
    let account = account_of(job, list, draw)?;
    if job.shape.draws as u32 <= draw {
        return Err(Refusal::NoSuchDraw);
    }
    Ok(account)
}

// What is answered: the account, or the number and detail of the refusal, which tells nothing of the draw.
fn reason_of(explained: Result<Account, Refusal>) -> Reason
    ensures { result ≡ reason_in explained }
{
    match explained {
        Ok(account) => Reason {
            number: 0,
            detail: 0,
            account,
        },
        Err(refusal) => Reason {
            number: refusal.number(),
            detail: refusal.detail(),
            account: untold(),
        },
    }
}

// Why this draw of a list for this many rounds of a job waited.
pub fn why(job: &[u8], list: &[u8], draw: u32, rounds: u32) -> Reason
    ensures { result ≡ why (call job.now rounds) list.now draw }
{
    let explained = explain(job, list, draw, rounds);
    reason_of(explained)
}
