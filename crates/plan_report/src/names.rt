// The plans by their names and their numbers: what an argument of the program names, what a summary prints, what a call is asked with.
ghost use Rattle.std.specs.Prelude.{◌≡◌};
ghost use Rattle.rules.specs.Plans.{plan_number};
ghost use Rattle.plan_report.specs.Names.{plan_name, number_or_none, plan_named};

use rules::Plan;
use std::rt::Env;
use std::str;

// The number by which a call is asked for this plan.
pub fn number_of(plan: Plan) -> u32
    ensures { result ≡ plan_number plan }
{
    plan as u32
}

pub fn name_of(plan: Plan) -> &'static str
    ensures { result.now ≡ plan_name plan }
{
    match plan {
        Plan::Aggressive => "aggressive",
        Plan::Conservative => "conservative",
        Plan::Opt => "opt",
        Plan::Lru => "lru",
    }
}

#[tactic(auto, using(crate::proofs::Named::by_name))]
pub fn plan_of(name: &[u8]) -> Option<Plan>
    ensures { number_or_none result ≡ plan_named name.now }
{
    match str::from_utf8(name) {
        Ok("aggressive") => Some(Plan::Aggressive),
        Ok("conservative") => Some(Plan::Conservative),
        Ok("opt") => Some(Plan::Opt),
        Ok("lru") => Some(Plan::Lru),
        _ => None,
    }
}

// The longest name has 12 bytes. An argument that is missing or longer is the name of no plan.
pub fn plan_argument<E: Env>(rt: &E, argument: usize) -> Option<Plan> {
    let mut name = [0u8; 12];
    let length = rt.arg(argument, &mut name).ok()?;
    plan_of(&name[..length])
}
