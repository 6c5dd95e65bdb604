// The reply to a move that was judged, as document 01 numbers refusals.
ghost use Rattle.std.specs.Prelude.{◌≡◌};
ghost use Rattle.cows.specs.Step.{reply_to};
ghost use Rattle.plans.specs.Plans.{refusal_of};
ghost use Rattle.stepper.specs.Replies.{reply_of, Fitting};

use plans::{Plan, Refusal};
use tables::{Reply, refusal};

// The reply to a move that is refused.
#[tactic(auto, unfolding(cows::specs::Step::reply_to))]
pub fn refused(why: Refusal) -> Reply
    ensures { result ≡ reply_of (reply_to (refusal_of why)) }
{
    match why {
        Refusal::Unread => refusal(10, 0),
        Refusal::Absent(p) => refusal(11, p),
        Refusal::Differs(p) => refusal(12, p),
        Refusal::Apart(p) => refusal(13, p),
        Refusal::Held(p) => refusal(14, p),
        Refusal::Looser(p) => refusal(15, p),
        Refusal::Unripe(p) => refusal(16, p),
        Refusal::Timeless => refusal(17, 0),
        Refusal::Stuck(p) => refusal(18, p),
        Refusal::Large(_) => refusal(20, 0),
    }
}

// The plan of an allowed move whose successor fits so many bytes, or the reply to its refusal.
pub fn fitting(judged: Result<Plan, Refusal>, room: usize) -> Result<Plan, Reply>
    ensures { Fitting judged room result }
{
    let plan = judged.map_err(refused)?;
    if room / 16 < plan.records {
        return Err(refusal(21, 0));
    }
    Ok(plan)
}
