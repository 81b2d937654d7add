// A whole list of calls, and the verdict at its end.
ghost use Rattle.std.specs.Prelude.{◌≡◌};
ghost use Rattle.campaign.specs.Account.{account};
ghost use Rattle.campaign.specs.Replaying.{held_id};
ghost use Rattle.campaign.specs.View.{view};
ghost use Rattle.judge.specs.Law.{Law};

use crate::judging::judge_by;
use campaign::{Call, Replayed, replay};
use judge::Verdict;
use standard::Standard;
use terms::Head;

// A campaign after a list of calls, and the verdict on it.
pub struct Judged {
    pub replayed: Replayed,
    pub verdict: Verdict,
}

// Makes an empty campaign, gives it the calls one after another, refused ones included, and judges what they leave. Head and
// serial come apart, since the log is the struct that holds them.
pub fn replay_and_judge<S: Standard>(
    standard: &S,
    head: Head,
    serial: u16,
    calls: &[Call],
) -> Judged
    ensures account { view result.replayed.log ≡ account head serial calls.now }
    ensures run { held_id result.replayed.run ≡ (view result.replayed.log).current }
    ensures law { Law (S.meaning standard.now) (account head serial calls.now).closed result.verdict }
{
    let replayed = replay(head, serial, calls);
    let verdict = judge_by(standard, &replayed.log);
    Judged { replayed, verdict }
}
