// How a log is judged.
ghost use Rattle.campaign.specs.View.{view};
ghost use Rattle.judge.specs.Law.{Law};
ghost use Rattle.standard.specs.Layers.{ps16};

use campaign::Log;
use judge::{Verdict, judge};
use standard::{Ps16, Standard};

// The verdict on the closed runs of a log, by any standard. A run that is begun and not ended is no closed run.
pub fn judge_by<S: Standard>(standard: &S, log: &Log) -> Verdict
    ensures { Law (S.meaning standard.now) (view log.now).closed result }
{
    judge(standard, &log.runs())
}

// The same by PS-16. The pile of layers is chosen by the head before the search, so that each is a search of its own: were `Ps16`
// a standard itself, each of its questions would choose anew.
pub fn judge_by_ps16(log: &Log) -> Verdict
    ensures { Law (ps16 (view log.now).head) (view log.now).closed result }
{
    match Ps16::of(log.head()) {
        Ps16::Excess(standard) => judge_by(&standard, log),
        Ps16::ExcessDiluent(standard) => judge_by(&standard, log),
        Ps16::Compliance(standard) => judge_by(&standard, log),
        Ps16::ComplianceDiluent(standard) => judge_by(&standard, log),
    }
}
