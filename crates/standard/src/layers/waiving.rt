// Waiver: no statistics at levels with low references.
ghost use Rattle.std.specs.Prelude.{◌≡◌};
ghost use Rattle.standard.specs.Layers.{unwaived, waiver};
ghost use Rattle.std.proofs.Common.{rules};

use super::Waiver;
use crate::standards::{Limits, Standard};
use statistics::is_waived;
use tally::Tally;
use terms::{Head, Level};

impl<S: Standard> Standard for Waiver<S> {
    ghost meaning = { λ s. waiver s.head (S.Standard.meaning s.below) };

    ghost lawful = { Prim.search rules };

    fn accuracy(&self, level: Level, kept: &Tally) -> bool {
        self.below.accuracy(level, kept)
    }

    fn statistics(&self, level: Level, kept: &Tally) -> bool {
        is_waived(&self.head, kept) || self.below.statistics(level, kept)
    }

    // Mostly nothing is waived, and the standard below is asked straight away.
    fn together(&self, low: &Tally, mid: &Tally, high: &Tally) -> bool {
        let head = &self.head;
        let (l, m, h) = (
            is_waived(head, low),
            is_waived(head, mid),
            is_waived(head, high),
        );
        if !l && !m && !h {
            return self.below.together(low, mid, high);
        }
        if l && m && h {
            return true;
        }
        self.below.together(
            &unwaived_of(head, low),
            &unwaived_of(head, mid),
            &unwaived_of(head, high),
        )
    }

    fn limits(&self) -> Limits {
        self.below.limits()
    }
}

// A tally, emptied where its level is waived.
fn unwaived_of(head: &Head, kept: &Tally) -> Tally
    ensures { result.sums ≡ unwaived head.now kept.now.sums }
{
    if is_waived(head, kept) {
        Tally::none()
    } else {
        *kept
    }
}
