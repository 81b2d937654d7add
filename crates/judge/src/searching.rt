// The selection that strikes fewest and, among equals, comes first.
ghost use Rattle.std.specs.Prelude.{◌≡◌, ◌+◌, ◌≤◌, MatchOption};
ghost use Rattle.judge.specs.Search.{AllEmpty, Fewest, Found, NoStrike, NoneBelow, Searches, group};
ghost use Rattle.judge.specs.Shortlists.{IsEmpty, listed};
ghost use Rattle.runs.specs.Closed.{lists_of};

use crate::listing::Candidates;
use crate::shortlists::{ByCount, Entry, Shortlist};
use runs::{ClosedRuns, Selection};
use standard::Standard;
use terms::{Level, Levels};

// The shortlists of the three levels under a standard.
// That they are whole stands in clauses: it shows sets, and a ghost field may hold only a fact that cannot hold in two ways.
#[derive(Drop)]
pub(crate) struct Search<'a, S> {
    pub(crate) standard: &'a S,
    pub(crate) low: ByCount,
    pub(crate) mid: Shortlist,
    pub(crate) high: Shortlist,
}

impl<'a, S: Standard> Search<'a, S> {
    // A search that has no shortlists yet.
    pub(crate) fn new(standard: &'a S) -> Search<'a, S>
        ensures standard { result.standard.now ≡ standard.now }
        ensures low { AllEmpty result.low }
        ensures mid { IsEmpty result.mid }
        ensures high { IsEmpty result.high }
    {
        Search {
            standard,
            low: ByCount {
                groups: [
                    Shortlist::none(),
                    Shortlist::none(),
                    Shortlist::none(),
                    Shortlist::none(),
                ],
            },
            mid: Shortlist::none(),
            high: Shortlist::none(),
        }
    }

    // Makes the shortlists of the closed runs.
    pub(crate) fn gather(&mut self, closed: &'a Levels<ClosedRuns>)
        requires low { AllEmpty self.old.low }
        requires mid { IsEmpty self.old.mid }
        requires high { IsEmpty self.old.high }
        ensures standard { self.new.standard.now ≡ self.old.standard.now }
        ensures whole { Searches (S.meaning self.old.standard.now) (lists_of closed.now) self.new.low self.new.mid self.new.high }
    {
        let standard = self.standard;
        let at = |level: Level, from: u32, to: u32| Candidates {
            standard,
            level,
            runs: closed.at(level),
            strikes: from..=to,
        };
        let low = &mut self.low;
        at(Level::Low, 0, 0).gather(&mut low.groups[0]);
        at(Level::Low, 1, 1).gather(&mut low.groups[1]);
        at(Level::Low, 2, 2).gather(&mut low.groups[2]);
        at(Level::Low, 3, 3).gather(&mut low.groups[3]);
        at(Level::Mid, 0, 3).gather(&mut self.mid);
        at(Level::High, 0, 3).gather(&mut self.high);
    }

    // The selection that strikes fewest and comes first, and how many it strikes.
    pub(crate) fn fewest(&self) -> Option<(Selection, u32)>
        ensures { MatchOption result (NoneBelow (S.meaning self.now.standard.now) self.now.low (listed self.now.mid) (listed self.now.high) ((S.meaning self.now.standard.now).most_in_all + 1)) (λ x. Fewest (S.meaning self.now.standard.now) self.now.low (listed self.now.mid) (listed self.now.high) x.0 x.1) }
    {
        for total in 0..=self.standard.limits().most_in_all {
            if let Some(selection) = self.first_striking(total) {
                return Some((selection, total));
            }
        }
        None
    }

    // The first selection, by high, then mid, then low, that strikes so many runs and gets together's yes.
    fn first_striking(&self, total: u32) -> Option<Selection>
        ensures { MatchOption result (NoStrike (S.meaning self.now.standard.now) self.now.low (listed self.now.mid) (listed self.now.high) total) (Found (S.meaning self.now.standard.now) self.now.low (listed self.now.mid) (listed self.now.high) total) }
    {
        let mut found = None;
        let mids = self.mid.items();
        let highs = self.high.items();
        // Three loops in one function, left by the label as soon as the selection is certain.
        'search: for h in highs {
            for m in mids {
                let others = u32::from(h.struck) + u32::from(m.struck);
                let Some(rest) = total.checked_sub(others) else {
                    continue;
                };
                if rest > 3 {
                    continue;
                }
                // Held by value, so that the innermost loop does not load them again.
                let (mid_kept, high_kept) = (m.kept, h.kept);
                for l in self.low.striking(rest) {
                    if self.standard.together(&l.kept, &mid_kept, &high_kept) {
                        found = Some(Selection {
                            low: l.set,
                            mid: m.set,
                            high: h.set,
                        });
                        break 'search;
                    }
                }
            }
        }
        found
    }
}

impl ByCount {
    // The sets that strike so many.
    fn striking(&self, count: u32) -> &[Entry]
        requires { count ≤ 3 }
        ensures { result.now ≡ group self.now count }
    {
        // An index has no `From` of a `u32`.
        self.groups[count as usize].items()
    }
}
