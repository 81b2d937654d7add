// How a level's sets are gone through, each asked accuracy and statistics once.
ghost use Rattle.std.specs.Prelude.{◌≡◌, ◌+◌, ◌^◌, ◌<◌, false, length, MatchBool};
ghost use Rattle.std.specs.Range.{range_inclusive_start, range_inclusive_end, range_inclusive_exhausted};
ghost use Rattle.judge.specs.Sets.{Fits};
ghost use Rattle.judge.specs.Shortlists.{AreLimits, Between, Gathered, IsEmpty, Whole, listed};
ghost use Rattle.runs.specs.Closed.{pairs_of};

use crate::shortlists::{Entry, Shortlist};
use arrayvec::ArrayVec;
use runs::ClosedRuns;
use standard::{Limits, Standard};
use std::ops::RangeInclusive;
use tally::Tally;
use terms::Level;

// The sets of a level's closed runs that strike so many, and the standard by which they are struck.
#[derive(Drop)]
pub(crate) struct Candidates<'a, S> {
    pub(crate) standard: &'a S,
    pub(crate) level: Level,
    pub(crate) runs: &'a ClosedRuns,
    pub(crate) strikes: RangeInclusive<u32>,
    ghost fresh: { range_inclusive_exhausted strikes ≡ false },
}

impl<S: Standard> Candidates<'_, S> {
    // Puts into an empty list all sets that fit, get both yeses, and strike so many. The list is lent: one that is given back by
    // value would be copied to its place, with stack for both.
    pub(crate) fn gather(&self, list: &mut Shortlist)
        requires { IsEmpty list.old }
        ensures { Whole (S.meaning self.now.standard.now) self.now.level (pairs_of self.now.runs.now) (range_inclusive_start self.now.strikes) (range_inclusive_end self.now.strikes) list.new }
    {
        let limits = self.standard.limits();
        for set in 0..(1u32 << self.runs.len()) {
            self.consider(set, limits, list);
        }
    }

    // Whether a set strikes so many, and fits.
    fn takes(&self, set: u32, limits: Limits) -> bool
        requires closed { set < 2 ^ length (pairs_of self.now.runs.now) }
        requires limits { AreLimits (S.meaning self.now.standard.now) limits }
        ensures { MatchBool result (Between (range_inclusive_start self.now.strikes) (range_inclusive_end self.now.strikes) set × Fits (S.meaning self.now.standard.now) (pairs_of self.now.runs.now) set) (Between (range_inclusive_start self.now.strikes) (range_inclusive_end self.now.strikes) set → Fits (S.meaning self.now.standard.now) (pairs_of self.now.runs.now) set → ⊥) }
    {
        let struck = set.count_ones();
        self.strikes.contains(&struck)
            && struck <= limits.most_struck
            // A length has no `From` of a `u32`.
            && (limits.least_kept + struck) as usize <= self.runs.len()
    }

    // Whether kept runs are accurate.
    fn accurate(&self, kept: &Tally) -> bool
        ensures { result ≡ (S.meaning self.now.standard.now).accuracy self.now.level kept.now.sums }
    {
        self.standard.accuracy(self.level, kept)
    }

    // Whether they pass the statistical tests.
    fn steady(&self, kept: &Tally) -> bool
        ensures { result ≡ (S.meaning self.now.standard.now).statistics self.now.level kept.now.sums }
    {
        self.standard.statistics(self.level, kept)
    }

    // Takes a set in where it strikes so many, fits and gets both yeses.
    fn consider(&self, set: u32, limits: Limits, list: &mut Shortlist)
        requires closed { set < 2 ^ length (pairs_of self.now.runs.now) }
        requires limits { AreLimits (S.meaning self.now.standard.now) limits }
        requires begun { Gathered (S.meaning self.now.standard.now) self.now.level (pairs_of self.now.runs.now) (range_inclusive_start self.now.strikes) (range_inclusive_end self.now.strikes) set list.old }
        ensures { Gathered (S.meaning self.now.standard.now) self.now.level (pairs_of self.now.runs.now) (range_inclusive_start self.now.strikes) (range_inclusive_end self.now.strikes) (set + 1) list.new }
    {
        if !self.takes(set, limits) {
            return;
        }
        let kept = self.runs.kept(set);
        if !self.accurate(&kept) {
            return;
        }
        list.accurate = true;
        if self.steady(&kept) {
            list.entries.push(Entry {
                set,
                // A byte has no `From` of a count of bits, which is a `u32`.
                struck: set.count_ones() as u8,
                kept,
            });
        }
    }
}

impl Shortlist {
    // No sets.
    pub(crate) fn none() -> Shortlist
        ensures { IsEmpty result }
    {
        Shortlist {
            entries: ArrayVec::new(),
            accurate: false,
        }
    }

    // The sets of the list.
    pub(crate) fn items(&self) -> &[Entry]
        ensures { result.now ≡ listed self.now }
    {
        self.entries.as_slice()
    }
}
