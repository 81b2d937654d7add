// What a standard is: three questions, and the limits of what may be struck.
ghost use Rattle.std.specs.Prelude.{◌≡◌};
ghost use Rattle.standard.specs.Meaning.{Lawful, Meaning};

use tally::Tally;
use terms::Level;

// The numbers of a standard.
#[derive(Clone, Copy, PartialEq, Eq, Debug)]
pub struct Limits {
    // The least runs kept at a level, 3 to 12.
    pub least_kept: u32,
    // The most runs struck at a level, 0 to 3.
    pub most_struck: u32,
    // The most runs struck in all, 0 to 9.
    pub most_in_all: u32,
}

// A standard answers by its meaning, refuses nothing, and only reads itself.
pub trait Standard {
    ghost meaning: { Self → Meaning };

    // Whether the runs kept at a level are accurate. The level stands beside the tally, which other questions are about without one.
    fn accuracy(&self, level: Level, kept: &Tally) -> bool
        ensures { result ≡ (meaning self.now).accuracy level kept.now.sums };

    // Whether they pass the statistical tests of one level.
    fn statistics(&self, level: Level, kept: &Tally) -> bool
        ensures { result ≡ (meaning self.now).statistics level kept.now.sums };

    // Whether the runs kept at the three levels pass together. Any of the tallies may be empty. They are three references, since
    // one struct of them would be filled anew for each of millions of selections.
    fn together(&self, low: &Tally, mid: &Tally, high: &Tally) -> bool
        ensures { result ≡ (meaning self.now).together low.now.sums mid.now.sums high.now.sums };

    // How many runs are kept at least, and struck at most.
    fn limits(&self) -> Limits
        ensures least_kept { result.least_kept ≡ (meaning self.now).least_kept }
        ensures most_struck { result.most_struck ≡ (meaning self.now).most_struck }
        ensures most_in_all { result.most_in_all ≡ (meaning self.now).most_in_all };

    ghost lawful: { (s : Self) → Lawful (meaning s) };
}
