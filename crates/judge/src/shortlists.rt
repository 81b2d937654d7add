// The sets of a level that fit and get both yeses of a standard.
ghost use Rattle.std.specs.Prelude.{◌≡◌, length};

use arrayvec::ArrayVec;
use tally::Tally;

// A set of struck positions, how many it strikes, and the tally of the runs that it keeps.
#[derive(Clone, Copy)]
pub(crate) struct Entry {
    pub(crate) set: u32,
    // A byte, so that sums of counts fit by their type.
    pub(crate) struck: u8,
    pub(crate) kept: Tally,
}

// What stands in the places of a list that are not taken.
// A derive would want a `Default` of `Tally`, which a type that keeps facts about its sums cannot derive.
impl Default for Entry {
    fn default() -> Entry {
        Entry {
            set: 0,
            struck: 0,
            kept: Tally::none(),
        }
    }
}

// The sets that strike from so many to so many, rising, and whether any fitting one is accurate. At most 299 sets strike at
// most three of twelve runs: 1 + 12 + 66 + 220.
#[derive(Drop)]
pub(crate) struct Shortlist {
    pub(crate) entries: ArrayVec<Entry, 299>,
    // It tells of sets that are not in the list too, so it is no part of an entry.
    pub(crate) accurate: bool,
}

// A level's sets, by how many they strike, from none to three.
#[derive(Drop)]
pub(crate) struct ByCount {
    pub(crate) groups: [Shortlist; 4],
    ghost four: { length groups ≡ 4 },
}
