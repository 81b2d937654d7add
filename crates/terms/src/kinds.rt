// What a monitor measures, in which unit and up to which reading, and what it is used for.
ghost use Rattle.std.specs.Prelude.{◌≡◌, false};
ghost use Rattle.std.specs.Range.{range_inclusive_start, range_inclusive_end, range_inclusive_exhausted};
ghost use Rattle.terms.specs.Limits.{least_emission, most_emission, top_reading};

use std::ops::RangeInclusive;

// A reading is a whole number of units: 0.1 ppm, 0.0001 lb/mm Btu, or 0.01 percent by volume.
#[derive(Clone, Copy, PartialEq, Eq, Debug)]
pub enum Kind {
    Ppm,
    Heat,
    Diluent,
}

// Whether a monitor is used to report excess emissions, or to show compliance.
#[derive(Clone, Copy, PartialEq, Eq, Debug)]
pub enum Use {
    Excess,
    Compliance,
}

impl Kind {
    // The highest reading of a kind.
    pub fn top(self) -> u32
        ensures { result ≡ top_reading self }
    {
        match self {
            Kind::Ppm | Kind::Heat => 50_000,
            Kind::Diluent => 10_000,
        }
    }

    // The emission standards of a kind: a diluent has none, which is written 0.
    pub(crate) fn emissions(self) -> RangeInclusive<u32>
        ensures from { range_inclusive_start result ≡ least_emission self }
        ensures to { range_inclusive_end result ≡ most_emission self }
        ensures fresh { range_inclusive_exhausted result ≡ false }
    {
        match self {
            Kind::Ppm | Kind::Heat => 1..=50_000,
            Kind::Diluent => 0..=0,
        }
    }
}
