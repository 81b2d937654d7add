// The head of a campaign's log, lawful from when it is made.
ghost use Rattle.std.specs.Prelude.{◌≤◌};
ghost use Rattle.terms.specs.Limits.{least_emission, most_emission, top_reading};

use crate::kinds::{Kind, Use};

mod making;

// The emission standard and the span are in units of the kind.
#[derive(Clone, Copy)]
pub struct Head {
    pub kind: Kind,
    pub usage: Use,
    pub emission: u32,
    pub span: u32,
    ghost emission_from: { least_emission kind ≤ emission },
    ghost emission_to: { emission ≤ most_emission kind },
    ghost span_from: { 1 ≤ span },
    ghost span_to: { span ≤ top_reading kind },
}

// Why a head is not made.
#[derive(Clone, Copy, PartialEq, Eq, Debug)]
pub enum HeadRefusal {
    // The emission standard is out of range.
    Emission = 10,
    // The span is out of range.
    Span = 11,
}
