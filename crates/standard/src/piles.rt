// PS-16, by the head: a pile of layers for each use and kind.
ghost use Rattle.std.specs.Prelude.{◌≡◌};
ghost use Rattle.standard.specs.Layers.{ps16};
ghost use Rattle.standard.specs.Piles.{meaning_of};

use crate::layers::{Absolute, Statistics, Waiver};
use crate::plain::{Diluent, Pollutant};
use terms::{Head, Kind, Use};

// A variant for each pile, so that whoever asks many questions can choose the pile once.
#[derive(Drop)]
pub enum Ps16 {
    Excess(Pollutant),
    ExcessDiluent(Absolute<Diluent>),
    Compliance(Waiver<Statistics<Pollutant>>),
    ComplianceDiluent(Waiver<Statistics<Absolute<Diluent>>>),
}

impl Ps16 {
    // The pile for a head's use and kind.
    pub fn of(head: Head) -> Ps16
        ensures { meaning_of result ≡ ps16 head }
    {
        match (head.usage, head.kind) {
            (Use::Excess, Kind::Ppm | Kind::Heat) => Ps16::Excess(Pollutant { head }),
            (Use::Excess, Kind::Diluent) => Ps16::ExcessDiluent(absolute_diluent()),
            (Use::Compliance, Kind::Ppm | Kind::Heat) => {
                Ps16::Compliance(tested(Pollutant { head }, head))
            }
            (Use::Compliance, Kind::Diluent) => {
                Ps16::ComplianceDiluent(tested(absolute_diluent(), head))
            }
        }
    }
}

// One percent by volume over the diluent's own standard.
fn absolute_diluent() -> Absolute<Diluent>
    ensures { result.margin ≡ 100 }
{
    Absolute::over(Diluent, 100).unwrap()
}

// The statistical tests over a standard, waived where the references are low.
fn tested<S>(below: S, head: Head) -> Waiver<Statistics<S>>
    ensures { (result.head ≡ head) × (result.below.head ≡ head) × (result.below.below ≡ below) }
{
    Waiver {
        below: Statistics { below, head },
        head,
    }
}
