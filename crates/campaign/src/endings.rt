// Why close and void are refused, and how the run is handed back.
ghost use Rattle.std.specs.Prelude.{◌≡◌};
ghost use Rattle.campaign.specs.Refusals.{close_number, void_number};

use crate::BegunRun;

// Why a run is not closed.
#[derive(Clone, Copy, PartialEq, Eq, Debug)]
pub enum CloseFault {
    // It is not the run now begun.
    NotCurrent = 23,
    // The reference reading is over the top.
    Reference = 24,
    // The predicted reading is over the top.
    Predicted = 25,
}

// The run that is not closed, handed back, and why.
pub struct CloseRefusal {
    pub run: BegunRun,
    pub fault: CloseFault,
}

// The run that is not voided, handed back: it is not the run now begun.
pub struct VoidRefusal {
    pub run: BegunRun,
}

impl CloseFault {
    // The number by which the refusal is told, which its case carries: a trait for three such enums would say more than they do.
    pub fn number(self) -> u32
        ensures { result ≡ close_number self }
    {
        self as u32
    }
}
