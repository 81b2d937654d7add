// Why begin is refused.
ghost use Rattle.std.specs.Prelude.{◌≡◌};
ghost use Rattle.campaign.specs.Refusals.{begin_number};

// Why no run is begun.
#[derive(Clone, Copy, PartialEq, Eq, Debug)]
pub enum BeginRefusal {
    // A run is begun.
    RunBegun = 20,
    // 99 runs were begun.
    NoNumber = 22,
    // The level has twelve closed runs.
    LevelFull = 21,
}

impl BeginRefusal {
    // The number by which the refusal is told, which its case carries: a trait for three such enums would say more than they do.
    pub fn number(self) -> u32
        ensures { result ≡ begin_number self }
    {
        self as u32
    }
}
