// Fractions, compared without multiplying across.
#![tactic(auto)]

ghost use Rattle.std.specs.Prelude.{◌<◌};

mod comparing;

// A fraction of whole numbers, not reduced.
#[derive(Clone, Copy)]
pub struct Fraction {
    pub top: u64,
    pub bottom: u64,
    ghost some: { 0 < bottom },
}
