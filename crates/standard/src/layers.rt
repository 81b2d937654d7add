// Layers over any standard, which they hold by value. Each hands on by itself what it does not change, since the trait can hold
// no body that would be right under every meaning.
ghost use Rattle.std.specs.Prelude.{◌≤◌};

use terms::Head;

mod margins;
mod statistical;
mod waiving;

// Accurate too within a margin in units a run.
#[derive(Drop)]
pub struct Absolute<S> {
    below: S,
    margin: u32,
    ghost small: { margin ≤ 50000 },
}

// The standard below, handed back: the margin is over 50,000.
#[derive(Drop)]
pub struct MarginRefusal<S> {
    pub below: S,
}

// Bias, variance and correlation beside the standard below, under a head.
#[derive(Drop)]
pub struct Statistics<S> {
    pub below: S,
    pub head: Head,
}

// No statistics at levels with low references, under a head.
#[derive(Drop)]
pub struct Waiver<S> {
    pub below: S,
    pub head: Head,
}
