// How a head is made, or refused.
ghost use Rattle.std.specs.Prelude.{◌≡◌};
ghost use Rattle.terms.specs.Heads.{HeadAnswer, head_number};

use super::{Head, HeadRefusal};
use crate::kinds::{Kind, Use};

impl Head {
    pub fn new(kind: Kind, usage: Use, emission: u32, span: u32) -> Result<Head, HeadRefusal>
        ensures { HeadAnswer kind usage emission span result }
    {
        if !kind.emissions().contains(&emission) {
            return Err(HeadRefusal::Emission);
        }
        if !(1..=kind.top()).contains(&span) {
            return Err(HeadRefusal::Span);
        }
        Ok(Head {
            kind,
            usage,
            emission,
            span,
        })
    }
}

impl HeadRefusal {
    // The number by which the refusal is told, which its case carries: a trait for three such enums would say more than they do.
    pub fn number(self) -> u32
        ensures { result ≡ head_number self }
    {
        self as u32
    }
}
