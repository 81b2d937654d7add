// Worked pairs: what the rules answer where the answer was worked out by hand, as one proved result.
#![tactic(auto)]

ghost use Rattle.worked.specs.Worked.{Edges, Worked};

// The answer at an edge, and the answer just beyond it.
#[derive(Clone, Copy, PartialEq, Eq, Debug)]
pub struct Edge {
    pub at: bool,
    pub beyond: bool,
}

// For kind ppm, an emission standard of 2000 and a span of 5000.
#[derive(Clone, Copy, PartialEq, Eq, Debug)]
pub struct WorkedPairs {
    // Three pairs, each predicted low by a tenth of the reference.
    pub tenth: Edge,
    // Three pairs, each predicted low by a fifth of the prediction, which is at 100 ppm.
    pub fifth: Edge,
    // Nine pairs that scatter as far as their confidence allows.
    pub scatter: Edge,
    // Nine pairs with predictions that vary as far as the F test allows.
    pub variance: Edge,
    // Four pairs with a correlation of 0.8.
    pub correlation: Edge,
}

// Yes at the edge, no beyond it.
const EDGE: Edge = Edge {
    at: true,
    beyond: false,
};

// What the rules answer on each of the worked pairs.
pub fn worked_pairs() -> WorkedPairs
    ensures answers { Worked result }
    ensures edges { Edges result }
{
    WorkedPairs {
        tenth: EDGE,
        fifth: EDGE,
        scatter: EDGE,
        variance: EDGE,
        correlation: EDGE,
    }
}
