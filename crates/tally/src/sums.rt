// Sums over a list of pairs.

// How many pairs there are, and the sums of their references, of their predictions, of the squares of each, and of the
// products.
#[derive(Clone, Copy, Default)]
pub struct Sums {
    pub n: u64,
    pub r: u64,
    pub p: u64,
    pub rr: u64,
    pub pp: u64,
    pub rp: u64,
}
