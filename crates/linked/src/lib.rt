// What programs in Rust or C may call, over numbers and bytes: for benchmarks and for tests against other programs.
#![tactic(auto)]

ghost use Rattle.std.specs.Prelude.{◌≡◌};
ghost use Rattle.linked.specs.Linked.{correlated};

use fractions::Fraction;

// Whether 25·z² is at least 16·x·y, for numbers from 1 to 2^58: the question of `statistics::are_correlated`, of numbers that no
// tally vouches for.
#[unsafe(no_mangle)]
pub extern "C" fn curatsef_correlated(x: u64, y: u64, z: u64) -> bool
    ensures { result ≡ correlated x y z }
{
    let range = 1..=1 << 58;
    if !range.contains(&x) || !range.contains(&y) || !range.contains(&z) {
        return false;
    }
    let slope = Fraction { top: z, bottom: x };
    let least = Fraction {
        top: 16 * y,
        bottom: 25 * z,
    };
    slope.not_less(least)
}
