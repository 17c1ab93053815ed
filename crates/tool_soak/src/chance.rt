//! Numbers drawn from a seed.
ghost use Rattle.std.specs.Prelude.{◌<◌};

use rand_core::Rng;
use rand_pcg::Pcg32;

/// The numbers of one lane in one round. Own rule.
pub(crate) fn numbers_of(seed: u32, round: u32, lane: usize) -> Pcg32 {
    Pcg32::new((u64::from(seed) << 32) | u64::from(round), lane as u64)
}

/// A number below the bound.
pub(crate) fn below(numbers: &mut Pcg32, bound: usize) -> usize
    requires { (0 < bound) × (bound < 4294967296) }
    ensures { result < bound }
{
    numbers.next_u32() as usize % bound
}

/// True once in so many times.
pub(crate) fn once_in(numbers: &mut Pcg32, times: usize) -> bool
    requires { (0 < times) × (times < 4294967296) }
{
    below(numbers, times) == 0
}
