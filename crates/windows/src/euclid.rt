//! Divisors and multiples that two numbers have in common.

ghost use Rattle.std.specs.Prelude.{◌≡◌};
ghost use Rattle.windows.specs.Euclid.{gcd_of, lcm_of, IsGcd, IsLcm};

// Euclid's rule, down to a remainder of 0.
pub fn gcd(a: u32, b: u32) -> u32
    ensures value { result ≡ gcd_of a b }
    ensures greatest { IsGcd a b result }
{
    if b == 0 { a } else { gcd(b, a % b) }
}

// The least common multiple; 0 where a or b is 0.
#[tactic(auto, using(crate::proofs::Gcd::gcd_positive_right))]
pub fn lcm(a: u32, b: u32) -> u64
    ensures value { result ≡ lcm_of a b }
    ensures least { IsLcm a b result }
{
    if b == 0 {
        return 0;
    }
    (a / gcd(a, b)) as u64 * b as u64
}
