//! Single bits of a word of 64 bits.
ghost use Rattle.std.specs.Prelude.{◌≡◌, ◌≢◌, ℕ, ◌<◌, ◌≤◌, MatchOption, if◌then◌else◌};
ghost use Rattle.std.specs.Int.{bit_at};

/// The word with this bit set or cleared.
pub fn with_bit(bits: u64, k: u32, is_one: bool) -> u64
    requires { k < 64 }
    ensures same { bit_at result k ≡ (if is_one then 1 else 0) }
    ensures others { (i : ℕ) → i ≢ k → bit_at result i ≡ bit_at bits i }
{
    if is_one {
        bits | (1 << k)
    } else {
        bits & !(1 << k)
    }
}

/// The lowest bit that is set, from bit `from` on.
pub fn lowest_from(bits: u64, from: u32) -> Option<u32>
    ensures found { MatchOption result ((i : ℕ) → from ≤ i → bit_at bits i ≡ 0) (λ b. (from ≤ b) × (b < 64) × (bit_at bits b ≡ 1)) }
    ensures least { MatchOption result (Unit {0}) (λ b. (i : ℕ) → from ≤ i → i < b → bit_at bits i ≡ 0) }
{
    if from >= 64 {
        return None;
    }
    let rest = bits & (u64::MAX << from);
    if rest == 0 {
        return None;
    }
    Some(rest.trailing_zeros())
}
