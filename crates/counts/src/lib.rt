// Counts that stay in their ranges.
#![tactic(auto)]

ghost use Rattle.std.specs.Prelude.{◌≡◌};
ghost use Rattle.spec.specs.Register.{count_up, count_down};

// Answers one more, or n itself at the end of its range.
// kept: `saturating_add(1).min(most)` answers most where n is above it.
pub fn count_up(most: u32, n: u32) -> u32
    ensures { result ≡ count_up most n }
{
    if n < most { n + 1 } else { n }
}

// Answers one less, or 0 at 0.
pub fn count_down(n: u32) -> u32
    ensures { result ≡ count_down n }
{
    n.saturating_sub(1)
}
