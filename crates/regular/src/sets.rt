// Sets of numbers below 64 in one machine word: i is in the set where bit i is 1.
ghost use Rattle.std.specs.Prelude.{◌≡◌, ◌<◌, ◌≤◌};
ghost use Rattle.regular.specs.Sets.{has, with};

// Whether the number is in the set; none from 64 on is.
pub fn has(set: u64, i: usize) -> bool
    ensures { result ≡ has set i }
{
    i < 64 && (set >> i) & 1 == 1
}

// The set with one more number; one from 64 on changes nothing.
pub fn with(set: u64, i: usize) -> u64
    ensures small { i < 64 → result ≡ with set i }
    ensures large { 64 ≤ i → result ≡ set }
{
    if i >= 64 {
        return set;
    }
    set | (1 << i)
}
