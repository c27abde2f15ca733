//! How far a test holds along a row: at its first places, and nowhere behind them.
ghost use Rattle.std.specs.Prelude.{◌≡◌, ℕ, ◌+◌, ◌*◌, ◌<◌, ◌≤◌, ◌^◌};
ghost use Rattle.sorted_lists.specs.Reach.{HoldsUpTo};

/// At how many of the places the test holds. It looks at three of them at a time, so that no look
/// waits for another, and takes no branch by what it finds.
pub(crate) fn reach<F: Fn(usize) -> bool>(count: usize, holds: F) -> usize
    requires { (place : ℕ) → place < count → F.pre holds place }
    ensures within { result ≤ count }
    ensures value { (n : ℕ) → HoldsUpTo (F.post holds) count n → result ≡ n }
{
    let mut start = 0;
    let mut left = count;
    while left >= 4 {
        let step = left / 4;
        start = skip_quarters(&holds, start, step);
        left -= 3 * step;
    }
    skip_few(&holds, start, left)
}

// Goes on by a step for each of three places, a step apart, at which the test holds.
fn skip_quarters<F: Fn(usize) -> bool>(holds: &F, start: usize, step: usize) -> usize
    requires there { (place : ℕ) → place ≤ start + 3 * step → F.pre holds.now place }
    requires range { start + 4 * step < 2 ^ 64 }
    ensures on { result ≤ start + 3 * step }
    ensures from { (count n : ℕ) → HoldsUpTo (F.post holds.now) count n → start + 3 * step < count
        → start ≤ n → result ≤ n }
    ensures to { (count n left : ℕ) → HoldsUpTo (F.post holds.now) count n
        → start + 3 * step < count → 4 * step ≤ left → n ≤ start + left
        → n + 3 * step ≤ result + left }
{
    let first = holds(start + step);
    let second = holds(start + 2 * step);
    let third = holds(start + 3 * step);
    start + step * (first as usize + second as usize + third as usize)
}

// Goes on by each of the next few places at which the test holds.
fn skip_few<F: Fn(usize) -> bool>(holds: &F, start: usize, left: usize) -> usize
    requires there { (place : ℕ) → place < start + left → F.pre holds.now place }
    requires range { start + left < 2 ^ 64 }
    ensures on { result ≤ start + left }
    ensures value { (count n : ℕ) → HoldsUpTo (F.post holds.now) count n → start + left ≤ count
        → start ≤ n → n ≤ start + left → result ≡ n }
{
    let mut reached = start;
    for place in start..start + left {
        reached += holds(place) as usize;
    }
    reached
}
