//! Where an interval stands in the list of the rows, each up to its diagonal.

ghost use Rattle.std.specs.Prelude.{◌≡◌, ◌≤◌, ◌<◌, ◌+◌, ◌*◌, ◌/◌, ℕ};
ghost use Rattle.sym_blocks.specs.Tables.{before, lower_place};

/// How many intervals stand before row `n`.
#[tactic(auto, using(crate::proofs::Rows::half))]
pub fn entries_before(n: usize) -> usize
    requires { n ≤ 1000 }
    ensures value { result ≡ before n }
    ensures bound { result ≤ 500500 }
{
    n * (n + 1) / 2
}

/// Where the interval (i, j) with `j <= i` stands.
pub fn lower_place_of(i: usize, j: usize) -> usize
    requires row { i < 1000 }
    requires column { j ≤ i }
    ensures { result ≡ lower_place i j }
{
    entries_before(i) + j
}
