//! The least number that passes a test.

ghost use Rattle.std.specs.Prelude.{◌≤◌, ◌<◌, ℕ, true, false};
ghost use Rattle.stated_order.specs.First.{HoldsBelow};

/// The least number below `most` that passes the test, and `most` where none does. The test is called for no greater number.
pub fn least_passed<F: Fn(u32) -> bool>(most: u32, test: F) -> u32
    requires { (k : ℕ) → k < most → F.pre test k }
    ensures few { result ≤ most }
    ensures before { HoldsBelow result (λ k. F.post test k false) }
    ensures here { result < most → F.post test result true }
{
    let mut k = 0;
    while k < most && !test(k) {
        k += 1;
    }
    k
}
