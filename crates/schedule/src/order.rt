// Tests of many numbers, in their order.
ghost use Rattle.std.specs.Prelude.{◌≡◌, ℕ, ◌<◌, Option};
ghost use Rattle.refusal.specs.Tests.{tested, each_below};
ghost use Rattle.refusal.specs.declared.Refusal.{Refusal};

use refusal::Refusal;

// Makes the test of each number below `n`, and refuses by the first that fails.
pub(crate) fn test_each<F: Fn(usize) -> Result<(), Refusal>>(
    n: usize,
    test: F,
) -> Result<(), Refusal>
    requires { (k : ℕ) → k < n → F.pre test k }
    ensures { (tests : ℕ → Option Refusal) → ((k : ℕ) (r : _) → k < n → F.post test k r → r ≡ tested (tests k)) → result ≡ tested (each_below n tests) }
{
    // a loop: over `try_for_each` no proof was found that the test may be called
    for k in 0..n {
        test(k)?;
    }
    Ok(())
}
