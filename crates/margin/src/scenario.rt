//! The scenario method.
ghost use Rattle.std.specs.Prelude.{◌≡◌, ℕ, ◌≤◌, unsigned_abs};
ghost use Rattle.margin.specs.Sums.{at};
ghost use Rattle.margin.specs.Methods.{shocked, scenario};

use crate::method::MarginMethod;
use crate::portfolio::Portfolio;

/// The worse of two days: prices move by the first shocks, or by the second.
#[derive(Clone, Copy, PartialEq, Eq, Debug)]
pub struct Scenario;

const FIRST_SHOCKS: [i64; 8] = [100, 200, 300, 400, 500, 600, 700, 800];

const SECOND_SHOCKS: [i64; 8] = [-400, -300, -200, -100, 100, 200, 300, 400];

/// What all nets gain by their shocks together.
fn shocked_sum(portfolio: &Portfolio, shocks: &[i64; 8]) -> i64
    requires { (i : ℕ) → unsigned_abs (at shocks.now i) ≤ 1000 }
    ensures { result ≡ shocked shocks.now portfolio.now.nets }
{
    let mut sum = 0;
    for (net, shock) in portfolio.nets.iter().zip(shocks) {
        sum += net * shock;
    }
    sum
}

impl MarginMethod for Scenario {
    ghost required = { λ _. scenario };

    /// The larger absolute value of the two sums.
    fn figure(&self, portfolio: &Portfolio) -> u64 {
        let first = shocked_sum(portfolio, &FIRST_SHOCKS);
        let second = shocked_sum(portfolio, &SECOND_SHOCKS);
        first.unsigned_abs().max(second.unsigned_abs())
    }

    #[tactic(auto, using(crate::proofs::Bounds::scenario_bounded))]
    fn stay_bounded(&self) {}
}
