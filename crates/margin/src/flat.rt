//! The flat method.
ghost use Rattle.std.specs.Prelude.{◌≡◌, ◌+◌, ◌*◌, ◌^◌, ◌<◌, ◌≤◌, unsigned_abs};
ghost use Rattle.margin.specs.Methods.{flat};

use crate::method::MarginMethod;
use crate::portfolio::Portfolio;

/// So much for each unit, long or short, and more the higher the contract number.
#[derive(Clone, Copy, PartialEq, Eq, Debug)]
pub struct Flat;

/// Absolute net × 150 × the contract number, which is one more than the place.
fn charge(net: i64, place: usize) -> u64
    requires net { unsigned_abs net ≤ 10 ^ 6 }
    requires place { place < 8 }
    ensures { result ≡ unsigned_abs net * 150 * (place + 1) }
{
    net.unsigned_abs() * 150 * (place as u64 + 1)
}

impl MarginMethod for Flat {
    ghost required = { λ _. flat };

    /// The sum over contracts of absolute net × 150 × the contract number.
    fn figure(&self, portfolio: &Portfolio) -> u64 {
        let mut sum = 0;
        for (place, &net) in portfolio.nets.iter().enumerate() {
            sum += charge(net, place);
        }
        sum
    }

    #[tactic(auto, using(crate::proofs::Bounds::flat_bounded))]
    fn stay_bounded(&self) {}
}
