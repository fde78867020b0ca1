//! The interface, and the check that stands before the figure of every method.
ghost use Rattle.std.specs.Prelude.{◌≡◌, ℕ, List, [], ◌∷◌, ℤ};
ghost use Rattle.refusals.specs.Checks.{passed_with, granted_as};
ghost use Rattle.refusals.specs.Ranges.{is_net};
ghost use Rattle.margin.specs.Meaning.{is_portfolio, portfolio_check, asked, Bounded};
ghost use Rattle.margin.specs.Portfolios.{nets_of};

use crate::portfolio::Portfolio;
use refusals::{Fault, Refusal};

/// What it means is `required`. A method gives the figure of a portfolio; the question takes any nets, and refuses those out of
/// range first.
pub trait MarginMethod {
    /// What each portfolio requires.
    ghost required: { Self → List ℤ → ℕ };

    /// The figure for a portfolio.
    fn figure(&self, portfolio: &Portfolio) -> u64
        ensures { result ≡ required self.now portfolio.now.nets };

    /// No portfolio requires more than 10^12. The call is for its contract alone; where the bound rests on the type of a
    /// number, the body reads that number. It is no law, since a law speaks also of numbers that don't fit their type.
    fn stay_bounded(&self)
        ensures { Bounded (required self.now) };

    /// The figure for these nets; one out of range is refused.
    fn requirement(&self, nets: &[i64; 8]) -> Result<u64, Fault>
        ensures result { result ≡ asked (required self.now) nets.now }
        ensures bounds { Bounded (required self.now) }
    {
        self.stay_bounded();
        let portfolio = check_portfolio(nets)?;
        Ok(self.figure(&portfolio))
    }
}

/// A net is -1,000,000 to 1,000,000 units.
fn is_net(net: i64) -> bool
    ensures { result ≡ is_net net }
{
    net.unsigned_abs() <= 1_000_000
}

/// Every net is in range.
fn is_portfolio(nets: &[i64; 8]) -> bool
    ensures { result ≡ is_portfolio nets.now }
{
    nets.iter().all(|&net| is_net(net))
}

/// Refuses a net out of range, and hands out the portfolio of the nets.
pub fn check_portfolio(nets: &[i64; 8]) -> Result<Portfolio, Fault>
    ensures { granted_as nets_of result ≡ passed_with nets.now (portfolio_check nets.now ∷ []) }
{
    if !is_portfolio(nets) {
        return Err(Fault::of(Refusal::FigureRange, 0));
    }
    Ok(Portfolio { nets: *nets })
}
