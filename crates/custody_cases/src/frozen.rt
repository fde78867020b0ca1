//! A layer that blocks every release at a stored depth. That the depth is in range is known by its type alone, which a custody
//! may rest on.
ghost use Rattle.std.specs.Prelude.{◌≡◌, cond, ◌==◌};

use custody::{Custody, check_release};
use refusals::Fault;

#[derive(Drop)]
pub(crate) struct Frozen<C: Custody> {
    below: C,
    depth: u8,
}

impl<C: Custody> Frozen<C> {
    /// Depth 0 lets through what is below.
    pub(crate) fn new(below: C, depth: u8) -> Frozen<C>
        ensures below { result.below ≡ below }
        ensures depth { result.depth ≡ depth }
    {
        Frozen { below, depth }
    }
}

fn depth_over(depth: u8, below: u8) -> u8
    ensures { result ≡ cond (depth == 0) below depth }
{
    if depth == 0 { below } else { depth }
}

impl<C: Custody> Custody for Frozen<C> {
    ghost units = { λ s. C.Custody.units s.below };

    ghost depth = { λ s c a. cond (s.depth == 0) (C.Custody.depth s.below c a) s.depth };

    fn question(&self, customer: u64, asset: u64) -> Result<(u64, u8), Fault> {
        // Read first, so that the depth is known to fit its type also where what is below refuses.
        let depth = self.depth;
        let (held, below) = self.below.question(customer, asset)?;
        Ok((held, depth_over(depth, below)))
    }

    fn take_in(&mut self, customer: u64, asset: u64, amount: u64) -> Result<(), Fault> {
        self.below.take_in(customer, asset, amount)
    }

    fn release(&mut self, customer: u64, asset: u64, amount: u64) -> Result<(), Fault> {
        let (held, depth) = self.question(customer, asset)?;
        check_release(held, depth, customer, asset, amount)?;
        self.below.release(customer, asset, amount)
    }
}
