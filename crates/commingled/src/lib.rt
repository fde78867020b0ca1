//! The commingled account: one total for each asset and a share for each customer.
//! It knows the custody interface and the refusals.

#![tactic(auto)]

ghost use Rattle.std.specs.Prelude.{◌≡◌, ◌+◌, ◌^◌, ◌<◌, ◌≤◌};
ghost use Rattle.refusals.specs.Ranges.{ceiling};
ghost use Rattle.custody.specs.Meaning.{Alike, raised, lowered};
ghost use Rattle.commingled.specs.Pools.{share, share_in, empty_pools, raised_pool, lowered_pool, raised_pools, lowered_pools, totalled, Four, Shared, Summed, Capped};

use custody::{Custody, check_release, check_taking_in};
use refusals::{Fault, Holding, check_asset, check_names};

/// The units of one asset: the total, and the share of each customer.
#[derive(Clone, Copy)]
pub struct Pool {
    total: u64,
    shares: [u64; 64],
}

/// The pools of the four assets.
#[derive(Drop)]
pub struct Commingled {
    pools: [Pool; 4],
    ghost four: { Four pools },
    ghost shared: { Shared pools },
    ghost summed: { Summed pools },
    ghost capped: { Capped pools },
}

impl Pool {
    /// Units come in, in a customer's share and in the total.
    fn raise(&mut self, holding: Holding, amount: u64)
        requires total { self.old.total + amount < 2 ^ 64 }
        requires share { share_in self.old holding.customer + amount < 2 ^ 64 }
        ensures { self.new ≡ raised_pool self.old holding.customer amount }
    {
        self.total += amount;
        self.shares[holding.customer_place()] += amount;
    }

    /// Units go out, of a customer's share and of the total.
    fn lower(&mut self, holding: Holding, amount: u64)
        requires total { amount ≤ self.old.total }
        requires share { amount ≤ share_in self.old holding.customer }
        ensures { self.new ≡ lowered_pool self.old holding.customer amount }
    {
        self.total -= amount;
        self.shares[holding.customer_place()] -= amount;
    }
}

/// The four pools at making.
fn empty() -> [Pool; 4]
    ensures { result ≡ empty_pools }
{
    let pool = Pool {
        total: 0,
        shares: [0; 64],
    };
    [pool; 4]
}

impl Commingled {
    /// An account that holds nothing.
    pub fn new() -> Commingled
        ensures { result.pools ≡ empty_pools }
    {
        Commingled { pools: empty() }
    }

    /// What is held of an asset for all customers together.
    pub fn total(&self, asset: u64) -> Result<u64, Fault>
        ensures { result ≡ totalled self.now.pools asset }
    {
        check_asset(0, asset)?;
        Ok(self.pools[(asset - 1) as usize].total)
    }

    fn share_of(&self, holding: Holding) -> u64
        ensures { result ≡ share self.now.pools holding.customer holding.asset }
    {
        self.pools[holding.asset_place()].shares[holding.customer_place()]
    }

    fn raise_share(&mut self, holding: Holding, amount: u64)
        requires { share self.old.pools holding.customer holding.asset + amount ≤ ceiling holding.asset }
        ensures after { self.new.pools ≡ raised_pools self.old.pools holding.customer holding.asset amount }
        ensures shares { Alike (share self.new.pools) (raised (share self.old.pools) holding.customer holding.asset amount) }
    {
        self.pools[holding.asset_place()].raise(holding, amount);
    }

    fn lower_share(&mut self, holding: Holding, amount: u64)
        requires { amount ≤ share self.old.pools holding.customer holding.asset }
        ensures after { self.new.pools ≡ lowered_pools self.old.pools holding.customer holding.asset amount }
        ensures shares { Alike (share self.new.pools) (lowered (share self.old.pools) holding.customer holding.asset amount) }
    {
        self.pools[holding.asset_place()].lower(holding, amount);
    }
}

impl Custody for Commingled {
    ghost units = { λ s c a. share s.pools c a };

    ghost depth = { λ _ _ _. 0 };

    ghost takes = { λ s c a n t. t.pools ≡ raised_pools s.pools c a n };

    ghost gives = { λ s c a n t. t.pools ≡ lowered_pools s.pools c a n };

    fn question(&self, customer: u64, asset: u64) -> Result<(u64, u8), Fault> {
        let holding = check_names(customer, asset)?;
        Ok((self.share_of(holding), 0))
    }

    fn take_in(&mut self, customer: u64, asset: u64, amount: u64) -> Result<(), Fault> {
        let (held, _depth) = self.question(customer, asset)?;
        let holding = check_taking_in(held, customer, asset, amount)?;
        self.raise_share(holding, amount);
        Ok(())
    }

    fn release(&mut self, customer: u64, asset: u64, amount: u64) -> Result<(), Fault> {
        let (held, depth) = self.question(customer, asset)?;
        let holding = check_release(held, depth, customer, asset, amount)?;
        self.lower_share(holding, amount);
        Ok(())
    }
}
