//! Lots: a store lent by the caller, eight lots for each customer and asset, oldest first.
//! It knows the custody interface and the refusals.

#![tactic(auto)]

ghost use Rattle.std.specs.Prelude.{◌≡◌, ◌+◌, ◌≤◌, is_ok, IfOk, MatchResult};
ghost use Rattle.refusals.specs.declared.Refusal.TheVariants.{FewLots};
ghost use Rattle.refusals.specs.Refusals.{fault};
ghost use Rattle.refusals.specs.Ranges.{ceiling};
ghost use Rattle.custody.specs.Meaning.{Alike, raised, lowered};
ghost use Rattle.lots.specs.Queues.{FirstInFirstOut};
ghost use Rattle.lots.specs.Stores.{is_store, Sound, with_more, with_less, cleared, held, blocked, stored, drawn};

use custody::{Custody, check_release, check_taking_in};
use refusals::{Fault, Holding, check_names};
use store::{add_lot, held_of, pay_lots};

mod group;
mod store;

pub use group::Lot;
pub use store::prepare;

/// A custody over a store of lots that it is lent.
#[derive(Drop)]
pub struct Lots<'a> {
    store: &'a mut [Lot],
    ghost sound: { Sound store.now },
}

impl<'a> Lots<'a> {
    /// Clears the store and holds nothing; a store of too few lots is refused, as by `prepare`.
    pub fn new(store: &'a mut [Lot]) -> Result<Lots<'a>, Fault>
        ensures made { is_ok result ≡ is_store store.old }
        ensures store { MatchResult result (λ l. l.store.now ≡ cleared store.old) (λ f. f ≡ fault FewLots 0) }
        ensures queues { IfOk result (λ l. FirstInFirstOut l.store.now) }
    {
        prepare(store)?;
        Ok(Lots { store })
    }
}

impl Lots<'_> {
    /// Units come in; there is room for them.
    fn add(&mut self, holding: Holding, amount: u64)
        requires { held self.old.store.now holding.customer holding.asset + amount ≤ ceiling holding.asset }
        ensures after { self.new.store.now ≡ with_more self.old.store.now holding.customer holding.asset amount }
        ensures figures { Alike (held self.new.store.now) (raised (held self.old.store.now) holding.customer holding.asset amount) }
        ensures depths { Alike (blocked self.new.store.now) (blocked self.old.store.now) }
    {
        add_lot(self.store, holding, amount);
    }

    /// Units go out; so many are held.
    fn pay(&mut self, holding: Holding, amount: u64)
        requires { amount ≤ held self.old.store.now holding.customer holding.asset }
        ensures after { self.new.store.now ≡ with_less self.old.store.now holding.customer holding.asset amount }
        ensures figures { Alike (held self.new.store.now) (lowered (held self.old.store.now) holding.customer holding.asset amount) }
        ensures depths { Alike (blocked self.new.store.now) (blocked self.old.store.now) }
    {
        pay_lots(self.store, holding, amount);
    }
}

impl Custody for Lots<'_> {
    ghost units = { λ s. held s.store.now };

    ghost depth = { λ s. blocked s.store.now };

    ghost takes = { λ s c a n t. t.store.now ≡ stored s.store.now c a n };

    ghost gives = { λ s c a n t. t.store.now ≡ drawn s.store.now c a n };

    #[tactic(auto, unfolding(crate::specs::Stores::blocked), using(crate::proofs::Stores::bounded))]
    fn question(&self, customer: u64, asset: u64) -> Result<(u64, u8), Fault> {
        let holding = check_names(customer, asset)?;
        Ok((held_of(self.store, holding), 0))
    }

    fn take_in(&mut self, customer: u64, asset: u64, amount: u64) -> Result<(), Fault> {
        let (held, _depth) = self.question(customer, asset)?;
        let holding = check_taking_in(held, customer, asset, amount)?;
        self.add(holding, amount);
        Ok(())
    }

    fn release(&mut self, customer: u64, asset: u64, amount: u64) -> Result<(), Fault> {
        let (held, depth) = self.question(customer, asset)?;
        let holding = check_release(held, depth, customer, asset, amount)?;
        self.pay(holding, amount);
        Ok(())
    }
}
