//! Custody as an interface: who holds the customers' assets, known by two figures alone,
//! the units held and the block depth of each customer and asset.
//! This crate knows the refusals, and no implementation.

#![tactic(auto)]

ghost use Rattle.std.specs.Prelude.{◌≡◌, ℕ, ◌+◌, ◌≤◌, true, false, is_ok};
ghost use Rattle.refusals.specs.Checks.{passed_with, granted_as};
ghost use Rattle.refusals.specs.Holdings.{names_of};
ghost use Rattle.refusals.specs.Ranges.{ceiling};
ghost use Rattle.custody.specs.Meaning.{Alike, Bounded, answered, taken, released, taking_in, releasing, raised, lowered, if_granted};

use refusals::{Fault, Holding, Refusal, check_range, limit};

/// Who holds the units. Its calls take plain numbers: here numbers come in, and what is out of range is refused.
pub trait Custody {
    /// The units held, by customer and asset.
    ghost units: { Self → ℕ → ℕ → ℕ };

    /// The block depth, by customer and asset: 0 when free.
    ghost depth: { Self → ℕ → ℕ → ℕ };

    /// What a granted taking in makes of the whole custody: before, customer, asset, units, after.
    /// A custody that shows only its two figures keeps the default, which says nothing.
    ghost takes: { Self → ℕ → ℕ → ℕ → Self → Type 0 } = { λ _ _ _ _ _. Unit {0} };

    /// What a granted release makes of the whole custody.
    ghost gives: { Self → ℕ → ℕ → ℕ → Self → Type 0 } = { λ _ _ _ _ _. Unit {0} };

    /// The units held and the block depth. Of every value that there is, the units held never pass the ceiling, and a block
    /// depth is at most 255.
    fn question(&self, customer: u64, asset: u64) -> Result<(u64, u8), Fault>
        ensures result { result ≡ answered (units self.now) (depth self.now) customer asset }
        ensures bounds { Bounded (units self.now) (depth self.now) };

    fn take_in(&mut self, customer: u64, asset: u64, amount: u64) -> Result<(), Fault>
        ensures result { result ≡ taken (units self.old) customer asset amount }
        ensures figures { Alike (units self.new) (if_granted result (raised (units self.old) customer asset amount) (units self.old)) }
        ensures depths { Alike (depth self.new) (depth self.old) }
        ensures moved { is_ok result ≡ true → takes self.old customer asset amount self.new }
        ensures refused { is_ok result ≡ false → self.new ≡ self.old };

    fn release(&mut self, customer: u64, asset: u64, amount: u64) -> Result<(), Fault>
        ensures result { result ≡ released (units self.old) (depth self.old) customer asset amount }
        ensures figures { Alike (units self.new) (if_granted result (lowered (units self.old) customer asset amount) (units self.old)) }
        ensures depths { Alike (depth self.new) (depth self.old) }
        ensures moved { is_ok result ≡ true → gives self.old customer asset amount self.new }
        ensures refused { is_ok result ≡ false → self.new ≡ self.old };
}

/// Every refusal of a taking in, by the units held; a grant hands out the holding.
pub fn check_taking_in(held: u64, customer: u64, asset: u64, amount: u64) -> Result<Holding, Fault>
    ensures result { granted_as names_of result ≡ passed_with (customer, asset) (taking_in held customer asset amount) }
    ensures room { is_ok result ≡ true → held + amount ≤ ceiling asset }
{
    let holding = check_range(customer, asset, amount)?;
    if held.saturating_add(amount) > limit(asset) {
        return Err(Fault::at(Refusal::Limit, customer, asset, 0));
    }
    Ok(holding)
}

/// Every refusal of a release, by the units held and the block depth; a grant hands out the holding.
pub fn check_release(
    held: u64,
    depth: u8,
    customer: u64,
    asset: u64,
    amount: u64,
) -> Result<Holding, Fault>
    ensures result { granted_as names_of result ≡ passed_with (customer, asset) (releasing held depth customer asset amount) }
    ensures free { is_ok result ≡ true → depth ≡ 0 }
    ensures held { is_ok result ≡ true → amount ≤ held }
{
    let holding = check_range(customer, asset, amount)?;
    if depth > 0 {
        return Err(Fault::at(Refusal::Blocked, customer, asset, u64::from(depth)));
    }
    if amount > held {
        return Err(Fault::at(Refusal::NotHeld, customer, asset, 0));
    }
    Ok(holding)
}
