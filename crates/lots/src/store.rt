//! The store: eight lots for each customer and asset, by customer, then asset.
//! It is read and rewritten in place.
ghost use Rattle.std.specs.Prelude.{◌≡◌, ◌+◌, ◌^◌, ◌<◌, ◌≤◌, true, length, is_ok};
ghost use Rattle.lots.specs.Groups.{total};
ghost use Rattle.lots.specs.Queues.{FirstInFirstOut};
ghost use Rattle.lots.specs.Stores.{place, group, with_more, with_less, prepared, cleared, sound, Sound, held};

use crate::group::{Lot, add_to, held_in, pay_from};
use refusals::{Fault, Holding, Refusal};

/// The lots that a store has at least: eight for each of 64 customers and four assets.
const FEWEST: usize = 2048;

/// Clears the whole store; one of too few lots is refused, and left as it is. From then on the store is a queue for each
/// customer and asset.
pub fn prepare(store: &mut [Lot]) -> Result<(), Fault>
    ensures result { result ≡ prepared store.old }
    ensures after { store.new ≡ cleared store.old }
    ensures queues { is_ok result ≡ true → FirstInFirstOut store.new }
    ensures sound { is_ok result ≡ true → Sound store.new }
{
    if store.len() < FEWEST {
        return Err(Fault::of(Refusal::FewLots, 0));
    }
    store.fill(Lot { units: 0 });
    Ok(())
}

/// Where the eight lots of a holding begin.
fn place_of(holding: Holding) -> usize
    ensures { result ≡ place holding.customer holding.asset }
{
    8 * holding.spot()
}

/// The units held.
#[tactic(auto, unfolding(crate::specs::Stores::held))]
pub(crate) fn held_of(store: &[Lot], holding: Holding) -> u64
    requires { sound store.now holding.customer holding.asset ≡ true }
    ensures { result ≡ held store.now holding.customer holding.asset }
{
    let at = place_of(holding);
    held_in(&store[at..at + 8])
}

/// Units come in, in their own eight lots.
pub(crate) fn add_lot(store: &mut [Lot], holding: Holding, amount: u64)
    requires long { 2048 ≤ length store.old }
    requires fits { total (group store.old holding.customer holding.asset) + amount < 2 ^ 64 }
    ensures { store.new ≡ with_more store.old holding.customer holding.asset amount }
{
    let at = place_of(holding);
    add_to(&mut store[at..at + 8], amount);
}

/// Units go out of their own eight lots.
pub(crate) fn pay_lots(store: &mut [Lot], holding: Holding, amount: u64)
    requires { 2048 ≤ length store.old }
    ensures { store.new ≡ with_less store.old holding.customer holding.asset amount }
{
    let at = place_of(holding);
    pay_from(&mut store[at..at + 8], amount);
}
