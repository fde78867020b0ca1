//! Why a call is turned down, the ranges that come before anything else, and the holdings that are in range.
//! This crate knows no other: every fault of the ledger is made of what stands here.

#![tactic(auto)]

ghost use Rattle.std.specs.Prelude.{◌≡◌, ◌^◌, ◌≤◌, true, [], ◌∷◌, is_ok, Some};
ghost use Rattle.refusals.specs.Shown.{shown_fault};
ghost use Rattle.refusals.specs.Refusals.{number, fault, fault_at};
ghost use Rattle.refusals.specs.Checks.{passed, passed_with, granted_as};
ghost use Rattle.refusals.specs.Holdings.{names_of};
ghost use Rattle.refusals.specs.Ranges.{between, ceiling, customer_check, asset_check, contract_check, units_check, name_checks, range_checks};

use std::fmt;

mod holding;

pub use holding::Holding;

/// The reasons for a refusal, in the order in which they are looked for.
#[derive(Clone, Copy, PartialEq, Eq, Debug)]
pub enum Refusal {
    /// The line has no listed form.
    Form,
    CustomerRange,
    /// The contract or the asset is out of range.
    InstrumentRange,
    /// Units, a price or another figure is out of range.
    FigureRange,
    /// The member's state forbids it.
    WrongState,
    /// The customer's status forbids it.
    WrongStatus,
    /// A limit would be passed.
    Limit,
    /// Custody is blocked.
    Blocked,
    /// More is asked for than is held.
    NotHeld,
    /// The requirement would not be covered.
    NotCovered,
    /// The debt or the unsettled result is not 0.
    NotSettled,
    /// The store has too few lots; looked for before anything is made.
    FewLots,
}

/// The number under which it is reported.
impl From<Refusal> for u64 {
    ghost from_gives = { λ refusal n. n ≡ number refusal };

    fn from(refusal: Refusal) -> u64 {
        match refusal {
            Refusal::Form => 1,
            Refusal::CustomerRange => 2,
            Refusal::InstrumentRange => 3,
            Refusal::FigureRange => 4,
            Refusal::WrongState => 5,
            Refusal::WrongStatus => 6,
            Refusal::Limit => 7,
            Refusal::Blocked => 8,
            Refusal::NotHeld => 9,
            Refusal::NotCovered => 10,
            Refusal::NotSettled => 11,
            Refusal::FewLots => 12,
        }
    }
}

/// A refusal, the customer and asset concerned and the place; each is 0 where none is named, as it is reported.
#[derive(Clone, Copy, PartialEq, Eq, Debug)]
pub struct Fault {
    pub refusal: Refusal,
    pub customer: u64,
    pub asset: u64,
    pub place: u64,
}

impl Fault {
    /// A fault that names no asset and no place.
    pub fn of(refusal: Refusal, customer: u64) -> Fault
        ensures { result ≡ fault refusal customer }
    {
        Fault::at(refusal, customer, 0, 0)
    }

    /// A fault of one asset of a customer.
    pub fn at(refusal: Refusal, customer: u64, asset: u64, place: u64) -> Fault
        ensures { result ≡ fault_at refusal customer asset place }
    {
        Fault {
            refusal,
            customer,
            asset,
            place,
        }
    }
}

/// Its number and its other parts in words.
impl fmt::Display for Fault {
    ghost output = { λ f. Some (shown_fault f) };

    fn fmt<W: fmt::Write>(&self, f: &mut fmt::Formatter<W>) -> fmt::Result {
        write!(
            f,
            "refusal {}, customer {}, asset {}, place {}",
            u64::from(self.refusal),
            self.customer,
            self.asset,
            self.place
        )
    }
}

/// The asset that is held in cents; the others are held in units. Assets stay numbers, as calls and faults have them.
const CASH: u64 = 1;

/// The most units of a custody call or a statement.
const MOST_UNITS: u64 = 100_000_000_000_000_000;

/// The most that is held of an asset for one customer.
pub fn limit(asset: u64) -> u64
    ensures { result ≡ ceiling asset }
{
    if asset == CASH {
        100_000_000_000_000_000
    } else {
        1_000_000_000
    }
}

/// Refuses a number that is not 1 to `LAST`.
fn check_number<const LAST: u64>(number: u64, fault: Fault) -> Result<(), Fault>
    ensures result { result ≡ passed ((between 1 LAST number, fault) ∷ []) }
    ensures range { is_ok result ≡ true → (1 ≤ number) × (number ≤ LAST) }
{
    if (1..=LAST).contains(&number) {
        Ok(())
    } else {
        Err(fault)
    }
}

/// Refuses a customer that there is not.
pub fn check_customer(customer: u64) -> Result<(), Fault>
    ensures result { result ≡ passed (customer_check customer ∷ []) }
    ensures range { is_ok result ≡ true → (1 ≤ customer) × (customer ≤ 64) }
{
    check_number::<64>(customer, Fault::of(Refusal::CustomerRange, 0))
}

/// Refuses an asset that there is not.
pub fn check_asset(customer: u64, asset: u64) -> Result<(), Fault>
    ensures result { result ≡ passed (asset_check customer asset ∷ []) }
    ensures range { is_ok result ≡ true → (1 ≤ asset) × (asset ≤ 4) }
{
    check_number::<4>(asset, Fault::of(Refusal::InstrumentRange, customer))
}

/// Refuses a contract that there is not; the customer is 0 where the call names none.
pub fn check_contract(customer: u64, contract: u64) -> Result<(), Fault>
    ensures result { result ≡ passed (contract_check customer contract ∷ []) }
    ensures range { is_ok result ≡ true → (1 ≤ contract) × (contract ≤ 8) }
{
    check_number::<8>(contract, Fault::of(Refusal::InstrumentRange, customer))
}

/// Refuses units that no custody call or statement may have.
pub fn check_units(customer: u64, amount: u64) -> Result<(), Fault>
    ensures result { result ≡ passed (units_check customer amount ∷ []) }
    ensures range { is_ok result ≡ true → amount ≤ 10 ^ 17 }
{
    if amount > MOST_UNITS {
        return Err(Fault::of(Refusal::FigureRange, customer));
    }
    Ok(())
}

/// Refuses a customer or an asset out of range, and hands out the holding that they name.
pub fn check_names(customer: u64, asset: u64) -> Result<Holding, Fault>
    ensures { granted_as names_of result ≡ passed_with (customer, asset) (name_checks customer asset) }
{
    check_customer(customer)?;
    check_asset(customer, asset)?;
    Ok(Holding { customer, asset })
}

/// Refuses a customer, an asset or units out of range, and hands out the holding.
pub fn check_range(customer: u64, asset: u64, amount: u64) -> Result<Holding, Fault>
    ensures result { granted_as names_of result ≡ passed_with (customer, asset) (range_checks customer asset amount) }
    ensures range { is_ok result ≡ true → amount ≤ 10 ^ 17 }
{
    let holding = check_names(customer, asset)?;
    check_units(customer, amount)?;
    Ok(holding)
}
