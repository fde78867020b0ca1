//! One custody day over lots and reconciliation, from making the account to the last answer.
ghost use Rattle.std.specs.Prelude.{◌≡◌, IfOk, string_bytes};
ghost use Rattle.distaffrose.specs.Day.{text_of, day_lines};

use custody_day::{Step, tell_day};
use lots::{Lot, Lots};
use reconciliation::Reconciliation;
use std::alloc::{AllocError, Global};

const DAY: [Step; 16] = [
    // Three lots for one customer and two for the other.
    Step::TakeIn {
        customer: 1,
        asset: 1,
        amount: 400,
    },
    Step::TakeIn {
        customer: 1,
        asset: 1,
        amount: 250,
    },
    Step::TakeIn {
        customer: 1,
        asset: 1,
        amount: 350,
    },
    Step::TakeIn {
        customer: 2,
        asset: 1,
        amount: 900,
    },
    Step::TakeIn {
        customer: 2,
        asset: 1,
        amount: 500,
    },
    // It empties the two oldest lots and opens the third.
    Step::Release {
        customer: 1,
        asset: 1,
        amount: 700,
    },
    Step::Question {
        customer: 1,
        asset: 1,
    },
    // The pool holds 1,700, the customer 300.
    Step::Release {
        customer: 1,
        asset: 1,
        amount: 301,
    },
    // The custodian states ten too few: this customer's cash is blocked, and no other's.
    Step::Statement {
        customer: 1,
        asset: 1,
        stated: 290,
    },
    Step::Question {
        customer: 1,
        asset: 1,
    },
    Step::Release {
        customer: 1,
        asset: 1,
        amount: 100,
    },
    Step::Release {
        customer: 2,
        asset: 1,
        amount: 200,
    },
    // The corrected statement frees it.
    Step::Statement {
        customer: 1,
        asset: 1,
        stated: 300,
    },
    Step::Release {
        customer: 1,
        asset: 1,
        amount: 100,
    },
    Step::Question {
        customer: 1,
        asset: 1,
    },
    Step::Question {
        customer: 2,
        asset: 1,
    },
];

/// Follows the day, and answers the text that tells of it.
pub fn follow_day(heap: Global) -> Result<String, AllocError>
    ensures { IfOk result (λ text. string_bytes text ≡ text_of day_lines) }
{
    let mut store = vec![in heap; Lot { units: 0 }; 2048]?;
    let Ok(lots) = Lots::new(&mut store) else {
        unreachable!();
    };
    let mut custody = Reconciliation::new(lots);
    tell_day(heap, &mut custody, &DAY)
}
