//! Worked figures of both methods, and a method whose bound rests on the type of its number.
ghost use Rattle.std.specs.Prelude.{◌≡◌};

use crate::method::MarginMethod;
use crate::portfolio::Portfolio;
use crate::{Flat, Scenario};
use refusals::{Fault, Refusal};
use std::test::Fail;

/// The same for every portfolio.
#[derive(Drop)]
struct Fixed {
    cents: u32,
}

impl MarginMethod for Fixed {
    ghost required = { λ m _. m.cents };

    fn figure(&self, _portfolio: &Portfolio) -> u64 {
        u64::from(self.cents)
    }

    fn stay_bounded(&self) {
        // To read the number is what tells that it fits its type.
        let _cents = self.cents;
    }
}

const TOO_MANY: Fault = Fault {
    refusal: Refusal::FigureRange,
    customer: 0,
    asset: 0,
    place: 0,
};

// Nets 10 of contract 1 and -4 of contract 3.
#[test]
fn worked_figures(rt: HostRuntime) -> Result<(), Fail> {
    let nets = [10, 0, -4, 0, 0, 0, 0, 0];
    assert_eq!(rt; Flat.requirement(&nets)?, 3300);
    assert_eq!(rt; Scenario.requirement(&nets)?, 3200);
    let fixed = Fixed { cents: u32::MAX };
    assert_eq!(rt; fixed.requirement(&nets)?, 4_294_967_295);
    Ok(())
}

// The last net is one unit past its range.
#[test]
fn net_out_of_range(rt: HostRuntime) -> Result<(), Fail> {
    let nets = [0, 0, 0, 0, 0, 0, 0, -1_000_001];
    assert_eq!(rt; Flat.requirement(&nets), Err(TOO_MANY));
    assert_eq!(rt; Scenario.requirement(&nets), Err(TOO_MANY));
    let fixed = Fixed { cents: 1 };
    assert_eq!(rt; fixed.requirement(&nets), Err(TOO_MANY));
    Ok(())
}
