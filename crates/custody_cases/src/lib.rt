//! Worked cases of custody: bad input, layers over layers, and what the lots hold.

#![tactic(auto)]

#[cfg(test)]
mod frozen;

#[cfg(test)]
mod tests {
    use crate::frozen::Frozen;
    use commingled::Commingled;
    use custody::Custody;
    use custody_day::{Answer, Step, perform};
    use lots::{Lot, Lots, prepare};
    use reconciliation::Reconciliation;
    use refusals::{Fault, Refusal};
    use std::test::Fail;

    // What is brought: a store of so many lots, or a step.
    #[derive(Clone, Copy)]
    enum Brought {
        Store(usize),
        Step(Step),
    }

    // A row of the table: what is brought, and what comes of it.
    #[derive(Clone, Copy)]
    struct Case {
        brought: Brought,
        outcome: Result<Answer, Fault>,
    }

    const NO_CUSTOMER: Result<Answer, Fault> = Err(Fault {
        refusal: Refusal::CustomerRange,
        customer: 0,
        asset: 0,
        place: 0,
    });

    const NO_ASSET: Result<Answer, Fault> = Err(Fault {
        refusal: Refusal::InstrumentRange,
        customer: 1,
        asset: 0,
        place: 0,
    });

    const TOO_MANY: Result<Answer, Fault> = Err(Fault {
        refusal: Refusal::FigureRange,
        customer: 1,
        asset: 0,
        place: 0,
    });

    const FEW_LOTS: Result<Answer, Fault> = Err(Fault {
        refusal: Refusal::FewLots,
        customer: 0,
        asset: 0,
        place: 0,
    });

    const CASES: [Case; 19] = [
        Case {
            brought: Brought::Store(2047),
            outcome: FEW_LOTS,
        },
        Case {
            brought: Brought::Store(2048),
            outcome: Ok(Answer::Done),
        },
        Case {
            brought: Brought::Step(Step::TakeIn {
                customer: 0,
                asset: 1,
                amount: 1,
            }),
            outcome: NO_CUSTOMER,
        },
        Case {
            brought: Brought::Step(Step::TakeIn {
                customer: 65,
                asset: 1,
                amount: 1,
            }),
            outcome: NO_CUSTOMER,
        },
        Case {
            brought: Brought::Step(Step::TakeIn {
                customer: 18446744073709551615,
                asset: 1,
                amount: 1,
            }),
            outcome: NO_CUSTOMER,
        },
        Case {
            brought: Brought::Step(Step::TakeIn {
                customer: 1,
                asset: 0,
                amount: 1,
            }),
            outcome: NO_ASSET,
        },
        Case {
            brought: Brought::Step(Step::TakeIn {
                customer: 1,
                asset: 5,
                amount: 1,
            }),
            outcome: NO_ASSET,
        },
        Case {
            brought: Brought::Step(Step::TakeIn {
                customer: 1,
                asset: 1,
                amount: 100_000_000_000_000_001,
            }),
            outcome: TOO_MANY,
        },
        Case {
            brought: Brought::Step(Step::Release {
                customer: 0,
                asset: 5,
                amount: 1,
            }),
            outcome: NO_CUSTOMER,
        },
        Case {
            brought: Brought::Step(Step::Release {
                customer: 1,
                asset: 5,
                amount: 18446744073709551615,
            }),
            outcome: NO_ASSET,
        },
        Case {
            brought: Brought::Step(Step::Release {
                customer: 1,
                asset: 4,
                amount: 100_000_000_000_000_001,
            }),
            outcome: TOO_MANY,
        },
        Case {
            brought: Brought::Step(Step::Statement {
                customer: 65,
                asset: 1,
                stated: 0,
            }),
            outcome: NO_CUSTOMER,
        },
        Case {
            brought: Brought::Step(Step::Statement {
                customer: 1,
                asset: 0,
                stated: 0,
            }),
            outcome: NO_ASSET,
        },
        Case {
            brought: Brought::Step(Step::Statement {
                customer: 1,
                asset: 1,
                stated: 18446744073709551615,
            }),
            outcome: TOO_MANY,
        },
        Case {
            brought: Brought::Step(Step::Question {
                customer: 65,
                asset: 0,
            }),
            outcome: NO_CUSTOMER,
        },
        Case {
            brought: Brought::Step(Step::Question {
                customer: 1,
                asset: 5,
            }),
            outcome: NO_ASSET,
        },
        // 10^17 units are in range, and the ceiling of cash; a security's is passed.
        Case {
            brought: Brought::Step(Step::TakeIn {
                customer: 1,
                asset: 2,
                amount: 100_000_000_000_000_000,
            }),
            outcome: Err(Fault {
                refusal: Refusal::Limit,
                customer: 1,
                asset: 2,
                place: 0,
            }),
        },
        Case {
            brought: Brought::Step(Step::TakeIn {
                customer: 1,
                asset: 1,
                amount: 100_000_000_000_000_000,
            }),
            outcome: Ok(Answer::Done),
        },
        Case {
            brought: Brought::Step(Step::TakeIn {
                customer: 1,
                asset: 1,
                amount: 1,
            }),
            outcome: Err(Fault {
                refusal: Refusal::Limit,
                customer: 1,
                asset: 1,
                place: 0,
            }),
        },
    ];

    fn made(lots: usize) -> Result<Answer, Fault> {
        let mut store = [Lot { units: 1 }; 2048];
        prepare(&mut store[0..lots.min(2048)])?;
        Ok(Answer::Done)
    }

    fn check_cases<C: Custody + Drop>(below: C) -> Result<(), Fail> {
        let mut custody = Reconciliation::new(below);
        for case in CASES {
            let outcome = match case.brought {
                Brought::Store(lots) => made(lots),
                Brought::Step(step) => perform(&mut custody, step),
            };
            // Not `assert_eq!`: it may end the process, and this helper would need a bound that allows it.
            if outcome != case.outcome {
                return Err(Fail::from((outcome, case.outcome)));
            }
        }
        Ok(())
    }

    #[test]
    fn bad_input() -> Result<(), Fail> {
        check_cases(Commingled::new())?;
        let mut store = [Lot { units: 1 }; 2048];
        check_cases(Lots::new(&mut store)?)
    }

    // A block two layers down is seen at depth 2, and a break further up hides it.
    #[test]
    fn layer_over_layer(rt: HostRuntime) -> Result<(), Fail> {
        let mut inner = Reconciliation::new(Commingled::new());
        inner.take_in(1, 1, 100)?;
        assert_eq!(rt; inner.statement(1, 1, 90)?, -10);
        let mut outer = Reconciliation::new(inner);
        assert_eq!(rt; outer.question(1, 1)?, (100, 2));
        assert_eq!(rt;
            outer.release(1, 1, 1),
            Err(Fault {
                refusal: Refusal::Blocked,
                customer: 1,
                asset: 1,
                place: 2,
            })
        );
        assert_eq!(rt; outer.statement(1, 1, 101)?, 1);
        assert_eq!(rt; outer.question(1, 1)?, (100, 1));
        Ok(())
    }

    // A block below is seen one deeper, and the deepest stays where it is.
    #[test]
    fn deepest_block(rt: HostRuntime) -> Result<(), Fail> {
        let almost = Reconciliation::new(Frozen::new(Commingled::new(), 254));
        assert_eq!(rt; almost.question(1, 1)?, (0, 255));
        let mut deepest = Reconciliation::new(Frozen::new(Commingled::new(), 255));
        assert_eq!(rt; deepest.question(1, 1)?, (0, 255));
        assert_eq!(rt;
            deepest.release(1, 1, 0),
            Err(Fault {
                refusal: Refusal::Blocked,
                customer: 1,
                asset: 1,
                place: 255,
            })
        );
        Ok(())
    }

    // The ninth lot joins the newest, the oldest go first, and those left move up.
    #[test]
    fn first_in_first_out(rt: HostRuntime) -> Result<(), Fail> {
        let mut store = [Lot { units: 1 }; 2048];
        let mut lots = Lots::new(&mut store)?;
        for amount in 1..10u64 {
            lots.take_in(2, 3, amount)?;
        }
        lots.release(2, 3, 5)?;
        drop(lots);
        // Customer 2 and asset 3 begin at 32 + 16.
        assert_eq!(rt; store[48].units, 1);
        assert_eq!(rt; store[49].units, 4);
        assert_eq!(rt; store[53].units, 17);
        assert_eq!(rt; store[54].units, 0);
        assert_eq!(rt; store[55].units, 0);
        Ok(())
    }
}
