//! The steps of a day, and what each is answered.
ghost use Rattle.custody_day.specs.Steps.{Stepped};

use custody::Custody;
use reconciliation::Reconciliation;
use refusals::Fault;

/// What is asked of custody. A step is data and no closure, since it is also listed, compared and told in words.
#[derive(Clone, Copy, PartialEq, Eq, Debug)]
pub enum Step {
    TakeIn {
        customer: u64,
        asset: u64,
        amount: u64,
    },
    Release {
        customer: u64,
        asset: u64,
        amount: u64,
    },
    /// The custodian states what it holds.
    Statement {
        customer: u64,
        asset: u64,
        stated: u64,
    },
    Question {
        customer: u64,
        asset: u64,
    },
}

/// What a granted step answers.
#[derive(Clone, Copy, PartialEq, Eq, Debug)]
pub enum Answer {
    Done,
    /// Stated less held.
    Difference(i64),
    Holding { held: u64, depth: u8 },
}

/// Performs one step.
pub fn perform<C: Custody>(custody: &mut Reconciliation<C>, step: Step) -> Result<Answer, Fault>
    ensures { Stepped C.Custody custody.old step result custody.new }
{
    match step {
        Step::TakeIn {
            customer,
            asset,
            amount,
        } => {
            custody.take_in(customer, asset, amount)?;
            Ok(Answer::Done)
        }
        Step::Release {
            customer,
            asset,
            amount,
        } => {
            custody.release(customer, asset, amount)?;
            Ok(Answer::Done)
        }
        Step::Statement {
            customer,
            asset,
            stated,
        } => {
            let difference = custody.statement(customer, asset, stated)?;
            Ok(Answer::Difference(difference))
        }
        Step::Question { customer, asset } => {
            let (held, depth) = custody.question(customer, asset)?;
            Ok(Answer::Holding { held, depth })
        }
    }
}
