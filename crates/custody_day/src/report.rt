//! Steps and what came of them, in words.
ghost use Rattle.std.specs.Prelude.{Some};
ghost use Rattle.custody_day.specs.Shown.{shown_step, shown_answer, shown_report};

use crate::steps::{Answer, Step};
use refusals::Fault;
use std::fmt;

impl fmt::Display for Step {
    ghost output = { λ s. Some (shown_step s) };

    fn fmt<W: fmt::Write>(&self, f: &mut fmt::Formatter<W>) -> fmt::Result {
        match self {
            Step::TakeIn {
                customer,
                asset,
                amount,
            } => write!(
                f,
                "take in {amount} of asset {asset} for customer {customer}"
            ),
            Step::Release {
                customer,
                asset,
                amount,
            } => write!(
                f,
                "release {amount} of asset {asset} for customer {customer}"
            ),
            Step::Statement {
                customer,
                asset,
                stated,
            } => write!(
                f,
                "the custodian states {stated} of asset {asset} for customer {customer}"
            ),
            Step::Question { customer, asset } => write!(
                f,
                "what is held of asset {asset} for customer {customer}"
            ),
        }
    }
}

impl fmt::Display for Answer {
    ghost output = { λ a. Some (shown_answer a) };

    fn fmt<W: fmt::Write>(&self, f: &mut fmt::Formatter<W>) -> fmt::Result {
        match self {
            Answer::Done => write!(f, "done"),
            Answer::Difference(difference) => write!(f, "difference {difference}"),
            Answer::Holding { held, depth } => write!(f, "held {held}, block depth {depth}"),
        }
    }
}

/// One line on a step: its number, the step, and its answer or its refusal.
#[derive(Clone, Copy, PartialEq, Eq, Debug)]
pub struct Report {
    pub number: u64,
    pub step: Step,
    pub outcome: Result<Answer, Fault>,
}

impl fmt::Display for Report {
    ghost output = { λ r. Some (shown_report r.number r.step r.outcome) };

    fn fmt<W: fmt::Write>(&self, f: &mut fmt::Formatter<W>) -> fmt::Result {
        write!(f, "{} {}: ", self.number, self.step)?;
        match &self.outcome {
            Ok(answer) => write!(f, "{answer}"),
            Err(fault) => write!(f, "{fault}"),
        }
    }
}
