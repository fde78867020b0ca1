//! A custody day: steps performed, one after the other, over a reconciled custody, and told in words.
//! It knows the reconciliation and, below it, any custody.

#![tactic(auto)]

mod report;
mod steps;
mod telling;

pub use report::Report;
pub use steps::{Answer, Step, perform};
pub use telling::tell_day;
