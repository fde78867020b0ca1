//! Margin methods: what the eight nets of a customer require.
//! This crate knows the refusals alone; code above it knows a method by its figure for each portfolio.

#![tactic(auto)]

mod flat;
mod method;
mod portfolio;
mod scenario;
#[cfg(test)]
mod tests;

pub use flat::Flat;
pub use method::{MarginMethod, check_portfolio};
pub use portfolio::Portfolio;
pub use scenario::Scenario;
