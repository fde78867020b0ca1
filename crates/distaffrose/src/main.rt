//! Follows one custody day over lots and reconciliation, and prints each step with its answer or its refusal.

#![tactic(auto)]

use day::follow_day;
use std::io;
use std::io::Write;

mod day;

fn main(rt: HostRuntime) -> io::Result<()> {
    let text = follow_day(rt.alloc())?;
    rt.stdout().write_all(text.as_bytes())
}
