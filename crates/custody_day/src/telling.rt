//! Steps performed one after the other, and told.
ghost use Rattle.std.specs.Prelude.{◌≡◌, ◌++◌, IfOk, string_bytes, MatchResult, OnOk};
ghost use Rattle.custody_day.specs.Days.{line_of, told_of, Went, WentInPart};

use crate::report::Report;
use crate::steps::{Step, perform};
use custody::Custody;
use reconciliation::Reconciliation;
use std::alloc::{AllocError, Global};
use std::fmt::Write;

/// One line more.
fn add_line(text: &mut String, report: Report) -> Result<(), AllocError>
    ensures { OnOk result (string_bytes text.new ≡ string_bytes text.old ++ line_of report.number report.step report.outcome) }
{
    writeln!(text, "{report}")
}

/// Performs steps in their order, and answers the text that tells of them. Where memory is wanting for the line of a
/// step, no step after it is performed.
pub fn tell_day<C: Custody>(
    heap: Global,
    custody: &mut Reconciliation<C>,
    steps: &[Step],
) -> Result<String, AllocError>
    ensures text { IfOk result (λ text. string_bytes text ≡ told_of C.Custody custody.old 1 steps.now) }
    ensures went { MatchResult result (λ _. Went C.Custody custody.old steps.now custody.new) (λ _. WentInPart C.Custody custody.old steps.now custody.new) }
{
    let mut text = String::new(heap);
    for (done, step) in steps.iter().enumerate() {
        let outcome = perform(custody, *step);
        let report = Report {
            number: done as u64 + 1,
            step: *step,
            outcome,
        };
        add_line(&mut text, report)?;
    }
    Ok(text)
}
