//! The subject's own types, and in `specs/` every definition that a reader of the ledger has to believe:
//! the figures, the rule of each entry, histories, and the laws over them.
//! It knows custody, reconciliation and margin by their definitions alone.

#![tactic(auto)]

ghost use Rattle.rules.specs.Worked.{WorkedFigures};

mod entries;
mod records;

pub use entries::{Answer, Entry, Terms};
pub use records::{Accounts, CustomerRecord, MemberState, Status};

/// The worked figures hold of the definitions. There is nothing to run: the contract is all.
pub fn worked_figures_hold()
    ensures { WorkedFigures }
{}
