//! Reconciliation: a layer over any one custody that blocks what the custodian states otherwise.
//! It knows the custody below by its two figures alone, and is a custody itself.

#![tactic(auto)]

ghost use Rattle.std.specs.Prelude.{◌≡◌, false, replicate, is_ok};
ghost use Rattle.custody.specs.Meaning.{Alike};
ghost use Rattle.reconciliation.specs.Breaks.{depth_over, depths_over, stating, marks_after};

use custody::{Custody, check_release};
use refusals::{Fault, check_names, check_range};

/// A custody held by value, and a break mark for each customer and asset.
#[derive(Drop)]
pub struct Reconciliation<C: Custody> {
    below: C,
    breaks: [bool; 256],
}

/// 1 under a mark; otherwise a block below is seen one deeper.
fn depth_over(mark: bool, below: u8) -> u8
    ensures { result ≡ depth_over mark below }
{
    if mark {
        1
    } else if below == 0 {
        0
    } else {
        below.saturating_add(1)
    }
}

impl<C: Custody> Reconciliation<C> {
    /// No mark is set at making.
    pub fn new(below: C) -> Reconciliation<C>
        ensures held { result.below ≡ below }
        ensures unmarked { result.breaks ≡ replicate 256 false }
    {
        Reconciliation {
            below,
            breaks: [false; 256],
        }
    }

    /// Takes what the custodian states, and answers stated less held.
    pub fn statement(&mut self, customer: u64, asset: u64, stated: u64) -> Result<i64, Fault>
        ensures result { result ≡ stating (C.Custody.units self.old.below) customer asset stated }
        ensures below { self.new.below ≡ self.old.below }
        ensures marks { self.new.breaks ≡ marks_after (C.Custody.units self.old.below) self.old.breaks customer asset stated }
        ensures refused { is_ok result ≡ false → self.new ≡ self.old }
    {
        let (held, _depth) = self.below.question(customer, asset)?;
        let holding = check_range(customer, asset, stated)?;
        self.breaks[holding.spot()] = stated != held;
        Ok(stated as i64 - held as i64)
    }
}

impl<C: Custody> Custody for Reconciliation<C> {
    ghost units = { λ s. C.Custody.units s.below };

    ghost depth = { λ s. depths_over s.breaks (C.Custody.depth s.below) };

    // What is below moves, its depths and the marks stay. The depths are said here too, since those seen from here lose them at 255.
    ghost takes = { λ s c a n t. C.Custody.takes s.below c a n t.below × (t.breaks ≡ s.breaks) × Alike (C.Custody.depth t.below) (C.Custody.depth s.below) };

    ghost gives = { λ s c a n t. C.Custody.gives s.below c a n t.below × (t.breaks ≡ s.breaks) × Alike (C.Custody.depth t.below) (C.Custody.depth s.below) };

    fn question(&self, customer: u64, asset: u64) -> Result<(u64, u8), Fault> {
        let (held, depth) = self.below.question(customer, asset)?;
        let holding = check_names(customer, asset)?;
        Ok((held, depth_over(self.breaks[holding.spot()], depth)))
    }

    fn take_in(&mut self, customer: u64, asset: u64, amount: u64) -> Result<(), Fault> {
        self.below.take_in(customer, asset, amount)
    }

    fn release(&mut self, customer: u64, asset: u64, amount: u64) -> Result<(), Fault> {
        let (held, depth) = self.question(customer, asset)?;
        check_release(held, depth, customer, asset, amount)?;
        self.below.release(customer, asset, amount)
    }
}
