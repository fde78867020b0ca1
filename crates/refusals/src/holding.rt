//! Holdings: one customer's holding of one asset, named by the numbers of both.
ghost use Rattle.std.specs.Prelude.{◌≡◌, ◌-◌, ◌<◌};
ghost use Rattle.refusals.specs.Ranges.{Known, spot};

/// A customer and an asset that there are.
#[derive(Clone, Copy, PartialEq, Eq, Debug)]
pub struct Holding {
    pub customer: u64,
    pub asset: u64,
    ghost known: { Known customer asset },
}

impl Holding {
    /// Where the customer stands among the 64.
    pub fn customer_place(self) -> usize
        ensures place { result ≡ self.customer - 1 }
        ensures within { result < 64 }
    {
        (self.customer - 1) as usize
    }

    /// Where the asset stands among the four.
    pub fn asset_place(self) -> usize
        ensures place { result ≡ self.asset - 1 }
        ensures within { result < 4 }
    {
        (self.asset - 1) as usize
    }

    /// Where the holding stands among the 256, by customer, then asset.
    pub fn spot(self) -> usize
        ensures spot { result ≡ spot self.customer self.asset }
        ensures within { result < 256 }
    {
        4 * self.customer_place() + self.asset_place()
    }
}
