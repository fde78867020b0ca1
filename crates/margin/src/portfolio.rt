//! Eight nets in range.
ghost use Rattle.std.specs.Prelude.{◌≡◌, true};
ghost use Rattle.margin.specs.Meaning.{is_portfolio};

/// The nets of one customer, contract by contract, each in range.
#[derive(Clone, Copy, PartialEq, Eq, Debug)]
pub struct Portfolio {
    pub nets: [i64; 8],
    ghost in_range: { is_portfolio nets ≡ true },
}
