//! What is brought to the book, and what a grant answers.

/// What a trade is about.
#[derive(Clone, Copy, PartialEq, Eq, Debug)]
pub struct Terms {
    pub contract: u64,
    pub units: i64,
    pub price: i64,
}

/// An entry and its fields. Its kind says which permit it is brought under; delivery and return are brought by an
/// obligation, and have its customer.
#[derive(Clone, Copy, PartialEq, Eq, Debug)]
pub enum Entry {
    Deposit {
        customer: u64,
        asset: u64,
        units: u64,
    },
    Withdrawal {
        customer: u64,
        asset: u64,
        units: u64,
    },
    Payout {
        customer: u64,
        asset: u64,
        units: u64,
    },
    Trade {
        customer: u64,
        terms: Terms,
    },
    Mark {
        contract: u64,
        figure: i64,
    },
    Quote {
        asset: u64,
        figure: u64,
    },
    Settlement {
        customer: u64,
    },
    Statement {
        customer: u64,
        asset: u64,
        units: u64,
    },
    Default,
    Closing,
    Transfer {
        customer: u64,
    },
    Delivery {
        customer: u64,
    },
    Return {
        customer: u64,
    },
    Liquidation {
        customer: u64,
    },
}

/// What a granted entry answers.
#[derive(Clone, Copy, PartialEq, Eq, Debug)]
pub enum Answer {
    /// Of a customer's entry: the figures after it.
    Figures {
        protected: u64,
        call: u64,
        debt: u64,
    },
    /// Of a statement: stated less held.
    Difference {
        units: i64,
    },
    Done,
}
