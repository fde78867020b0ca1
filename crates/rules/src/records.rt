//! What the book keeps.
ghost use Rattle.std.specs.Prelude.{◌≡◌};
ghost use Rattle.rules.specs.Histories.{blank, opening_accounts};

/// What a customer of the book is just now.
#[derive(Clone, Copy, PartialEq, Eq, Debug)]
pub enum Status {
    Open,
    /// Carried to another member, and owed until delivered or returned.
    InTransit,
    Ported,
    Liquidated,
}

#[derive(Clone, Copy, PartialEq, Eq, Debug)]
pub enum MemberState {
    Active,
    /// After default, while customers may be ported.
    Porting,
    /// After the window was closed.
    Liquidating,
}

/// What the book keeps of one customer; contracts and assets stand by number.
#[derive(Clone, Copy, PartialEq, Eq, Debug)]
pub struct CustomerRecord {
    /// Apart from the costs: a margin method asks for eight nets, and the rules speak of eight of each.
    pub nets: [i64; 8],
    pub costs: [i64; 8],
    /// The units that a transfer took out of custody.
    pub carried: [u64; 4],
    pub debt: u64,
    pub status: Status,
}

/// What the book keeps of all customers, and what is the same for all.
#[derive(Clone, Copy, PartialEq, Eq, Debug)]
pub struct Accounts {
    pub records: [CustomerRecord; 64],
    pub marks: [i64; 8],
    /// Of the assets 2 to 4.
    pub quotes: [u64; 3],
    pub member: MemberState,
}

impl CustomerRecord {
    /// The record of a customer at the opening.
    pub fn blank() -> CustomerRecord
        ensures { result ≡ blank }
    {
        CustomerRecord {
            nets: [0; 8],
            costs: [0; 8],
            carried: [0; 4],
            debt: 0,
            status: Status::Open,
        }
    }
}

impl Accounts {
    /// What a book keeps at its opening: blank records, no marks and quotes yet, and an active member.
    pub fn opening() -> Accounts
        ensures { result ≡ opening_accounts }
    {
        Accounts {
            records: [CustomerRecord::blank(); 64],
            marks: [0; 8],
            quotes: [0; 3],
            member: MemberState::Active,
        }
    }
}
