//! Where every history begins, and the proofs of the laws wherever it leads; the book's calls take them from here.
//! It knows the definitions, and of code the records alone.

#![tactic(auto)]

ghost use Rattle.std.specs.Prelude.{◌≡◌};
ghost use Rattle.rules.specs.Histories.{opening_accounts};
ghost use Rattle.rules.specs.Laws.{Opens, LawsStand, StepsKeepLaws, HistoriesExist, MovementsAgree};

use rules::Accounts;

/// What a book keeps at its opening. From there on, over any custody and method and after any entries, what others enter
/// changes nothing that a customer is told or has, no customer's cash appears or vanishes, and a transfer can be returned.
pub fn opening_book() -> Accounts
    ensures result { result ≡ opening_accounts }
    ensures opens { Opens result }
    ensures laws { LawsStand }
    ensures steps { StepsKeepLaws }
    ensures histories { HistoriesExist }
    ensures movements { MovementsAgree }
{
    Accounts::opening()
}
