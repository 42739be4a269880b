ghost use Rattle.std.specs.Fmt.{decimal};
ghost use Rattle.std.specs.List.{concat};
ghost use Rattle.std.specs.Prelude.{Some, [], ◌∷◌, codes};

use clr_net::DebtId;
use std::error::Error;
use std::fmt;

/// One event of the process.
#[derive(Clone, Copy, Debug)]
pub enum Event {
    /// The creditor of a debt sees what is paid on it.
    Load(DebtId),
    /// The debtor of a debt raises what is paid on it to so many units.
    Raise(DebtId, u64),
}

/// Why a raise is not legal: what was paid on its debt already, and the most that might be, in
/// units.
#[derive(Clone, Copy, Debug, PartialEq, Eq)]
pub struct Illegal {
    pub had: u64,
    pub allowed: u64,
}

impl fmt::Display for Illegal {
    ghost output = { λ e. Some (concat (
        codes "of " ∷ decimal e.allowed ∷ codes " allowed, " ∷ decimal e.had
        ∷ codes " were paid already" ∷ [])) };

    fn fmt<W: fmt::Write>(&self, f: &mut fmt::Formatter<W>) -> fmt::Result {
        write!(
            f,
            "of {} allowed, {} were paid already",
            self.allowed, self.had
        )
    }
}

impl Error for Illegal {}

/// A raise of what is paid on a debt to so many units, as a journal keeps it, with its stamp.
#[derive(Clone, Copy, Debug)]
pub struct Raise {
    pub stamp: u64,
    pub debt: DebtId,
    pub to: u64,
}
