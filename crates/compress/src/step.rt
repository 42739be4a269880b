use clr_net::{BankId, DebtId};

/// A step back along a debt: the debt, and the bank that owes it, which a walk needs no debt for.
#[derive(Clone, Copy)]
pub(crate) struct Step {
    pub debt: DebtId,
    pub debtor: BankId,
}
