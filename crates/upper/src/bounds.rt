use clr_net::Amounts;

/// The greatest payments that clear a network, and when each bank falls on the way down to them.
#[derive(Drop)]
pub struct Upper {
    /// One for each debt, in file order, in units.
    pub greatest: Amounts,
    /// One for each bank, in file order: the first round, counted from 1, that the bank enters with
    /// less than all that it owes, on its debts and outside, and 0 where there is none.
    pub waves: Amounts,
}
