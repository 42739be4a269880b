//! What a seat knows. No value of these types is made: they stand in contracts and in the rule of a
//! board alone.
use crate::payment::Payment;
use clear_core::Raise;
use clr_net::{BankId, DebtId, Network};
use std::collections::LinkedList;

/// One thing that was done with the seat of a worker: a look at a debt and the payment that it
/// found there, a raise of a debt, a ring of a bank's bell, or a take that found the bell of a bank
/// up.
pub enum Act {
    Look(DebtId, Payment),
    Raise(DebtId),
    Ring(BankId),
    Take(BankId),
}

/// What contracts see of a seat. A list over banks or debts has a place for each, in file order.
pub struct Shown {
    /// The network of its board.
    pub net: Network,
    /// Whether it is the master.
    pub master: bool,
    /// Over banks: whether it holds the bank.
    pub banks: LinkedList<bool>,
    /// Over debts: the value that was last seen, and its stamp. They count for debts owed to a bank
    /// that it holds.
    pub sights: LinkedList<u64>,
    pub sight_stamps: LinkedList<u64>,
    /// Over debts: how many looks were made.
    pub looks: LinkedList<u64>,
    /// Over debts: the value that is paid, and its stamp. They count for debts that a bank owes
    /// that it holds.
    pub paid: LinkedList<u64>,
    pub paid_stamps: LinkedList<u64>,
    /// Over debts: what is known to be paid at least.
    pub floor: LinkedList<u64>,
    /// No stamp that it saw or gave is greater.
    pub clock: u64,
    /// The raises that it made, in order.
    pub raises: LinkedList<Raise>,
    /// How many seats it handed out.
    pub seats: u64,
    /// Over debts: whether a taken bell calls for a look at it.
    pub pending: LinkedList<bool>,
    /// Over debts: whether it was raised since its creditor's bell was last rung.
    pub owes_ring: LinkedList<bool>,
    /// Over banks: whether its bell was never taken.
    pub fresh: LinkedList<bool>,
    /// How many bells it took.
    pub taken: u64,
    /// What was done with it, in order.
    pub acts: LinkedList<Act>,
}

/// What the rule of a board sees of a seat.
pub struct View {
    /// Whether it is a seat still, and was not taken back.
    pub live: bool,
    /// The roll word, as the master left it.
    pub rolled: u64,
    pub shown: Shown,
}
