//! The record of a board that was sealed.
ghost use Rattle.std.specs.Prelude.{◌≡◌};

use clear_core::{Journal, Raise};
use clr_net::Network;
use std::marker::Model;

/// What was done on a board, made as the board is sealed and in no other way. It can't be copied.
///
/// Contracts see the network, the journal, and the three numbers.
#[derive(Drop)]
pub struct Record {
    pub(crate) net: Network,
    pub(crate) journal: Journal,
    pub(crate) made: u64,
    pub(crate) workers: u32,
    pub(crate) seats: u64,
}

impl Model for Record {
    ghost use Rattle.pay_words.specs.Sealed.{Sealed};

    ghost Value = { Sealed };

    ghost view = { λ r. record {
      net = r.net;
      journal = r.journal.raises;
      made = r.made;
      workers = r.workers;
      seats = r.seats;
    } };
}

impl Record {
    /// The network of the board.
    pub fn net(&self) -> &Network
        ensures { result.now ≡ self.now.net }
    {
        &self.net
    }

    /// The network of the board, for which the rest of the record is given up.
    pub fn into_net(self) -> Network
        ensures { result ≡ self.net }
    {
        let Record { net, .. } = self;
        net
    }

    /// The raises of the past and those that were made on the board, in order of stamp, debt number
    /// and amount.
    pub fn journal(&self) -> &[Raise]
        ensures { result.now ≡ self.now.journal }
    {
        self.journal.as_slice()
    }

    /// How many raises were made on the board.
    pub fn made(&self) -> u64
        ensures { result ≡ self.now.made }
    {
        self.made
    }

    /// For how many workers the board was made.
    pub fn workers(&self) -> u32
        ensures { result ≡ self.now.workers }
    {
        self.workers
    }

    /// How many seats the master handed out.
    pub fn seats(&self) -> u64
        ensures { result ≡ self.now.seats }
    {
        self.seats
    }
}
