//! The limits by which files are read.
ghost use Rattle.clr_net.specs.declared.TheConstants.{MAX_BANKS, MAX_DEBTS, MAX_OWED};
ghost use Rattle.net_check.specs.declared.TheConstants.{MAX_RAISES};
ghost use Rattle.net_check.specs.Within.{file_limit, limits_named, most_banks, most_debts};
ghost use Rattle.net_check.specs.Within.{most_owed, most_raises};
ghost use Rattle.std.specs.Prelude.{◌≡◌, ◌≤◌};

use crate::fault::FileKind;
use crate::{MAX_FILE_BYTES, MAX_JOURNAL_BYTES, MAX_RAISES, MAX_SCENARIOS_BYTES};
use clr_net::{MAX_BANKS, MAX_DEBTS, MAX_OWED};

/// How large a network and its files may be. Both have the same limits on one bank, one debt and
/// the scenarios.
#[derive(Clone, Copy, Debug, PartialEq, Eq)]
pub enum Limits {
    /// Up to 1,000 banks, 20,000 debts and 10,000,000 units owed.
    Standard,
    /// Up to 10,000 banks, 1,000,000 debts and 25,000,000 units owed, which is all that a network
    /// can have.
    Wide,
}

impl Limits {
    /// The limits that a word names.
    pub fn named(word: &str) -> Option<Limits>
        ensures { result ≡ limits_named word.now }
    {
        match word {
            "standard" => Some(Limits::Standard),
            "wide" => Some(Limits::Wide),
            _ => None,
        }
    }

    /// The most banks, which is no more than a network may have.
    pub fn banks(self) -> u32
        ensures most { result ≡ most_banks self }
        ensures allowed { result ≤ MAX_BANKS }
    {
        match self {
            Limits::Standard => 1_000,
            Limits::Wide => MAX_BANKS,
        }
    }

    /// The most debts, which is no more than a network may have.
    pub fn debts(self) -> u32
        ensures most { result ≡ most_debts self }
        ensures allowed { result ≤ MAX_DEBTS }
    {
        match self {
            Limits::Standard => 20_000,
            Limits::Wide => MAX_DEBTS,
        }
    }

    /// The most units of all claims together, which is no more than in a network.
    pub fn owed(self) -> u64
        ensures most { result ≡ most_owed self }
        ensures allowed { result ≤ MAX_OWED }
    {
        match self {
            Limits::Standard => 10_000_000,
            Limits::Wide => MAX_OWED,
        }
    }

    /// The most raises of a journal: as many as units may be owed, since each raises by a unit at
    /// least.
    pub fn raises(self) -> usize
        ensures most { result ≡ most_raises self }
        ensures allowed { result ≤ MAX_RAISES }
    {
        match self {
            Limits::Standard => 10_000_000,
            Limits::Wide => MAX_RAISES,
        }
    }

    /// The most bytes of a file. The words of a command line are no file: 0.
    pub fn bytes(self, file: FileKind) -> u64
        ensures { result ≡ file_limit self file }
    {
        match (self, file) {
            (Limits::Standard, FileKind::Banks | FileKind::Debts) => 8_388_608,
            (Limits::Wide, FileKind::Banks | FileKind::Debts) => MAX_FILE_BYTES,
            (_, FileKind::Scenarios) => MAX_SCENARIOS_BYTES,
            (Limits::Standard, FileKind::Journal) => 1_600_000_000,
            (Limits::Wide, FileKind::Journal) => MAX_JOURNAL_BYTES,
            (_, FileKind::Words) => 0,
        }
    }
}
