//! Laws on what is printed and read back, and on journals that are read, at the chain.
ghost use Rattle.clear_core.specs.Clearing.{least};
ghost use Rattle.clr_net.specs.Samples.{chain};
ghost use Rattle.law_tests.specs.Nets.{two_ordered};
ghost use Rattle.net_csv.specs.Printing.{banks_text, debts_text};
ghost use Rattle.net_csv.specs.Reading.{network_of};
ghost use Rattle.raise_journal.specs.ReadJournal.{journal_of};
ghost use Rattle.raise_journal.specs.Texts.{journal_text};
ghost use Rattle.raise_journal.specs.Verdicts.{judged};
ghost use Rattle.std.specs.Prelude.{◌≡◌, Ok};

use crate::networks::chain_is_network;

// What is printed of a network is read back as that network.
pub fn chain_is_read_back()
    ensures { network_of (banks_text chain) (debts_text chain) ≡ Ok chain }
{
    chain_is_network();
    net_csv::laws::printing_is_read_back();
}

// And so a journal.
pub fn journal_is_read_back()
    ensures { journal_of chain (journal_text chain two_ordered) ≡ Ok two_ordered }
{
    chain_is_network();
    raise_journal::laws::printed_journals_are_read_back();
}

// A lawful journal that leaves nothing to raise pays the least.
pub fn lawful_pays_the_least()
    ensures { (judged chain two_ordered).paid ≡ least chain }
{
    chain_is_network();
    raise_journal::laws::lawful_journals_pay_the_least();
}
