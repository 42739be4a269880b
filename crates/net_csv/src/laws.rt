//! The laws of reading. A law has nothing to run; its `ensures` is proved.
ghost use Rattle.clr_net.specs.Limits.{IsNetwork};
ghost use Rattle.clr_net.specs.Net.{Net};
ghost use Rattle.net_check.specs.Within.{IsWithin};
ghost use Rattle.net_check.specs.declared.limits.Limits.{Limits};
ghost use Rattle.net_csv.specs.Printing.{KeepsNames, banks_text, banks_text_2, debts_text};
ghost use Rattle.net_csv.specs.Reading.{network_within};
ghost use Rattle.std.specs.Prelude.{◌≡◌, ℕ, List, Ok};

/// What is read from two files is a network within the limits by which they are read, and each of
/// its banks and debts is as it must be.
pub fn reading_gives_a_network()
    ensures network { (by : Limits) (banks debts : List ℕ) (net : Net)
        → network_within by banks debts ≡ Ok net → IsNetwork net }
    ensures within { (by : Limits) (banks debts : List ℕ) (net : Net)
        → network_within by banks debts ≡ Ok net → IsWithin by net }
{}

/// What is printed of a network is read back as the same network, where no name begins or ends with
/// a space, by any limits that the network is within.
pub fn printing_is_read_back()
    ensures { (by : Limits) (net : Net) → IsNetwork net → IsWithin by net → KeepsNames net
        → network_within by (banks_text net) (debts_text net) ≡ Ok net }
{}

/// The banks file in version 2 stands for any banks file: with the same debts it is read as the
/// same network.
pub fn conversion_is_read_back()
    ensures { (by : Limits) (banks debts : List ℕ) (net : Net)
        → network_within by banks debts ≡ Ok net
        → network_within by (banks_text_2 net) debts ≡ Ok net }
{}
