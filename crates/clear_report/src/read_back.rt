//! What the text of compressed claims is to a reader. A law has nothing to run; its `ensures` is
//! proved.
ghost use Rattle.clear_report.specs.Compression.{claims_text};
ghost use Rattle.clr_net.specs.Amounts.{IsAtMost};
ghost use Rattle.clr_net.specs.Claims.{all_claims, with_claims};
ghost use Rattle.clr_net.specs.Limits.{IsNetwork};
ghost use Rattle.clr_net.specs.Net.{Net};
ghost use Rattle.net_check.specs.Within.{IsWithin};
ghost use Rattle.net_check.specs.declared.limits.Limits.{Limits};
ghost use Rattle.net_csv.specs.Printing.{KeepsNames, banks_text, debts_text};
ghost use Rattle.net_csv.specs.Reading.{network_within};
ghost use Rattle.std.specs.Prelude.{◌≡◌, ℕ, List, Ok, length};

/// The claims are written as the debts file of the network with these claims.
pub fn claims_are_a_debts_file()
    ensures { (net : Net) (C : List ℕ) → length C ≡ length net.debts
        → claims_text net C ≡ debts_text (with_claims net C) }
{}

/// So, beside the network's own banks file, they are read as that network, where no claim was
/// raised and no name begins or ends with a space, by any limits that the network is within.
pub fn claims_are_read_back()
    ensures { (by : Limits) (net : Net) (C : List ℕ) → IsNetwork net → IsWithin by net
        → KeepsNames net → length C ≡ length net.debts → IsAtMost C (all_claims net)
        → network_within by (banks_text net) (claims_text net C) ≡ Ok (with_claims net C) }
{}
