//! What is printed of the networks that a run works on is read back as these networks. A law has
//! nothing to run; its `ensures` is proved.
ghost use Rattle.clear_load.specs.Reading.{IsReadBack};
ghost use Rattle.clr_net.specs.Limits.{IsNetwork};
ghost use Rattle.clr_net.specs.Net.{Net};
ghost use Rattle.net_check.specs.Within.{IsWithin};
ghost use Rattle.net_check.specs.declared.limits.Limits.{Limits};
ghost use Rattle.net_csv.specs.Printing.{KeepsNames};
ghost use Rattle.net_csv.specs.Reading.{network_within};
ghost use Rattle.net_gen.specs.Generated.{generated};
ghost use Rattle.net_gen.specs.declared.TheConstants.{MOST_BANKS, MOST_TRIES};
ghost use Rattle.std.specs.Prelude.{◌≡◌, ◌≤◌, ℕ, List, Ok};
ghost use Rattle.stress.specs.Shocks.{shocked};
ghost use Rattle.stress.specs.declared.scenario.Scenario.{Scenario};

/// What is printed of the network that a scenario leaves is read back as that network by each
/// limits that the network is within, where no name begins or ends with a space.
pub fn a_shocked_network_is_read_back()
    ensures { (by : Limits) (net : Net) (s : Scenario) → IsNetwork net → IsWithin by net
        → KeepsNames net → IsReadBack by (shocked net s) }
{}

/// So it is, whatever the scenario, of every network that is read from files, by the limits by
/// which it is read.
pub fn a_shock_of_what_is_read_is_read_back()
    ensures { (by : Limits) (banks debts : List ℕ) (net : Net) (s : Scenario)
        → network_within by banks debts ≡ Ok net → IsReadBack by (shocked net s) }
{}

/// What is printed of a generated network is read back as that network, by either limits.
pub fn a_generated_network_is_read_back()
    ensures { (by : Limits) (seed size tries : ℕ) → 1 ≤ size → size ≤ MOST_BANKS
        → tries ≤ MOST_TRIES → IsReadBack by (generated seed size tries) }
{}
