//! What the program does not call, for whoever calls the crate: a network read by the standard limits.
//! The program is told the limits, and calls [`read_network_within`].
ghost use Rattle.clr_net.specs.Limits.{IsNetwork};
ghost use Rattle.net_check.specs.Record.{fault_at};
ghost use Rattle.net_check.specs.Within.{IsWithin, file_limit};
ghost use Rattle.net_check.specs.declared.fault.Fault.{Fault};
ghost use Rattle.net_check.specs.declared.fault.FaultKind.TheVariants as kind;
ghost use Rattle.net_check.specs.declared.fault.FileKind.TheVariants as file;
ghost use Rattle.net_check.specs.declared.limits.Limits.TheVariants as limits;
ghost use Rattle.net_csv.specs.Printing.{banks_text, debts_text};
ghost use Rattle.net_csv.specs.Reading.{network_of};
ghost use Rattle.std.specs.Prelude.{◌≡◌, ◌<◌, ◌≤◌, length, Ok, Err, IfOk, IsErrOf};

use crate::read::read_network_within;
use clr_net::Network;
use net_check::{Limits, ReadNet};
use std::alloc::Global;

/// Reads a network from a banks file, of version 1 or 2, and a debts file, by the standard limits.
///
/// `Refused` names the first fault: of the sizes, then of the banks file, then of the debts file,
/// each record in order. That a file is past its size is always told, whatever memory there is.
/// Costs one pass over each file.
pub fn read_network(alloc: Global, banks: &[u8], debts: &[u8]) -> Result<Network, ReadNet>
    ensures network { IfOk result (λ net. network_of banks.now debts.now ≡ Ok net) }
    ensures refused { (f : Fault) → IsErrOf result (ReadNet.Refused f)
        → network_of banks.now debts.now ≡ Err f }
    ensures banks_size { file_limit limits.Standard file.Banks < length banks.now
        → IsErrOf result (ReadNet.Refused (fault_at file.Banks 0 kind.FileSize)) }
    ensures debts_size { length banks.now ≤ file_limit limits.Standard file.Banks
        → file_limit limits.Standard file.Debts < length debts.now
        → IsErrOf result (ReadNet.Refused (fault_at file.Debts 0 kind.FileSize)) }
    ensures lawful { IfOk result IsNetwork }
    ensures within { IfOk result (IsWithin limits.Standard) }

    // What is printed of the network is read as the same network.
    ensures prints { IfOk result (λ net. network_of (banks_text net) (debts_text net) ≡ Ok net) }
{
    read_network_within(alloc, Limits::Standard, banks, debts)
}
