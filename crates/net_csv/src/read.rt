ghost use Rattle.clr_net.specs.Limits.{IsNetwork};
ghost use Rattle.clr_net.specs.Net.{empty_net};
ghost use Rattle.net_check.specs.Record.{fault_at};
ghost use Rattle.net_check.specs.Within.{IsWithin, file_limit};
ghost use Rattle.net_check.specs.declared.fault.Fault.{Fault};
ghost use Rattle.net_check.specs.declared.fault.FaultKind.TheVariants as kind;
ghost use Rattle.net_check.specs.declared.fault.FileKind.TheVariants as file;
ghost use Rattle.net_csv.specs.Printing.{banks_text, debts_text};
ghost use Rattle.net_csv.specs.Reading.{network_within};
ghost use Rattle.std.specs.Prelude.{◌≡◌, ◌<◌, ◌≤◌, length, Ok, Err, IfOk, OnOk, IsErrOf};

use crate::file::{add_banks, add_debts};
use crate::records::fault;
use clr_net::Network;
use net_check::{FaultKind, FileKind, Limits, ReadNet};
use std::alloc::Global;

/// Reads a network from a banks file, of version 1 or 2, and a debts file, by these limits, on the
/// sizes of the files, the banks, the debts and all claims together.
///
/// `Refused` names the first fault: of the sizes, then of the banks file, then of the debts file,
/// each record in order. That a file is past its size is always told, whatever memory there is.
/// Costs one pass over each file.
pub fn read_network_within(
    alloc: Global,
    by: Limits,
    banks: &[u8],
    debts: &[u8],
) -> Result<Network, ReadNet>
    ensures network { IfOk result (λ net. network_within by banks.now debts.now ≡ Ok net) }
    ensures refused { (f : Fault) → IsErrOf result (ReadNet.Refused f)
        → network_within by banks.now debts.now ≡ Err f }
    ensures banks_size { file_limit by file.Banks < length banks.now
        → IsErrOf result (ReadNet.Refused (fault_at file.Banks 0 kind.FileSize)) }
    ensures debts_size { length banks.now ≤ file_limit by file.Banks
        → file_limit by file.Debts < length debts.now
        → IsErrOf result (ReadNet.Refused (fault_at file.Debts 0 kind.FileSize)) }
    ensures lawful { IfOk result IsNetwork }
    ensures within { IfOk result (IsWithin by) }
    ensures prints { IfOk result
        (λ net. network_within by (banks_text net) (debts_text net) ≡ Ok net) }
{
    let mut net = Network::empty(alloc);
    read_into(alloc, by, banks, debts, &mut net)?;
    Ok(net)
}

// Adds the banks and the debts of two files to a network without any, by these limits.
fn read_into(
    alloc: Global,
    by: Limits,
    banks: &[u8],
    debts: &[u8],
    net: &mut Network,
) -> Result<(), ReadNet>
    requires { net.old ≡ empty_net }
    ensures read { OnOk result (network_within by banks.now debts.now ≡ Ok net.new) }
    ensures refused { (f : Fault) → IsErrOf result (ReadNet.Refused f)
        → network_within by banks.now debts.now ≡ Err f }
    ensures banks_size { file_limit by file.Banks < length banks.now
        → IsErrOf result (ReadNet.Refused (fault_at file.Banks 0 kind.FileSize)) }
    ensures debts_size { length banks.now ≤ file_limit by file.Banks
        → file_limit by file.Debts < length debts.now
        → IsErrOf result (ReadNet.Refused (fault_at file.Debts 0 kind.FileSize)) }
{
    if banks.len() as u64 > by.bytes(FileKind::Banks) {
        return Err(ReadNet::Refused(fault(FileKind::Banks, 0, FaultKind::FileSize)));
    }
    if debts.len() as u64 > by.bytes(FileKind::Debts) {
        return Err(ReadNet::Refused(fault(FileKind::Debts, 0, FaultKind::FileSize)));
    }
    add_banks(alloc, by, banks, net)?;
    add_debts(alloc, by, debts, net)
}
