ghost use Rattle.net_check.specs.declared.fault.Fault.{Fault};
ghost use Rattle.net_check.specs.declared.fault.FaultKind.TheVariants as kind;
ghost use Rattle.std.specs.Prelude.{◌≡◌, None, Some, IfOk, IsErrOf};
ghost use Rattle.stress.specs.Reading.{document_of as document_in, fault_in};
ghost use Rattle.toml.specs.View.{table_view};

use net_check::{Fault, FaultKind, FileKind, ReadNet};
use std::alloc::Global;
use toml::Table;

/// The table that a document is. The reader's want of memory is no fault of the document.
pub(crate) fn document_of(alloc: Global, bytes: &[u8]) -> Result<Table, ReadNet>
    ensures ok { IfOk result (λ table. document_in bytes.now ≡ Some (table_view table)) }
    ensures refused { (f : Fault) → IsErrOf result (ReadNet.Refused f)
        → (fault_in 0 kind.Toml ≡ f) × (document_in bytes.now ≡ None) }
{
    let Ok(text) = std::str::from_utf8(bytes) else {
        return Err(ReadNet::Refused(fault(0, FaultKind::Toml)));
    };
    match toml::table_from_str(alloc, text) {
        Ok(table) => Ok(table),
        Err(error) => {
            if error.is_memory() {
                Err(ReadNet::Mem)
            } else {
                Err(ReadNet::Refused(fault(0, FaultKind::Toml)))
            }
        }
    }
}

/// A fault of the scenario of this number, counted from 1, or of the document, which is row 0.
pub(crate) fn fault(row: u32, kind: FaultKind) -> Fault
    ensures { result ≡ fault_in row kind }
{
    Fault {
        file: FileKind::Scenarios,
        row,
        kind,
    }
}
