ghost use Rattle.net_check.specs.Record.{fault_at};
ghost use Rattle.net_check.specs.declared.TheConstants.{MAX_SCENARIOS_BYTES};
ghost use Rattle.net_check.specs.declared.fault.Fault.{Fault};
ghost use Rattle.net_check.specs.declared.fault.FaultKind.{FaultKind};
ghost use Rattle.net_check.specs.declared.fault.FaultKind.TheVariants as kind;
ghost use Rattle.net_check.specs.declared.fault.FileKind.TheVariants as file;
ghost use Rattle.std.specs.Prelude.{◌≡◌, ◌<◌, ◌≤◌, [], Ok, Err, IfOk, IsErrOf, length};
ghost use Rattle.std.specs.List.{All};
ghost use Rattle.stress.specs.Reading.{fault_in, head_in, loss_in, named_cut};
ghost use Rattle.stress.specs.Reading.{read_all as read_all_of, read_losses as read_losses_of};
ghost use Rattle.stress.specs.Reading.{scenario_in, scenario_in_row as scenario_in_row_of};
ghost use Rattle.stress.specs.Reading.{scenarios_in, scenarios_of};
ghost use Rattle.stress.specs.Shocks.{HasLossesInLimit, IsScenarioOf};
ghost use Rattle.stress.specs.Views.{parts_seen};
ghost use Rattle.toml.specs.View.{items_view, table_view, view};

use crate::document::{document_of, fault};
use crate::scenario::{Loss, Losses, Scenario};
use crate::shape::{Parts, has_only, loss_parts, parts_of, up_to};
use crate::{MAX_CUT, MAX_LOSS, MAX_SCENARIOS};
use clr_net::{Name, Network};
use net_check::{FaultKind, MAX_SCENARIOS_BYTES, ReadNet};
use std::alloc::Global;
use toml::{Table, Value};

/// The scenarios of a TOML document, in file order, each of which may be given to `shocked`. A
/// document of no bytes has none.
///
/// `Refused` names the first fault: in the row of its scenario, counted from 1, or in row 0 where
/// it is one of the whole document. `Mem` for want of memory alone. Costs a walk over the document,
/// and for each loss one over those before it in its scenario, of which each bank has at most one.
pub fn read_scenarios(alloc: Global, net: &Network, bytes: &[u8]) -> Result<Vec<Scenario>, ReadNet>
    ensures read { IfOk result (λ all. scenarios_of net.now bytes.now ≡ Ok all.items) }
    ensures refused { (f : Fault) → IsErrOf result (ReadNet.Refused f)
        → scenarios_of net.now bytes.now ≡ Err f }
    ensures size { MAX_SCENARIOS_BYTES < length bytes.now
        → IsErrOf result (ReadNet.Refused (fault_at file.Scenarios 0 kind.FileSize)) }
    ensures lawful { IfOk result (λ all. All (IsScenarioOf net.now) all.items) }
    ensures in_limit { IfOk result (λ all. All HasLossesInLimit all.items) }
    ensures scenarios_in_limit { IfOk result (λ all. length all.items ≤ MAX_SCENARIOS) }
{
    if bytes.len() as u64 > MAX_SCENARIOS_BYTES {
        return Err(ReadNet::Refused(fault(0, FaultKind::FileSize)));
    }
    let document = document_of(alloc, bytes)?;
    read_document(alloc, net, &document)
}

// The scenarios of a document.
fn read_document(alloc: Global, net: &Network, document: &Table) -> Result<Vec<Scenario>, ReadNet>
    ensures read { IfOk result (λ all.
        scenarios_in net.now (table_view document.now) ≡ Ok all.items) }
    ensures refused { (f : Fault) → IsErrOf result (ReadNet.Refused f)
        → scenarios_in net.now (table_view document.now) ≡ Err f }
{
    if !has_only(document, &["scenario"]) {
        return Err(ReadNet::Refused(fault(0, FaultKind::Shape)));
    }
    match document.get("scenario") {
        Some(value) => match value.as_array() {
            Some(items) => read_all(alloc, net, items.as_slice()),
            None => Err(ReadNet::Refused(fault(0, FaultKind::Shape))),
        },
        None => Ok(Vec::new(alloc)),
    }
}

// The scenarios that these values are.
fn read_all(alloc: Global, net: &Network, values: &[Value]) -> Result<Vec<Scenario>, ReadNet>
    ensures read { IfOk result (λ all.
        read_all_of net.now [] (items_view values.now) ≡ Ok all.items) }
    ensures refused { (f : Fault) → IsErrOf result (ReadNet.Refused f)
        → read_all_of net.now [] (items_view values.now) ≡ Err f }
{
    let mut all = Vec::new(alloc);
    'values: for value in values {
        if all.len() >= MAX_SCENARIOS {
            let row = all.len() as u32 + 1;
            return Err(ReadNet::Refused(fault(row, FaultKind::TooMany)));
        }
        let scenario = scenario_in_row(alloc, net, all.len() as u32 + 1, value)?;
        if all.push(scenario).is_err() {
            return Err(ReadNet::Mem);
        }
    }
    Ok(all)
}

// Why a value gives no scenario.
#[derive(Clone, Copy)]
enum Stop {
    Fault(FaultKind),
    Mem,
}

// The scenario of this row.
fn scenario_in_row(
    alloc: Global,
    net: &Network,
    row: u32,
    value: &Value,
) -> Result<Scenario, ReadNet>
    ensures read { IfOk result (λ s. scenario_in_row_of net.now row (view value.now) ≡ Ok s) }
    ensures refused { (f : Fault) → IsErrOf result (ReadNet.Refused f)
        → scenario_in_row_of net.now row (view value.now) ≡ Err f }
    ensures head { (k : FaultKind) → head_in (view value.now) ≡ Err k
        → IsErrOf result (ReadNet.Refused (fault_in row k)) }
{
    match scenario_from(alloc, net, value) {
        Ok(scenario) => Ok(scenario),
        Err(Stop::Fault(kind)) => Err(ReadNet::Refused(fault(row, kind))),
        Err(Stop::Mem) => Err(ReadNet::Mem),
    }
}

// The scenario that a value is. Faults of its shape, its name and its cut are found before memory
// is taken.
fn scenario_from(alloc: Global, net: &Network, value: &Value) -> Result<Scenario, Stop>
    ensures read { IfOk result (λ s. scenario_in net.now (view value.now) ≡ Ok s) }
    ensures refused { (k : FaultKind) → IsErrOf result (Stop.Fault k)
        → scenario_in net.now (view value.now) ≡ Err k }
    ensures head { (k : FaultKind) → head_in (view value.now) ≡ Err k
        → IsErrOf result (Stop.Fault k) }
{
    let Some(parts) = parts_of(value) else {
        return Err(Stop::Fault(FaultKind::Shape));
    };
    let cut = match cut_of(parts) {
        Ok(cut) => cut,
        Err(kind) => return Err(Stop::Fault(kind)),
    };
    let Ok(name) = Name::of(alloc, parts.name.as_bytes()) else {
        return Err(Stop::Mem);
    };
    let losses = read_losses(alloc, net, parts.losses)?;
    Ok(Scenario { name, cut, losses })
}

// The cut of a scenario, whose name is judged before it. Takes no memory.
fn cut_of(parts: Parts<'_>) -> Result<u32, FaultKind>
    ensures { result ≡ named_cut (parts_seen parts.entry) }
{
    if !Name::accepts(parts.name.as_bytes()) {
        return Err(FaultKind::Name);
    }
    match up_to(MAX_CUT, parts.cut) {
        Some(cut) => Ok(cut as u32),
        None => Err(FaultKind::Limit),
    }
}

// The losses that these values are.
fn read_losses(alloc: Global, net: &Network, values: &[Value]) -> Result<Losses, Stop>
    ensures read { IfOk result (λ all. read_losses_of net.now [] (items_view values.now) ≡ Ok all) }
    ensures refused { (k : FaultKind) → IsErrOf result (Stop.Fault k)
        → read_losses_of net.now [] (items_view values.now) ≡ Err k }
{
    let mut all = Losses::empty(alloc);
    'values: for value in values {
        match loss_from(net, &all, value) {
            Ok(loss) => {
                if all.push(loss).is_err() {
                    return Err(Stop::Mem);
                }
            }
            Err(kind) => return Err(Stop::Fault(kind)),
        }
    }
    Ok(all)
}

// The loss that a value is, after these.
fn loss_from(net: &Network, before: &Losses, value: &Value) -> Result<Loss, FaultKind>
    ensures { result ≡ loss_in net.now before.now (view value.now) }
{
    let Some((bank, amount)) = loss_parts(value) else {
        return Err(FaultKind::Shape);
    };
    let Some(bank) = net.bank_named(bank.as_bytes()) else {
        return Err(FaultKind::UnknownBank);
    };
    if before.has_bank(bank) {
        return Err(FaultKind::DoubleBank);
    }
    let Some(amount) = up_to(MAX_LOSS, amount) else {
        return Err(FaultKind::Limit);
    };
    Ok(Loss { bank, amount })
}
