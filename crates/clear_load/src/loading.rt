//! What a job works on, from its files. Each file's size is looked at before the next file is
//! fetched, and all files are fetched before the first is read.
ghost use Rattle.clear_load.specs.Loading.{Gives, GivesBoth, GivesWhole, Stops, StopsFetch};
ghost use Rattle.clear_load.specs.Loading.{on_shelf};
ghost use Rattle.clear_load.specs.Reading.{alone};
ghost use Rattle.clear_load.specs.Sources.{has_files, source_of, third_kind};
ghost use Rattle.clear_load.specs.declared.source.Source.{Source};
ghost use Rattle.clear_load.specs.declared.fault.LoadFault.{LoadFault};
ghost use Rattle.clear_words.specs.Limits.{IsJob};
ghost use Rattle.clr_edge.specs.Faults.{NoneFalls};
ghost use Rattle.net_gen.specs.Generated.{generated};
ghost use Rattle.std.specs.Prelude.{◌≡◌, ◌<◌, ◌≤◌, All, IfOk, IfErr, Ok, Some, length, true};
ghost use Rattle.stress.specs.Shocks.{IsScenarioOf};
ghost use Rattle.stress.specs.declared.TheConstants.{MAX_SCENARIOS};

use crate::fault::LoadFault;
use clear_core::Journal;
use clear_words::Job;
use clr_edge::{FetchFault, Shelf};
use clr_net::{BankId, Network};
use net_check::{Fault, FaultKind, FileKind, Limits};
use net_csv::read_network_within;
use net_gen::generate;
use raise_journal::read_journal_within;
use std::alloc::Global;
use stress::{Scenario, read_scenarios};

/// The network that the numbers of a job make. It takes no file, and so an `Err` is want of memory.
pub fn load_generated(alloc: Global, job: &Job) -> Result<Network, LoadFault>
    requires job { IsJob job.now }
    requires generated { source_of job.now.task ≡ Source.Generated }
    ensures input { IfOk result (λ net.
        net ≡ generated job.now.seed job.now.size job.now.tries) }
    ensures stopped { IfErr result (λ why. why ≡ LoadFault.Mem) }
{
    Ok(generate(alloc, job.seed, job.size, job.tries)?)
}

/// The network of both files of a job. An `Err` says why the files give nothing to work on: one
/// cannot be read, one has a fault, of which the first is told, or memory is wanting. So it is
/// below.
pub fn load_network<F: Shelf>(alloc: Global, job: &Job, files: &mut F) -> Result<Network, LoadFault>
    requires { source_of job.now.task ≡ Source.Files }
    ensures files { F.files files.new ≡ F.files files.old }
    ensures input { IfOk result (λ net. Gives (F.files files.old) job.now (Ok (alone net))) }
    ensures stopped { IfErr result (Stops (on_shelf F.files F.faults files.old files.new) job.now) }
{
    let (banks, debts) = fetch_both(alloc, job, files)?;
    Ok(read_network_within(alloc, job.limits, banks.as_slice(), debts.as_slice())?)
}

/// The network of both files, and the scenarios of the third, each of which is of the network.
pub fn load_scenarios<F: Shelf>(
    alloc: Global,
    job: &Job,
    files: &mut F,
) -> Result<(Network, Vec<Scenario>), LoadFault>
    requires { source_of job.now.task ≡ Source.FilesAndScenarios }
    ensures files { F.files files.new ≡ F.files files.old }
    ensures input { IfOk result (λ read. Gives (F.files files.old) job.now
        (Ok (record (alone read.0) { scenarios = read.1.items }))) }
    ensures of_net { IfOk result (λ read. All (IsScenarioOf read.0) read.1.items) }
    ensures scenarios_in_limit { IfOk result (λ read. length read.1.items ≤ MAX_SCENARIOS) }
    ensures stopped { IfErr result (Stops (on_shelf F.files F.faults files.old files.new) job.now) }
{
    let (banks, debts, third) = fetch_all(alloc, job, FileKind::Scenarios, files)?;
    let net = read_network_within(alloc, job.limits, banks.as_slice(), debts.as_slice())?;
    let scenarios = read_scenarios(alloc, &net, third.as_slice())?;
    Ok((net, scenarios))
}

/// The network of both files, and the journal of the third, whose raises are of its debts.
pub fn load_journal<F: Shelf>(
    alloc: Global,
    job: &Job,
    files: &mut F,
) -> Result<(Network, Journal), LoadFault>
    requires { source_of job.now.task ≡ Source.FilesAndJournal }
    ensures files { F.files files.new ≡ F.files files.old }
    ensures input { IfOk result (λ read. Gives (F.files files.old) job.now
        (Ok (record (alone read.0) { journal = read.1.raises }))) }
    ensures of_net { IfOk result (λ read.
        All (λ r. r.debt.0 < length read.0.debts) read.1.raises) }
    ensures stopped { IfErr result (Stops (on_shelf F.files F.faults files.old files.new) job.now) }
{
    let (banks, debts, third) = fetch_all(alloc, job, FileKind::Journal, files)?;
    let net = read_network_within(alloc, job.limits, banks.as_slice(), debts.as_slice())?;
    let journal = read_journal_within(alloc, job.limits, &net, third.as_slice())?;
    Ok((net, journal))
}

/// The network of both files, and the bank of it that the words name.
pub fn load_bank<F: Shelf>(
    alloc: Global,
    job: &Job,
    files: &mut F,
) -> Result<(Network, BankId), LoadFault>
    requires { source_of job.now.task ≡ Source.FilesAndBank }
    ensures files { F.files files.new ≡ F.files files.old }
    ensures input { IfOk result (λ read. Gives (F.files files.old) job.now
        (Ok (record (alone read.0) { bank = read.1.0 }))) }
    ensures of_net { IfOk result (λ read. read.1.0 < length read.0.banks) }
    ensures stopped { IfErr result (Stops (on_shelf F.files F.faults files.old files.new) job.now) }
{
    let (banks, debts) = fetch_both(alloc, job, files)?;
    let net = read_network_within(alloc, job.limits, banks.as_slice(), debts.as_slice())?;
    match net.bank_named(job.bank.as_str().as_bytes()) {
        Some(bank) => Ok((net, bank)),
        None => Err(LoadFault::Refused(Fault {
            file: FileKind::Words,
            row: 0,
            kind: FaultKind::UnknownBank,
        })),
    }
}

// The banks file and the debts file of a job.
fn fetch_both<F: Shelf>(
    alloc: Global,
    job: &Job,
    files: &mut F,
) -> Result<(Vec<u8>, Vec<u8>), LoadFault>
    requires { has_files (source_of job.now.task) ≡ true }
    ensures files { F.files files.new ≡ F.files files.old }
    ensures faults { NoneFalls (F.faults files.old) (F.faults files.new) }
    ensures both { IfOk result (λ both.
        GivesBoth (F.files files.old) job.now both.0.items both.1.items) }
    ensures stopped { IfErr result (Stops (on_shelf F.files F.faults files.old files.new) job.now) }
{
    let by = job.limits;
    let banks = fetch_whole(alloc, by, files, FileKind::Banks, job.banks.as_str())?;
    let debts = fetch_whole(alloc, by, files, FileKind::Debts, job.debts.as_str())?;
    Ok((banks, debts))
}

// The banks file, the debts file and the third file of a job.
fn fetch_all<F: Shelf>(
    alloc: Global,
    job: &Job,
    kind: FileKind,
    files: &mut F,
) -> Result<(Vec<u8>, Vec<u8>, Vec<u8>), LoadFault>
    requires { third_kind (source_of job.now.task) ≡ Some kind }
    ensures files { F.files files.new ≡ F.files files.old }
    ensures both { IfOk result (λ all.
        GivesBoth (F.files files.old) job.now all.0.items all.1.items) }
    ensures third { IfOk result (λ all.
        GivesWhole job.now.limits (F.files files.old) kind job.now.third (Ok all.2.items)) }
    ensures stopped { IfErr result (Stops (on_shelf F.files F.faults files.old files.new) job.now) }
{
    let (banks, debts) = fetch_both(alloc, job, files)?;
    let third = fetch_whole(alloc, job.limits, files, kind, job.third.as_str())?;
    Ok((banks, debts, third))
}

// The bytes of a file, which are no more than a file of its kind may have by these limits.
fn fetch_whole<F: Shelf>(
    alloc: Global,
    by: Limits,
    files: &mut F,
    kind: FileKind,
    name: &str,
) -> Result<Vec<u8>, LoadFault>
    ensures files { F.files files.new ≡ F.files files.old }
    ensures faults { NoneFalls (F.faults files.old) (F.faults files.new) }
    ensures file { IfOk result (λ bytes.
        GivesWhole by (F.files files.old) kind name.now (Ok bytes.items)) }
    ensures stopped { IfErr result
        (StopsFetch by (on_shelf F.files F.faults files.old files.new) kind name.now) }
{
    let limit = by.bytes(kind);
    match files.fetch(alloc, name, limit) {
        Ok(bytes) if bytes.len() as u64 <= limit => Ok(bytes),
        Ok(_) => Err(LoadFault::Refused(Fault {
            file: kind,
            row: 0,
            kind: FaultKind::FileSize,
        })),
        Err(FetchFault::Failed) => Err(LoadFault::Unread(kind)),
        Err(FetchFault::Mem) => Err(LoadFault::Mem),
    }
}
