ghost use Rattle.clap.specs.Words.{first_of, found_of, matches_of, rows_of};
ghost use Rattle.clear_words.specs.Command.{command as the_command, is_taken};
ghost use Rattle.clear_words.specs.Job.{is_welcome, is_well, job_in, job_of, job_on, number_of, number_or};
ghost use Rattle.clear_words.specs.Job.{limits_in, show_in, task_in, text_in, the_words, third_in};
ghost use Rattle.clear_words.specs.Limits.{IsJob};
ghost use Rattle.clear_words.specs.Options.{all_options, greatest, kind_of};
ghost use Rattle.std.specs.List.{list_all};
ghost use Rattle.std.specs.Option.{option_map};
ghost use Rattle.std.specs.Prelude.{◌≡◌, ◌≤◌, IfOk, IsErrOf, None, Some, false, max, true};

use crate::command::{TASK, command};
use crate::fault::WordsFault;
use crate::file_name::FileName;
use crate::option::{JobOption, Kind, OPTIONS, number_within};
use crate::show::Show;
use crate::task::{Task, Use, Uses};
use clap::ArgMatches;
use clr_net::Mem;
use net_check::Limits;
use std::alloc::Global;

/// What the program is to do, and what to do it on.
///
/// A number that the task does not use is 0, but for the workers and the sweeps.
#[derive(Drop)]
pub struct Job {
    /// The task.
    pub task: Task,
    /// The name of the banks file, empty where the task has none.
    pub banks: FileName,
    /// The name of the debts file, empty where the task has none.
    pub debts: FileName,
    /// The name of the third file, the scenarios or the journal, empty where the task has none.
    pub third: FileName,
    /// The name of the bank that is to be saved, empty where the task has none.
    pub bank: FileName,
    /// How many workers carry the task out, 1 to 64; 4 where none are told.
    pub workers: u32,
    /// How many sweeps a round has, 1 to 1000; 1 where none are told.
    pub sweeps: u32,
    /// What is shown of the clearing; the payments where nothing is told.
    pub show: Show,
    /// The seed of the network to be generated.
    pub seed: u64,
    /// How many banks are to be generated, 1 to 1000.
    pub size: u32,
    /// How often a debt is to be drawn, at most 20000 times.
    pub tries: u32,
    /// What is kept of an estate at a default, in thousandths, at most 1000.
    pub keep: u32,
    /// The limits by which the files are read; the standard ones where none are told.
    pub limits: Limits,
}

/// Reads the words after the program's name.
///
/// `Usage` comes exactly where the words are no job, unless memory is wanting.
pub fn read_words(alloc: Global, words: &[&str]) -> Result<Job, WordsFault>
    ensures job { IfOk result (λ job. job_of (the_words words.now) ≡ Some job) }
    ensures usage { IsErrOf result WordsFault.Usage → job_of (the_words words.now) ≡ None }
    ensures limits { IfOk result IsJob }
{
    let matches = matches_in(alloc, words)?;
    Ok(job_among(alloc, &matches)?)
}

// The job in what the command found.
fn job_among(alloc: Global, matches: &ArgMatches) -> Result<Job, WordsFault>
    ensures job { IfOk result (λ job. job_in (rows_of (found_of matches.now)) ≡ Some job) }
    ensures usage { IsErrOf result WordsFault.Usage
        → job_in (rows_of (found_of matches.now)) ≡ None }
{
    let task = task_in(matches).ok_or(WordsFault::Usage)?;
    if !all_well(matches, task.uses()) {
        return Err(WordsFault::Usage);
    }
    Ok(job_from(alloc, matches, task)?)
}

// What the command finds in the words.
fn matches_in<'a>(alloc: Global, words: &'a [&str]) -> Result<ArgMatches<'a>, WordsFault>
    ensures taken { IfOk result (λ m. is_taken (the_words words.now) ≡ true) }
    ensures rows { IfOk result (λ m.
        rows_of (found_of m) ≡ matches_of the_command (the_words words.now)) }
    ensures refused { IsErrOf result WordsFault.Usage → is_taken (the_words words.now) ≡ false }
{
    Ok(command(alloc)?.try_get_matches_from(words)?)
}

// The task in what the command found.
fn task_in(matches: &ArgMatches) -> Option<Task>
    ensures { result ≡ task_in (rows_of (found_of matches.now)) }
{
    Task::named(value(matches, TASK)?)
}

// The value of an argument.
fn value<'a>(matches: &ArgMatches<'a>, name: &str) -> Option<&'a str>
    ensures { option_map (λ value. value.now) result
        ≡ first_of name.now (rows_of (found_of matches.now)) }
{
    matches.get_str(name)
}

// Whether each option is as the task wants it.
fn all_well(matches: &ArgMatches, uses: Uses) -> bool
    ensures { result ≡ list_all (is_well uses (rows_of (found_of matches.now))) all_options }
{
    for option in OPTIONS {
        if !is_welcome(
            uses.of(option),
            option.kind(),
            value(matches, option.name()),
        ) {
            return false;
        }
    }
    true
}

// Whether a value is as a task wants it.
fn is_welcome(wanted: Use, kind: Kind, value: Option<&str>) -> bool
    ensures { result ≡ is_welcome wanted kind (option_map (λ text. text.now) value.entry) }
{
    match value {
        Some(value) => !matches!(wanted, Use::Refused) && kind.fits(value),
        None => !matches!(wanted, Use::Required),
    }
}

// The job of a task on what the command found. Fails for want of memory alone.
fn job_from(alloc: Global, matches: &ArgMatches, task: Task) -> Result<Job, Mem>
    ensures { IfOk result (λ job. job ≡ job_on (rows_of (found_of matches.now)) task) }
{
    Ok(Job {
        task,
        banks: FileName::of(alloc, text_of(matches, JobOption::Banks))?,
        debts: FileName::of(alloc, text_of(matches, JobOption::Debts))?,
        third: FileName::of(alloc, third_of(matches))?,
        bank: FileName::of(alloc, text_of(matches, JobOption::Bank))?,
        workers: number_from(matches, JobOption::Workers, 4) as u32,
        sweeps: number_from(matches, JobOption::Sweeps, 1) as u32,
        show: show_of(matches),
        seed: number_from(matches, JobOption::Seed, 0),
        size: number_from(matches, JobOption::Size, 0) as u32,
        tries: number_from(matches, JobOption::Tries, 0) as u32,
        keep: number_from(matches, JobOption::Keep, 0) as u32,
        limits: limits_of(matches),
    })
}

// The text that an option gives, empty without it.
fn text_of<'a>(matches: &ArgMatches<'a>, option: JobOption) -> &'a str
    ensures { result.now ≡ text_in (rows_of (found_of matches.now)) option }
{
    value(matches, option.name()).unwrap_or("")
}

// The name of the third file: the scenarios or the journal.
fn third_of<'a>(matches: &ArgMatches<'a>) -> &'a str
    ensures { result.now ≡ third_in (rows_of (found_of matches.now)) }
{
    match value(matches, JobOption::Scenarios.name()) {
        Some(name) => name,
        None => text_of(matches, JobOption::Journal),
    }
}

// The number that an option gives, or the other one without it.
fn number_from(matches: &ArgMatches, option: JobOption, otherwise: u64) -> u64
    ensures number { result ≡ number_or otherwise (rows_of (found_of matches.now)) option }
    ensures in_range { result ≤ max otherwise (greatest (kind_of option)) }
{
    match value(matches, option.name()) {
        Some(text) => number_as(option.kind(), text).unwrap_or(otherwise),
        None => otherwise,
    }
}

// The number in a value of this kind.
fn number_as(kind: Kind, text: &str) -> Option<u64>
    ensures { result ≡ number_of kind text.now }
{
    match kind {
        Kind::Number { least, most } => number_within(least, most, text),
        _ => None,
    }
}

// What is shown, the payments without the option.
fn show_of(matches: &ArgMatches) -> Show
    ensures { result ≡ show_in (rows_of (found_of matches.now)) }
{
    match value(matches, JobOption::Show.name()) {
        Some(word) => Show::named(word).unwrap_or(Show::Payments),
        None => Show::Payments,
    }
}

// The limits by which the files are read, the standard ones without the option.
fn limits_of(matches: &ArgMatches) -> Limits
    ensures { result ≡ limits_in (rows_of (found_of matches.now)) }
{
    match value(matches, JobOption::Limits.name()) {
        Some(word) => Limits::named(word).unwrap_or(Limits::Standard),
        None => Limits::Standard,
    }
}
