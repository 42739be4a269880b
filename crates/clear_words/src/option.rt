//! The table of options: the name of each, and what its value must be.
ghost use Rattle.clear_words.specs.Options.{fits, kind_of, name_of, number_between};
ghost use Rattle.std.specs.Prelude.{◌≡◌};

use crate::file_name::may_name_file;
use crate::show::Show;
use clr_net::Name;
use net_check::{Limits, number};

// The options of the command line.
#[derive(Clone, Copy, Debug, PartialEq, Eq)]
pub(crate) enum JobOption {
    Banks,
    Debts,
    Scenarios,
    Journal,
    Bank,
    Workers,
    Sweeps,
    Show,
    Seed,
    Size,
    Tries,
    Keep,
    Limits,
}

// What the value of an option must be.
#[derive(Clone, Copy, Debug, PartialEq, Eq)]
pub(crate) enum Kind {
    // The name of a file.
    File,
    // A number in a range.
    Number { least: u64, most: u64 },
    // A word that says what is shown.
    Show,
    // The name of a bank.
    Bank,
    // A word that names limits.
    Limits,
}

// Every option, in the order in which the command has them.
pub(crate) const OPTIONS: [JobOption; 13] = [
    JobOption::Banks,
    JobOption::Debts,
    JobOption::Scenarios,
    JobOption::Journal,
    JobOption::Bank,
    JobOption::Workers,
    JobOption::Sweeps,
    JobOption::Show,
    JobOption::Seed,
    JobOption::Size,
    JobOption::Tries,
    JobOption::Keep,
    JobOption::Limits,
];

impl JobOption {
    // The name of the option, without its dashes.
    pub(crate) fn name<'a>(self) -> &'a str
        ensures { result.now ≡ name_of self }
    {
        match self {
            JobOption::Banks => "banks",
            JobOption::Debts => "debts",
            JobOption::Scenarios => "scenarios",
            JobOption::Journal => "journal",
            JobOption::Bank => "bank",
            JobOption::Workers => "workers",
            JobOption::Sweeps => "sweeps",
            JobOption::Show => "show",
            JobOption::Seed => "seed",
            JobOption::Size => "size",
            JobOption::Tries => "tries",
            JobOption::Keep => "keep",
            JobOption::Limits => "limits",
        }
    }

    // What its value must be.
    pub(crate) fn kind(self) -> Kind
        ensures { result ≡ kind_of self }
    {
        match self {
            JobOption::Banks => Kind::File,
            JobOption::Debts => Kind::File,
            JobOption::Scenarios => Kind::File,
            JobOption::Journal => Kind::File,
            JobOption::Bank => Kind::Bank,
            JobOption::Workers => Kind::Number { least: 1, most: 64 },
            JobOption::Sweeps => Kind::Number {
                least: 1,
                most: 1000,
            },
            JobOption::Show => Kind::Show,
            JobOption::Seed => Kind::Number {
                least: 0,
                most: 18446744073709551615,
            },
            JobOption::Size => Kind::Number {
                least: 1,
                most: 1000,
            },
            JobOption::Tries => Kind::Number {
                least: 0,
                most: 20000,
            },
            JobOption::Keep => Kind::Number {
                least: 0,
                most: 1000,
            },
            JobOption::Limits => Kind::Limits,
        }
    }
}

impl Kind {
    // Whether a text is a value of this kind.
    pub(crate) fn fits(self, text: &str) -> bool
        ensures { result ≡ fits self text.now }
    {
        match self {
            Kind::File => may_name_file(text),
            Kind::Number { least, most } => number_within(least, most, text).is_some(),
            Kind::Show => Show::named(text).is_some(),
            Kind::Bank => Name::accepts(text.as_bytes()) && may_name_file(text),
            Kind::Limits => Limits::named(text).is_some(),
        }
    }
}

// The number that a text spells, where it is in the range.
pub(crate) fn number_within(least: u64, most: u64, text: &str) -> Option<u64>
    ensures { result ≡ number_between least most text.now }
{
    let number = number(text.as_bytes())?;
    if u128::from(least) <= number && number <= u128::from(most) {
        Some(number as u64)
    } else {
        None
    }
}
