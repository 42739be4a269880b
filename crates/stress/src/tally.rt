//! How often each bank falls in many scenarios.
ghost use Rattle.std.specs.Prelude.{◌≡◌, ◌≤◌, [], IfOk, length};
ghost use Rattle.stress.specs.Outcomes.{AreWithin, added, both as both_of, once as once_of};
ghost use Rattle.stress.specs.Outcomes.{tally as tally_of, tally_of_one};
ghost use Rattle.stress.specs.declared.TheConstants.{MAX_SCENARIOS};

use cascade::{Health, Standing};
use clr_net::{Mem, Network};
use std::alloc::Global;
use std::marker::Model;

/// In how many scenarios a bank falls.
#[derive(Clone, Copy, Debug, PartialEq, Eq)]
pub struct Falls {
    /// In how many it is in default.
    pub defaults: u32,
    /// In how many of these by its own fundamentals.
    pub fundamental: u32,
}

/// In how many scenarios each bank falls: a place for each bank, in file order. Contracts see it as
/// a list.
#[derive(Drop)]
pub struct Tally {
    falls: Vec<Falls>,
}

impl Model for Tally {
    ghost use Rattle.std.specs.Prelude.{List};
    ghost use Rattle.stress.specs.declared.tally.Falls.{Falls};

    ghost Value = { List Falls };

    ghost view = { λ tally. tally.falls.items };
}

impl Tally {
    /// The tally of no scenario. `Mem` for want of memory alone.
    pub fn empty(alloc: Global, net: &Network) -> Result<Tally, Mem>
        ensures { IfOk result (λ tally. tally ≡ tally_of net.now []) }
    {
        let never = Falls {
            defaults: 0,
            fundamental: 0,
        };
        Ok(Tally {
            falls: vec![in alloc; never; net.banks() as usize]?,
        })
    }

    /// Counts one scenario more, in which the banks stand so. `standings` has one a bank, in file
    /// order. Takes no memory.
    pub fn note(&mut self, standings: &[Standing])
        requires over { length standings.now ≡ length self.old }
        requires fits { AreWithin MAX_SCENARIOS self.old }
        ensures { self.new ≡ added self.old (tally_of_one standings.now) }
    {
        note_each(self.falls.as_mut_slice(), standings);
    }

    /// Adds what was counted of other scenarios. Takes no memory.
    pub fn add(&mut self, other: &Tally)
        requires over { length other.now ≡ length self.old }
        requires fits { AreWithin MAX_SCENARIOS self.old }
        requires others_fit { AreWithin MAX_SCENARIOS other.now }
        ensures { self.new ≡ added self.old other.now }
    {
        add_each(self.falls.as_mut_slice(), other.as_slice());
    }

    /// The falls of each bank, in file order.
    pub fn as_slice(&self) -> &[Falls]
        ensures { result.now ≡ self.now }
    {
        self.falls.as_slice()
    }
}

// Counts how each bank stands in one scenario more.
fn note_each(falls: &mut [Falls], standings: &[Standing])
    requires over { length standings.now ≡ length falls.old }
    requires fits { AreWithin MAX_SCENARIOS falls.old }
    ensures { falls.new ≡ added falls.old (tally_of_one standings.now) }
{
    for (place, standing) in standings.iter().enumerate() {
        falls[place] = both(falls[place], once(standing.health));
    }
}

// Adds the falls of each bank in other scenarios.
fn add_each(falls: &mut [Falls], others: &[Falls])
    requires over { length others.now ≡ length falls.old }
    requires fits { AreWithin MAX_SCENARIOS falls.old }
    requires others_fit { AreWithin MAX_SCENARIOS others.now }
    ensures { falls.new ≡ added falls.old others.now }
{
    for (place, more) in others.iter().enumerate() {
        falls[place] = both(falls[place], *more);
    }
}

// The falls of a bank in one scenario, in which it stands so.
fn once(health: Health) -> Falls
    ensures falls { result ≡ once_of health }
    ensures few { (result.defaults ≤ MAX_SCENARIOS) × (result.fundamental ≤ MAX_SCENARIOS) }
{
    Falls {
        defaults: u32::from(health != Health::Sound),
        fundamental: u32::from(health == Health::Fundamental),
    }
}

// Both together.
fn both(a: Falls, b: Falls) -> Falls
    requires a { (a.defaults ≤ MAX_SCENARIOS) × (a.fundamental ≤ MAX_SCENARIOS) }
    requires b { (b.defaults ≤ MAX_SCENARIOS) × (b.fundamental ≤ MAX_SCENARIOS) }
    ensures { result ≡ both_of a b }
{
    Falls {
        defaults: a.defaults + b.defaults,
        fundamental: a.fundamental + b.fundamental,
    }
}
