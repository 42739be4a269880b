ghost use Rattle.clear_core.specs.Buffers.{HasRoom};
ghost use Rattle.clear_core.specs.Clearing.{division_of};
ghost use Rattle.clr_net.specs.Limits.{IsNetwork};
ghost use Rattle.clr_net.specs.Net.{claims_of, classes_of, row as row_of};
ghost use Rattle.std.specs.Prelude.{◌≡◌, ◌<◌, ◌≤◌, IfOk, length, vec_capacity, vec_len};

use clr_net::{BankId, Mem, Network};
use rule_level::share_by_level;
use std::alloc::Global;
use std::marker::Model;

// Buffers in which a row is laid out and divided, so that no division takes memory.
//
// Contracts see the awards of the last division, in units, in file order, and the room: how many
// debts the buffers can hold.
#[derive(Drop)]
pub(crate) struct RowBuffer {
    claims: Vec<u64>,
    classes: Vec<u8>,
    awards: Vec<u64>,
}

impl Model for RowBuffer {
    ghost use Rattle.clear_core.specs.Buffers.{RowDivision};
    ghost use Rattle.std.specs.Prelude.{◌≡◌, vec_capacity};

    ghost Value = { RowDivision };

    ghost view = { λ b. record { awards = b.awards.items; room = vec_capacity b.claims } };

    ghost invariant = { λ b. (vec_capacity b.classes ≡ vec_capacity b.claims)
        × (vec_capacity b.awards ≡ vec_capacity b.claims) };
}

impl RowBuffer {
    // Room for so many debts.
    pub(crate) fn with_room(alloc: Global, room: usize) -> Result<RowBuffer, Mem>
        ensures { IfOk result (λ b. room ≤ b.room) }
    {
        Ok(RowBuffer {
            claims: Vec::with_capacity(alloc, room)?,
            classes: Vec::with_capacity(alloc, room)?,
            awards: Vec::with_capacity(alloc, room)?,
        })
    }

    // Divides so many units among the debts of a bank, by its rule.
    pub(crate) fn divide(&mut self, net: &Network, bank: BankId, units: u64)
        requires network { IsNetwork net.now }
        requires bank { bank.0 < length net.now.banks }
        requires room { HasRoom net.now self.old.room }
        ensures awards { self.new.awards ≡ division_of net.now bank.0 units }
        ensures places { length self.new.awards ≡ length (row_of net.now bank.0) }
        ensures room { self.new.room ≡ self.old.room }
    {
        lay_out_row(net, bank, &mut self.claims, &mut self.classes);
        set_places(&mut self.awards, net.row(bank).len());
        divide_laid_out(
            net,
            bank,
            units,
            self.claims.as_slice(),
            self.classes.as_slice(),
            self.awards.as_mut_slice(),
        );
    }

    // What the last division gave each debt of the row.
    pub(crate) fn awards(&self) -> &[u64]
        ensures { result.now ≡ self.now.awards }
    {
        self.awards.as_slice()
    }
}

/// Lays out the claims, in units, and the classes of the debts that a bank owes, in file order:
/// writes over two lists that have the room for them. Takes no memory.
pub fn lay_out_row(net: &Network, bank: BankId, claims: &mut Vec<u64>, classes: &mut Vec<u8>)
    requires bank { bank.0 < length net.now.banks }
    requires room_for_claims { length (row_of net.now bank.0) ≤ vec_capacity claims.old }
    requires room_for_classes { length (row_of net.now bank.0) ≤ vec_capacity classes.old }
    ensures claims { claims.new.items ≡ claims_of net.now bank.0 }
    ensures classes { classes.new.items ≡ classes_of net.now bank.0 }
    ensures room_of_claims { vec_capacity claims.new ≡ vec_capacity claims.old }
    ensures room_of_classes { vec_capacity classes.new ≡ vec_capacity classes.old }
{
    claims.clear();
    classes.clear();
    for id in net.row(bank) {
        let debt = net.debt(*id);
        claims.push_reserved(debt.claim);
        classes.push_reserved(debt.class);
    }
}

// Gives a list so many places, for which it has the room. What stands in them means nothing until
// it is written.
fn set_places(amounts: &mut Vec<u64>, places: usize)
    requires { places ≤ vec_capacity amounts.old }
    ensures places { vec_len amounts.new ≡ places }
    ensures room { vec_capacity amounts.new ≡ vec_capacity amounts.old }
{
    amounts.clear();
    for _ in 0..places {
        amounts.push_reserved(0);
    }
}

// Divides so many units among the debts of a bank that are laid out, by its rule.
fn divide_laid_out(
    net: &Network,
    bank: BankId,
    units: u64,
    claims: &[u64],
    classes: &[u8],
    into: &mut [u64],
)
    requires network { IsNetwork net.now }
    requires bank { bank.0 < length net.now.banks }
    requires claims { claims.now ≡ claims_of net.now bank.0 }
    requires classes { classes.now ≡ classes_of net.now bank.0 }
    requires places { length into.old ≡ length (row_of net.now bank.0) }
    ensures { into.new ≡ division_of net.now bank.0 units }
{
    share_by_level(net.bank(bank).rule, claims, classes, units, into);
}
