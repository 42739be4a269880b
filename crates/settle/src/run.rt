ghost use Rattle.settle.specs.Drives.{IsPlan, IsRunOn};

use crate::plan::Plan;
use clr_edge::Gate;
use clr_net::Network;
use pay_words::Board;
use std::alloc::Global;

/// What clears networks by workers: its memory, its workers and sweeps, and the gate that is passed
/// before each visit.
#[derive(Drop)]
pub struct Engine<'a, G: Gate> {
    pub alloc: Global,
    pub plan: Plan,
    pub gate: &'a G,
    ghost limits: { IsPlan plan },
}

/// What all rounds of a run have alike: the engine that makes them, its network, and the board of
/// them.
#[derive(Drop)]
pub struct Run<'a, G: Gate> {
    pub engine: &'a Engine<'a, G>,
    pub net: &'a Network,
    pub board: &'a Board,
    ghost on_board: { IsRunOn board.now net.now engine.now.plan },
}

/// How the workers of a round went: beside one another, by threads, or one after another in the
/// calling thread.
#[derive(Clone, Copy)]
pub enum Way {
    Beside,
    InTurn,
}
