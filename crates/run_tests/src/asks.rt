//! What a new board answers: which bells are up before they are taken and after it, whether those that
//! are left call two workers, and what a seat says that is given back.
ghost use Rattle.pay_words.specs.Views.{HoldsAll, IsAt};
ghost use Rattle.std.specs.Prelude.{◌≡◌, ◌<◌, ◌≤◌, length};

use crate::boards::new_board;
use crate::nets::{Sample, net_of};
use bank_worker::SeatBack;
use clr_net::{BankId, Mem, Network};
use pay_words::{Board, PaySeat};
use settle::calls_two_workers;
use std::alloc::Global;
use std::test::Fail;

// Takes all bells but those of these banks. Whether each was up before, and down after it.
fn take_bells(board: &Board, master: &mut PaySeat, banks: u32, kept: [u32; 3]) -> bool
    requires seat { IsAt board.now master.old }
    requires held { HoldsAll master.old.shows }
    requires banks { banks ≤ length board.now.net.banks }
{
    let mut right = true;
    for bank in 0..banks {
        if bank != kept[0] && bank != kept[1] && bank != kept[2] {
            let up = board.is_up(BankId(bank));
            let taken = board.take(master, BankId(bank));
            right = right && up && taken && !board.is_up(BankId(bank));
        }
    }
    right
}

// Whether a seat that is given back for want of memory says so. A clause says which text it shows,
// and not that no showing fails.
fn says_so(alloc: Global, back: &SeatBack) -> bool {
    match format!(in alloc; "{back}") {
        Ok(text) => text.as_bytes() == b"out of memory".as_slice(),
        Err(_) => false,
    }
}

// Whether all bells but those that are left were told as they are, whether those call two workers,
// and whether the master, given back, says so.
type Answers = (bool, bool, bool);

fn answers_on(
    alloc: Global,
    net: &Network,
    board: &Board,
    master: PaySeat,
    workers: u32,
    left: [u32; 3],
) -> Answers
    requires net { net.now ≡ board.now.net }
    requires workers { 1 ≤ workers }
    requires seat { IsAt board.now master }
    requires held { HoldsAll master.shows }
{
    let mut master = master;
    let right = take_bells(board, &mut master, net.banks(), left);
    let two = calls_two_workers(net, board, workers);
    (right, two, says_so(alloc, &SeatBack { seat: master }))
}

// The same, on a new board of so many banks.
fn answers(alloc: Global, banks: u32, workers: u32, left: [u32; 3]) -> Result<Answers, Mem>
    requires { (1 ≤ workers) × (workers ≤ 64) }
{
    let net = net_of(alloc, Sample::TwoPoorPairs(banks))?;
    let (board, master) = new_board(alloc, &net, workers)?;
    Ok(answers_on(alloc, &net, &board, master, workers, left))
}

// Workers, those of 1,000 banks whose bells are up, and whether they call two of the workers. There
// is no bank 1,000.
const CALLING: [(u32, [u32; 3], bool); 18] = [
    (2, [0, 1, 2], true),
    (2, [0, 1, 1], true),
    (2, [1, 2, 2], true),
    (2, [0, 2, 2], false),
    (2, [1, 1, 1], false),
    (2, [1000, 1000, 1000], false),
    (3, [0, 2, 2], true),
    (3, [2, 2, 2], false),
    (1, [0, 1, 2], false),
    (2, [5, 698, 698], true),
    (2, [4, 6, 698], false),
    (2, [700, 999, 999], true),
    (4, [703, 999, 999], false),
    (5, [5, 610, 695], false),
    (5, [5, 610, 999], true),
    (8, [5, 701, 997], false),
    (8, [5, 701, 998], true),
    (64, [3, 67, 640], true),
];

// The cases of the table, and then for each number of workers from 2 on two in which all bells but
// the last are of one worker: that of the first is too, and that of the second is not.
fn asked(place: u32) -> (u32, [u32; 3], bool)
    requires { place < 144 }
{
    if let Some(case) = CALLING.get(place as usize) {
        return *case;
    }
    let workers = place.saturating_sub(18) / 2 + 2;
    let other = place % 2;
    (
        workers,
        [5, 5 + workers, 5 + 2 * workers + other],
        other == 1,
    )
}

// The first case that is answered in another way.
fn first_uncalled(alloc: Global) -> Result<Option<u32>, Mem> {
    for place in 0..144 {
        let (workers, left, wanted) = asked(place);
        let (right, two, _) = answers(alloc, 1000, workers.clamp(1, 64), left)?;
        if !right || two != wanted {
            return Ok(Some(place));
        }
    }
    Ok(None)
}

#[test]
fn bells_of_two_workers_call_both(rt: HostRuntime) -> Result<(), Fail> {
    let wrong = first_uncalled(rt.alloc())?;
    assert_eq!(rt; wrong, None);
    // The last bank of as many as there may be, and the one before it.
    let other = answers(rt.alloc(), 10_000, 2, [4, 9_999, 9_999])?;
    let same = answers(rt.alloc(), 10_000, 2, [4, 9_998, 9_998])?;
    assert_eq!(rt;
        (other.0, other.1, same.0, same.1),
        (true, true, true, false)
    );
    Ok(())
}

// There is no bank 10,000, so all bells are taken.
#[test]
fn each_bell_is_up_until_it_is_taken_and_a_seat_says_why_it_is_given_back(
    rt: HostRuntime,
) -> Result<(), Fail> {
    let told = answers(rt.alloc(), 10_000, 1, [10_000; 3])?;
    assert_eq!(rt; told, (true, false, true));
    Ok(())
}
