//! Journals: judged as they stand and with what each bank was last found to pay, gathered, and
//! printed whole.
ghost use Rattle.std.specs.Prelude.{◌≡◌, ◌<◌, All, length};

use clear_core::{Journal, Raise, Scratch};
use clr_net::{Amounts, BankId, DebtId, Mem, Network};
use net_check::{Limits, ReadNet};
use net_samples::chain;
use raise_journal::{
    Verdict, gather, print_journal, read_journal, read_journal_within, replay, replay_with,
};
use std::alloc::Global;
use std::test::Fail;

// The verdicts on a journal of a network of two debts, by divisions anew and by kept ones.
fn verdicts(alloc: Global, net: &Network, journal: &[Raise]) -> Result<(Verdict, Verdict), Mem>
    requires { All (λ r. r.debt.0 < length net.now.debts) journal.now }
{
    if net.debts() != 2 {
        return Err(Mem);
    }
    let mut awards = Amounts::zeros(alloc, net.debts() as usize)?;
    let mut scratch = Scratch::of(alloc, net)?;
    let anew = replay(net, journal, &mut [0; 2], &mut scratch);
    let kept = replay_with(
        net,
        journal,
        &mut [0; 2],
        awards.as_mut_slice(),
        &mut scratch,
    );
    Ok((anew, kept))
}

// The verdicts on the journal of a text that is read by these limits.
fn verdicts_on(
    alloc: Global,
    by: Limits,
    net: &Network,
    text: &str,
) -> Result<(Verdict, Verdict), ReadNet> {
    let journal = read_journal_within(alloc, by, net, text.as_bytes())?;
    verdicts(alloc, net, journal.as_slice()).or(Err(ReadNet::Mem))
}

const JUDGED: [(&str, Verdict); 5] = [
    (
        "stamp,debtor,creditor,class,to\n1,A,B,1,7\n2,B,C,1,8\nrounds,2\n",
        Verdict::Lawful,
    ),
    (
        "stamp,debtor,creditor,class,to\n1,B,C,1,8\n1,A,B,1,7\n",
        Verdict::Unlawful {
            entry: 1,
            had: 0,
            allowed: 1,
        },
    ),
    (
        "stamp,debtor,creditor,class,to\n1,A,B,1,7\n",
        Verdict::Unfinished { bank: BankId(1) },
    ),
    (
        "stamp,debtor,creditor,class,to\n2,A,B,1,7\n1,B,C,1,8\n",
        Verdict::Falls {
            entry: 2,
            last: 2,
            stamp: 1,
        },
    ),
    (
        "stamp,debtor,creditor,class,to\n1,A,B,1,7\n2,A,B,1,7\n",
        Verdict::Unlawful {
            entry: 2,
            had: 7,
            allowed: 7,
        },
    ),
];

#[test]
fn journals_are_judged_alike_both_ways(rt: HostRuntime) -> Result<(), Fail> {
    let net = chain(rt.alloc())?;
    for (text, verdict) in &JUDGED {
        for by in [Limits::Standard, Limits::Wide] {
            assert!(rt;
                verdicts_on(rt.alloc(), by, &net, text) == Ok((*verdict, *verdict)),
                "at {text}"
            );
        }
    }
    Ok(())
}

// The journal of one raise: its stamp, its debt, and what is then paid.
fn journal_of(alloc: Global, (stamp, debt, to): (u64, u32, u64)) -> Result<Journal, Mem> {
    let mut journal = Journal::empty(alloc);
    journal.push(Raise {
        stamp,
        debt: DebtId(debt),
        to,
    })?;
    Ok(journal)
}

// The raises of a later and an earlier part, gathered.
fn gathered(alloc: Global) -> Result<Journal, Mem> {
    let (late, soon) = (journal_of(alloc, (2, 1, 8))?, journal_of(alloc, (1, 0, 7))?);
    gather(alloc, &[late, soon])
}

#[test]
fn parts_are_gathered_in_order(rt: HostRuntime) -> Result<(), Fail> {
    let journal = gathered(rt.alloc())?;
    let mut told = journal
        .as_slice()
        .iter()
        .map(|raise| (raise.stamp, raise.debt.0, raise.to));
    assert_eq!(rt; told.next(), Some((1, 0, 7)));
    assert_eq!(rt; told.next(), Some((2, 1, 8)));
    assert_eq!(rt; told.next(), None);
    Ok(())
}

const PRINTED: &[u8] = b"stamp,debtor,creditor,class,to\n1,A,B,1,7\n2,B,C,1,8\n";

// Whether a text that is read is printed as it was.
fn is_kept(alloc: Global, net: &Network, text: &[u8]) -> Result<bool, ReadNet> {
    let journal = read_journal(alloc, net, text)?;
    match print_journal(alloc, net, journal.as_slice()) {
        Ok(printed) => Ok(*printed.as_slice() == *text),
        Err(Mem) => Err(ReadNet::Mem),
    }
}

#[test]
fn a_printed_journal_is_as_it_was_read(rt: HostRuntime) -> Result<(), Fail> {
    let net = chain(rt.alloc())?;
    assert!(rt; is_kept(rt.alloc(), &net, PRINTED)?);
    Ok(())
}
