//! Runs whose threads a gate puts in order: what one worker does while another is held up.
use crate::gates::{new_paid_before, new_turns};
use crate::nets::Sample;
use crate::runs::{Begun, Job, run};
use std::sync::atomic::Ordering;
use std::test::Fail;

#[test]
fn a_sweep_hears_a_bell_that_another_worker_rang(rt: HostRuntime) -> Result<(), Fail> {
    let job = Job {
        begun: Begun::Settled,
        sample: Sample::Five,
        workers: 2,
        sweeps: 2,
    };
    let gate = new_turns(&rt);
    let [rounds, visits, _] = run(&rt, rt.alloc(), job, &gate)?.counts;
    let first = gate.first.load(Ordering::SeqCst);
    let second = gate.second.load(Ordering::SeqCst);
    // Worker 0 visits the banks 0, 2 and 4. The bank 2 pays the bank 0, and the bank 3, of worker 1,
    // pays the banks 1 and 4 once the bell of the bank 4 was taken. So the second sweep of worker 0
    // hears the banks 0 and 4, and nothing is left for a second round.
    assert_eq!(rt; [first, second, rounds, visits], [5, 3, 2, 8]);
    Ok(())
}

#[test]
fn a_bank_passes_the_gate_before_it_looks(rt: HostRuntime) -> Result<(), Fail> {
    for turn in [1_u32, 5, 70] {
        let job = Job {
            begun: Begun::Settled,
            sample: Sample::Late(turn),
            workers: 2,
            sweeps: 1,
        };
        let gate = new_paid_before(&rt, u64::from(turn));
        let told = run(&rt, rt.alloc(), job, &gate)?;
        // B has seen what A paid while it was at the gate, and so pays all at once.
        let raises = [(1, 0, 7), (2, 1, 8), (0, 0, 0)];
        assert_eq!(rt; (told.counts[2], told.raises), (2, raises), "{turn}");
    }
    Ok(())
}
