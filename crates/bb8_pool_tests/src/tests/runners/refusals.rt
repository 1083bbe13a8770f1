//! A run in which one request for memory is refused, or all from one on, as `gate/refusals/run`
//! makes them. It holds with and without refusals.

use super::{Bench, CountRunner, RunnerTrial, SlotPool, slots, try_runner};
use bb8::{PoolCalls, PoolPermits, RunError, Runtime};
use slots::{Outcome, Phase, RunnerCalls};
use std::process::Abort;

/// Five jobs on two slots. A submitted job ends with its result, ends for lack of memory, or goes
/// on. The bound is never exceeded, and no guard is lost.
#[derive(Drop)]
struct RefusedMemory;

impl<R: Runtime + Abort> RunnerTrial<R> for RefusedMemory {
    fn run<L: PoolPermits, X: CountRunner>(self, pool: &SlotPool<R, L>, mut bench: Bench<R, X>) {
        let rt = bench.rt;
        let mut taken_on: u64 = 0;
        for _ in 0..5 {
            if let Some(id) = bench.submit(2) {
                assert_eq!(&rt; id, taken_on);
                taken_on = taken_on.saturating_add(1);
            }
        }
        let mut ended: u64 = 0;
        for _ in 0..12 {
            ended = ended.saturating_add(bench.turn());
            let state = pool.state();
            let running = bench.runner.running();
            assert!(&rt; running <= 2);
            assert_eq!(&rt;
                running.saturating_add(state.idle_connections as u64),
                state.connections as u64
            );
        }
        for id in 0..taken_on {
            match bench.runner.phase(id) {
                Some(Phase::Ended) => {
                    assert!(&rt;
                        matches!(
                            bench.runner.take(id),
                            Some(Outcome::Done(2) | Outcome::Refused(RunError::Memory))
                        )
                    );
                    ended = ended.wrapping_sub(1);
                }
                Some(Phase::Waiting | Phase::Running) => {}
                None => panic!(&rt; "a job is lost"),
            }
        }
        assert_eq!(&rt; ended, 0);
    }
}

#[test]
fn no_job_is_lost(rt: HostRuntime) {
    let _ = try_runner(rt, slots(2), RefusedMemory);
}
