//! Tests of the manager: alone, and under a pool in one thread, on a clock that the test sets.
use crate::manager::Manager;
use bb8::{
    Blocking, BlockingManager, Builder, Driver, DriverCalls, Gets, Moment, NopCustomizer,
    NopErrorSink, Pool, PoolCalls, PoolPermits, Runtime, SetClock, User,
};
use futures::task::Poll;
use futures::test::MockTask;
use std::test::Fail;

#[test]
fn new_connection_takes_questions(rt: HostRuntime) {
    match Manager.connect() {
        Ok(mut connection) => assert!(&rt; connection.ask() == Ok(1) && connection.ask() == Ok(2)),
        Err(_) => panic!(&rt; "no connection"),
    }
}

/// A get that waits until a turn of the driver has opened its connection.
#[derive(Drop)]
struct WaitingGet {
    task: MockTask,
}

impl<R: Runtime> User<Blocking<Manager>, NopErrorSink, NopCustomizer, SetClock, R> for WaitingGet {
    /// Whether the get waited, was served, and returned its connection.
    type Outcome = bool;

    fn run<L: PoolPermits>(
        &self,
        pool: &Pool<Blocking<Manager>, NopErrorSink, NopCustomizer, SetClock, R, L>,
        driver: &mut Driver<Blocking<Manager>, NopErrorSink, NopCustomizer, SetClock, R, L>,
    ) -> bool {
        let mut get = pool.get();
        if !self.task.poll(&mut get).is_pending() {
            return false;
        }
        let _ = driver.turn(Moment(0));
        let served = matches!(self.task.poll(&mut get), Poll::Ready(Ok(_)));
        served && pool.state().idle_connections == 1
    }
}

#[test]
fn turn_opens_for_a_get(rt: HostRuntime) -> Result<(), Fail> {
    let clock = SetClock::new(rt.alloc(), Moment(0))?;
    let waits = WaitingGet {
        task: MockTask::new(&rt)?,
    };
    let was_served = Builder::new()
        .max_size(2)
        .with_pool(Blocking(Manager), clock, rt, &waits)?;
    assert!(&rt; was_served);
    Ok(())
}
