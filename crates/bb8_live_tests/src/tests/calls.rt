//! How often, and in which order, each user callback is made; and that none is made under the
//! pool's lock, nor a connection dropped that a call closed: during each one the pool serves
//! another thread.
ghost use Rattle.std.specs.Prelude.{Some, false};
ghost use Rattle.bb8.specs.Permits.{IsBlankOf};
ghost use Rattle.bb8.specs.Settings.{default_settings};

mod blocking;
mod retiring;

use super::assert_equal;
use bb8::{
    Builder, Building, Cancel, Clock, CustomizeConnection, Driver, DriverCalls, ErrorSink, Gate,
    GetFuture, Gets, Job, ManageConnection, Memory, Moment, Pool, PoolCalls, PoolPermits, Runtime,
    start,
};
use bb8_trials::{ARMED, Course, LOOKS, Number, OPEN, Refused, Unbuilt, WAITING};
use futures::task::Poll;
use futures::test::MockTask;
use std::alloc::Global;
use std::marker::Brand;
use std::process::Abort;
use std::sync::Arc;
use std::sync::ledger::Blank;
use std::test::Fail;
use std::thread::{self, Threads};
use std::time::Duration;

/// No callback, the user callbacks, and the drops of a connection and of what is in progress.
const CALLS: &str =
    " now connect poll_connect on_acquire poll_acquire is_valid poll_valid has_broken sink dropped ended";

/// The stage at which the other thread ends.
const ENDED: u64 = 3;

/// The state that a test shares with its pool's manager, customizer, sink and clock, and with the
/// connections.
#[derive(Drop)]
pub(super) struct Desk {
    /// The callbacks that were made since the last look, as `and_one` writes them.
    made: Number,
    /// While a callback waits, the other thread's own clock readings neither wait nor are recorded.
    pub(super) stage: Number,
    /// How many callbacks waited, and how many in vain.
    pub(super) waited: Number,
    pub(super) missed: Number,
    /// The clock's moment in nanoseconds, and the moment of the last poll of an attempt.
    moment: Number,
    polled_at: Number,
    /// By how much each reading first advances the clock.
    step: Number,
    /// The results of attempts, preparations and checks: 0 passes, 1 is pending, 2 fails; 3 is
    /// pending once, and then passes.
    pub(super) opening: Number,
    preparing: Number,
    check: Number,
    /// Whether connections are found broken: 0 or 1.
    broken: Number,
}

impl Desk {
    pub(super) fn new(alloc: Global) -> Result<Arc<Desk, Global>, Memory> {
        let desk = Desk {
            made: Number::new(0),
            stage: Number::new(OPEN),
            waited: Number::new(0),
            missed: Number::new(0),
            moment: Number::new(0),
            polled_at: Number::new(0),
            step: Number::new(0),
            opening: Number::new(0),
            preparing: Number::new(0),
            check: Number::new(0),
            broken: Number::new(0),
        };
        Ok(Arc::new(alloc, desk)?)
    }

    /// Waits until the other thread was served, if callbacks have to, and records the callback of
    /// this digit.
    fn call(&self, digit: u64) {
        match self.stage.get() {
            WAITING => return,
            ARMED => {
                self.waited.count();
                self.stage.set(WAITING);
                if !self.stage.comes_to(WAITING, false) {
                    self.missed.count();
                }
            }
            _ => {}
        }
        self.made.set(and_one(self.made.get(), digit));
    }

    /// Sets a number as `step=60` says. None if it is no such text.
    fn set(&self, text: &str) -> Option<()> {
        let (name, value) = text.split_once('=')?;
        let number = match name {
            "moment" => &self.moment,
            "step" => &self.step,
            "opening" => &self.opening,
            "preparing" => &self.preparing,
            "check" => &self.check,
            "broken" => &self.broken,
            _ => return None,
        };
        number.set(value.parse().ok()?);
        Some(())
    }
}

/// Returns the digit of a callback, its position in `CALLS`: 0 for none, 15 for a wrong one.
fn digit_of(call: &str) -> u64 {
    for (digit, name) in (0..15u64).zip(CALLS.split(' ')) {
        if name == call {
            return digit;
        }
    }
    15
}

/// Returns these callbacks and one more, as hexadecimal digits. More than 16 are `u64::MAX`.
fn and_one(calls: u64, digit: u64) -> u64 {
    calls.saturating_mul(16).saturating_add(digit)
}

/// Returns the result of a poll of this course.
fn answer(course: &Number) -> Poll<Result<(), Refused>> {
    match course.get() {
        0 => Poll::Ready(Ok(())),
        1 => Poll::Pending,
        2 => Poll::Ready(Err(Refused(1))),
        _ => {
            course.set(0);
            Poll::Pending
        }
    }
}

/// A manager, customizer, sink, clock, gate or connection, or an attempt, preparation or check in
/// progress. It records its callbacks.
pub(super) struct Teller {
    desk: Arc<Desk, Global>,
    /// The digit of the callback that its drop is; 0 if it is none.
    end: u64,
}

/// Returns one whose drop is this callback.
pub(super) fn teller_on(desk: &Arc<Desk, Global>, end: &str) -> Result<Teller, Memory> {
    Ok(Teller {
        desk: Arc::try_clone(desk)?,
        end: digit_of(end),
    })
}

impl Teller {
    fn tell(&self, call: &str) {
        self.desk.call(digit_of(call));
    }

    /// Records the callback that begins something, whose end is recorded.
    fn begin(&self, call: &str) -> Option<Teller> {
        self.tell(call);
        teller_on(&self.desk, "ended").ok()
    }
}

impl Drop for Teller {
    fn drop(self) {
        let Teller { desk, end } = self;
        if end != 0 {
            desk.call(end);
        }
    }
}

impl ManageConnection for Teller {
    type Connection = Teller;

    type Error = Refused;

    type Connecting = Option<Teller>;

    type Checking = Option<Teller>;

    fn connect(&self) -> Option<Teller> {
        self.begin("connect")
    }

    fn poll_connect(
        &self,
        _connecting: &mut Option<Teller>,
        moment: Moment,
    ) -> Poll<Result<Teller, Refused>> {
        self.tell("poll_connect");
        self.desk.polled_at.set(moment.0);
        match answer(&self.desk.opening) {
            Poll::Ready(Ok(())) => {
                Poll::Ready(teller_on(&self.desk, "dropped").map_err(|_| Refused(0)))
            }
            Poll::Ready(Err(error)) => Poll::Ready(Err(error)),
            Poll::Pending => Poll::Pending,
        }
    }

    fn is_valid(&self, _connection: &mut Teller) -> Option<Teller> {
        self.begin("is_valid")
    }

    fn poll_valid(
        &self,
        _connection: &mut Teller,
        _checking: &mut Option<Teller>,
        _moment: Moment,
    ) -> Poll<Result<(), Refused>> {
        self.tell("poll_valid");
        answer(&self.desk.check)
    }

    fn has_broken(&self, _connection: &mut Teller) -> bool {
        self.tell("has_broken");
        self.desk.broken.get() != 0
    }
}

impl CustomizeConnection<Teller, Refused> for Teller {
    type Acquiring = Option<Teller>;

    fn on_acquire(&self, _connection: &mut Teller) -> Option<Teller> {
        self.begin("on_acquire")
    }

    fn poll_acquire(
        &self,
        _connection: &mut Teller,
        _acquiring: &mut Option<Teller>,
        _moment: Moment,
    ) -> Poll<Result<(), Refused>> {
        self.tell("poll_acquire");
        answer(&self.desk.preparing)
    }
}

impl ErrorSink<Refused> for Teller {
    fn sink(&self, _error: Refused) {
        self.tell("sink");
    }
}

impl Clock for Teller {
    fn now(&self) -> Moment {
        let desk = &*self.desk;
        let is_other = desk.stage.get() == WAITING;
        self.tell("now");
        if !is_other {
            desk.moment
                .set(desk.moment.get().saturating_add(desk.step.get()));
        }
        Moment(desk.moment.get())
    }
}

impl Gate for Teller {
    /// Advances the clock by a nanosecond, and ends the run after the second turn.
    fn pause(&mut self) -> bool {
        self.desk.moment.count();
        self.desk.moment.get() < 1002
    }
}

/// A pool whose user callbacks are all recorded.
pub(super) type TellerPool<R, L> = Pool<Teller, Teller, Teller, Teller, R, L>;

/// A get of it.
type TellerGet<'a, R, L> = GetFuture<'a, Teller, Teller, Teller, Teller, R, L>;

/// The pool's driver.
type TellerDriver<R, L> = Driver<Teller, Teller, Teller, Teller, R, L>;

/// What a test works with.
#[derive(Drop)]
struct Tools<R> {
    rt: R,
    task: MockTask,
    desk: Arc<Desk, Global>,
}

impl<R: Runtime + Abort> Tools<R> {
    fn new(rt: R) -> Result<Self, Fail> {
        let (task, desk) = (MockTask::new(&rt)?, Desk::new(rt.alloc())?);
        Ok(Tools { rt, task, desk })
    }

    /// Asserts that since the last look exactly these callbacks were made, in this order.
    fn made(&self, calls: &str) {
        let mut wanted = 0;
        for call in calls.split_whitespace() {
            wanted = and_one(wanted, digit_of(call));
        }
        let found = self.desk.made.get();
        let is_equal = found == wanted && found != u64::MAX;
        assert!(&self.rt; is_equal, "{found:x} and not {wanted:x}: {calls}");
        self.desk.made.set(0);
    }

    fn add<L: PoolPermits>(&self, pool: &TellerPool<R, L>) -> Result<(), Memory> {
        let connection = teller_on(&self.desk, "dropped")?;
        self.look(pool.add(connection), "has_broken now", "");
        Ok(())
    }

    /// Polls a get, and asserts these callbacks.
    fn poll<L: PoolPermits>(&self, get: &mut TellerGet<'_, R, L>, calls: &str) {
        let polled = self.task.poll(get);
        self.made(calls);
        let served = matches!(&polled, Poll::Ready(Ok(_)));
        drop(polled);
        let closed = served && self.desk.broken.get() != 0;
        self.made(match (served, closed) {
            (true, true) => "has_broken now dropped",
            (true, false) => "has_broken now",
            _ => "",
        });
    }

    /// Asserts that these callbacks were made for a result, and those when it is dropped.
    fn look<A: Drop>(&self, answer: A, calls: &str, at_its_drop: &str) {
        self.made(calls);
        drop(answer);
        self.made(at_its_drop);
    }
}

/// A get that is served, one whose check is long pending, one that times out during it, and one
/// whose connection is found broken when the get is cancelled.
fn checked<R: Runtime + Abort, L: PoolPermits>(
    tools: &Tools<R>,
    pool: &TellerPool<R, L>,
) -> Result<(), Memory> {
    let desk = &tools.desk;
    tools.add(pool)?;
    let mut get = pool.get();
    tools.poll(&mut get, "now is_valid poll_valid ended");
    tools.poll(&mut get, "");
    drop(get);
    desk.check.set(1);
    let mut get = pool.get();
    tools.poll(&mut get, "now is_valid poll_valid");
    tools.poll(&mut get, "now poll_valid");
    get.cancel();
    tools.made("ended has_broken now");
    let mut get = pool.get();
    tools.poll(&mut get, "now is_valid poll_valid");
    desk.moment.set(100);
    tools.poll(&mut get, "now poll_valid ended has_broken");
    drop(get);
    tools.made("");
    let mut get = pool.get();
    tools.poll(&mut get, "now is_valid poll_valid");
    desk.broken.set(1);
    drop(get);
    tools.made("ended has_broken now dropped");
    drop(pool.add(teller_on(desk, "dropped")?));
    tools.made("has_broken now dropped");
    desk.broken.set(0);
    desk.check.set(0);
    Ok(())
}

/// Gets that wait: one is cancelled, one times out. And gets whose check fails: one is cancelled
/// then, and one waits and is served.
fn waiting<R: Runtime + Abort, L: PoolPermits>(
    tools: &Tools<R>,
    pool: &TellerPool<R, L>,
) -> Result<(), Memory> {
    let desk = &tools.desk;
    pool.get().cancel();
    tools.made("");
    let mut get = pool.get();
    tools.poll(&mut get, "now");
    tools.poll(&mut get, "now");
    get.cancel();
    tools.made("now");
    let mut get = pool.get();
    tools.poll(&mut get, "now");
    desk.moment.set(200);
    tools.poll(&mut get, "now");
    drop(get);
    tools.add(pool)?;
    desk.check.set(2);
    let mut get = pool.get();
    tools.poll(
        &mut get,
        "now is_valid poll_valid ended sink has_broken dropped",
    );
    drop(get);
    tools.made("now");
    tools.add(pool)?;
    let mut get = pool.get();
    tools.poll(
        &mut get,
        "now is_valid poll_valid ended sink has_broken dropped",
    );
    tools.poll(&mut get, "now");
    desk.check.set(0);
    tools.add(pool)?;
    desk.broken.set(1);
    tools.poll(&mut get, "now is_valid poll_valid ended");
    desk.broken.set(0);
    Ok(())
}

/// Gets with their own handle: one that is not polled, one that is served, and one that is
/// cancelled during its check.
fn owned<R: Runtime + Abort, L: PoolPermits>(
    tools: &Tools<R>,
    pool: &TellerPool<R, L>,
) -> Result<(), Memory> {
    pool.get_owned().cancel();
    tools.made("now now");
    tools.add(pool)?;
    let mut get = pool.get_owned();
    let polled = tools.task.poll(&mut get);
    tools.made("now now is_valid poll_valid ended");
    tools.look(get, "", "");
    tools.look(polled, "", "has_broken now now");
    tools.desk.check.set(1);
    let mut get = pool.get_owned();
    drop(tools.task.poll(&mut get));
    tools.made("now now is_valid poll_valid");
    drop(get);
    tools.made("ended has_broken now now");
    tools.desk.check.set(0);
    Ok(())
}

/// Connections that the pool does not count: opened and prepared slowly; failing at the attempt or
/// at the preparation; cancelled during the preparation.
fn dedicated<R: Runtime + Abort, L: PoolPermits>(tools: &Tools<R>, pool: &TellerPool<R, L>) {
    let desk = &tools.desk;
    let mut opening = pool.dedicated_connection();
    for (connects, prepares, calls) in &[
        (1, 0, "now connect poll_connect"),
        (1, 0, "now poll_connect"),
        (0, 1, "now poll_connect ended on_acquire poll_acquire"),
        (0, 1, "now poll_acquire"),
        (0, 0, "now poll_acquire ended dropped"),
        (0, 0, ""),
    ] {
        desk.opening.set(*connects);
        desk.preparing.set(*prepares);
        drop(tools.task.poll(&mut opening));
        tools.made(calls);
    }
    drop(opening);
    for (connects, prepares, calls, at_the_end) in &[
        (1, 0, "now connect poll_connect", "ended"),
        (2, 0, "now connect poll_connect ended", ""),
        (
            0,
            1,
            "now connect poll_connect ended on_acquire poll_acquire",
            "ended dropped",
        ),
        (
            0,
            2,
            "now connect poll_connect ended on_acquire poll_acquire ended dropped",
            "",
        ),
    ] {
        desk.opening.set(*connects);
        desk.preparing.set(*prepares);
        let mut opening = pool.dedicated_connection();
        drop(tools.task.poll(&mut opening));
        tools.made(calls);
        opening.cancel();
        tools.made(at_the_end);
    }
    desk.preparing.set(0);
}

/// Closes all idle connections by failing checks, and has a get wait and be cancelled, so that one
/// approval is open.
fn approve<R: Runtime + Abort, L: PoolPermits>(tools: &Tools<R>, pool: &TellerPool<R, L>) {
    tools.desk.check.set(2);
    let mut get = pool.get();
    for _ in 0..pool.state().idle_connections.saturating_add(1) {
        drop(tools.task.poll(&mut get));
    }
    get.cancel();
    tools.desk.check.set(0);
    tools.desk.made.set(0);
}

/// Turns, which read no clock: one connection is opened and prepared slowly, one attempt fails, and
/// one preparation; and a driver is dropped during a preparation.
fn turns<R: Runtime + Abort, L: PoolPermits>(
    tools: &Tools<R>,
    pool: &TellerPool<R, L>,
    mut driver: TellerDriver<R, L>,
) {
    let desk = &tools.desk;
    for (approves, connects, prepares, calls) in &[
        (true, 1, 0, "connect poll_connect"),
        (false, 1, 0, "poll_connect"),
        (false, 0, 1, "poll_connect ended on_acquire poll_acquire"),
        (false, 0, 0, "poll_acquire ended"),
        (false, 0, 0, ""),
        (true, 2, 0, "connect poll_connect ended sink"),
        (
            true,
            0,
            2,
            "connect poll_connect ended on_acquire poll_acquire ended dropped sink",
        ),
        (false, 0, 0, ""),
        (
            true,
            0,
            1,
            "connect poll_connect ended on_acquire poll_acquire",
        ),
    ] {
        if *approves {
            approve(tools, pool);
        }
        desk.opening.set(*connects);
        desk.preparing.set(*prepares);
        let _ = driver.turn(Moment(300));
        tools.made(calls);
    }
    drop(driver);
    tools.made("now ended dropped");
}

/// One more handle, and its drop.
fn handles<R: Runtime + Abort, P: bb8_trials::OwnedHandle<Teller>>(tools: &Tools<R>, pool: &P) {
    tools.look(pool.try_clone(), "now", "now");
    tools.look(pool.state(), "now", "");
}

/// Asks the pool for its state while a callback waits.
#[derive(Drop)]
struct Asker<R: Runtime + Abort, L: PoolPermits> {
    pool: TellerPool<R, L>,
    desk: Arc<Desk, Global>,
}

impl<R: Runtime + Abort, L: PoolPermits> Job for Asker<R, L> {
    /// How often it got the state.
    type Output = u64;

    fn run(self, _thread: usize) -> u64 {
        let mut answered: u64 = 0;
        for _ in 0..LOOKS {
            match self.desk.stage.get() {
                WAITING => {
                    if self.pool.state().connections <= 2 {
                        answered = answered.saturating_add(1);
                    }
                    self.desk.stage.set(ARMED);
                }
                ENDED => break,
                _ => thread::yield_now(),
            }
        }
        answered
    }
}

/// All calls of a pool with the check on, and of its driver.
fn calls_with_checks<R: Runtime + Abort, L: PoolPermits>(
    tools: &Tools<R>,
    pool: &TellerPool<R, L>,
) -> Result<(), Memory> {
    let desk = &tools.desk;
    let driver = Driver::new(pool)?;
    retiring::retired(tools, pool)?;
    checked(tools, pool)?;
    waiting(tools, pool)?;
    owned(tools, pool)?;
    handles(tools, pool);
    dedicated(tools, pool);
    turns(tools, pool, driver);
    approve(tools, pool);
    desk.moment.set(1000);
    desk.opening.set(1);
    let driven = Driver::new(pool)?.run(teller_on(desk, "")?);
    tools.made("now connect poll_connect now poll_connect now ended");
    assert_equal(&tools.rt, driven.turns, 2);
    assert_equal(&tools.rt, desk.polled_at.get(), 1001);
    desk.opening.set(0);
    Ok(())
}

/// The calls of a pool. If asked for, each callback waits until another thread was served.
fn calls_of_a_pool<R: Runtime + Abort + Threads, L: PoolPermits + 'static>(
    rt: R,
    blank: Blank,
    checks: bool,
    waits: bool,
) -> Result<(), Fail>
    requires { IsBlankOf blank (record default_settings {
      max_size = 2;
      test_on_check_out = checks;
      connection_timeout = 100;
      retry_connection = false;
    }) L.name L.parts L.settings }
{
    let tools = Tools::new(rt)?;
    let desk = &tools.desk;
    let pool: TellerPool<R, L> = Builder::new()
        .max_size(2)
        .test_on_check_out(checks)
        .connection_timeout(Duration::from_nanos(100))
        .retry_connection(false)
        .error_sink(teller_on(desk, "")?)
        .connection_customizer(teller_on(desk, "")?)
        .build_unchecked(teller_on(desk, "")?, teller_on(desk, "")?, rt, blank)?;
    tools.made("now");
    let mut asker = None;
    if waits {
        let (pool, copy) = (pool.try_clone()?, Arc::try_clone(desk)?);
        asker = start(&rt, 0, Asker { pool, desk: copy }).ok();
        tools.made("now");
        desk.stage.set(ARMED);
    }
    if checks {
        let lists = [
            "now is_valid poll_valid ended",
            "now now is_valid poll_valid ended",
        ];
        calls_with_checks(&tools, &pool)?;
        blocking::served(&tools, &pool, lists)?;
        blocking::unserved(&tools, &pool)?;
    } else {
        blocking::served(&tools, &pool, ["now", "now now"])?;
    }
    desk.stage.set(ENDED);
    assert_equal(&rt, asker.is_some(), waits);
    if let Some(asker) = asker {
        assert_equal(&rt, asker.join(&rt), desk.waited.get());
        assert_equal(&rt, desk.missed.get(), 0);
        assert!(&rt; desk.waited.get() > 40);
    }
    Ok(())
}

/// The polls of a build, which opens two connections: it resolves, is cancelled, or fails. Then its
/// pool is used, whose gets are not checked.
fn calls_of_a_building<R: Runtime + Abort, B: Unbuilt<Teller>>(
    tools: &Tools<R>,
    mut building: B,
    course: Course,
) {
    let task = &tools.task;
    tools.desk.opening.set(1);
    drop(building.poll(task));
    tools.made("now now connect poll_connect connect poll_connect");
    match course {
        Course::Passes => {
            tools.desk.opening.set(0);
            let polled = building.poll(task);
            tools.made(
                "now poll_connect ended on_acquire poll_acquire ended poll_connect ended on_acquire poll_acquire ended",
            );
            for _ in 0..2u32 {
                if let Poll::Ready(Ok(pool)) = &polled {
                    bb8_trials::OwnedHandle::serves_at_once(pool, task);
                }
                tools.made("now has_broken now");
            }
            tools.look(polled, "", "now dropped dropped");
            tools.look(building.poll(task), "", "");
        }
        Course::Lasts => {
            building.cancel();
            tools.made("now ended ended now");
        }
        Course::Fails => {
            tools.desk.opening.set(2);
            drop(building.poll(task));
            tools.made("now poll_connect ended ended now");
        }
    }
}

/// Runs a build with these permits.
fn builds<R: Runtime + Abort, L: PoolPermits>(
    rt: R,
    blank: Blank,
    course: Course,
) -> Result<(), Fail>
    requires { IsBlankOf blank (record default_settings {
      max_size = 2;
      min_idle = Some 2;
      test_on_check_out = false;
      retry_connection = false;
    }) L.name L.parts L.settings }
{
    let tools = Tools::new(rt)?;
    let desk = &tools.desk;
    let building: Building<Teller, Teller, Teller, Teller, R, L> = Builder::new()
        .max_size(2)
        .min_idle(Some(2))
        .test_on_check_out(false)
        .retry_connection(false)
        .error_sink(teller_on(desk, "")?)
        .connection_customizer(teller_on(desk, "")?)
        .build(teller_on(desk, "")?, teller_on(desk, "")?, rt, blank);
    tools.made("");
    calls_of_a_building(&tools, building, course);
    Ok(())
}

#[test]
fn each_call_is_made_once(rt: HostRuntime) -> Result<(), Fail> {
    for course in [Course::Passes, Course::Lasts, Course::Fails] {
        builds::<HostRuntime, Brand>(rt, Blank::new(2), course)?;
    }
    for checks in [false, true] {
        calls_of_a_pool::<HostRuntime, Brand>(rt, Blank::new(2), checks, false)?;
    }
    Ok(())
}

#[test]
fn no_call_is_made_under_the_lock(rt: HostRuntime) -> Result<(), Fail> {
    for checks in [false, true] {
        calls_of_a_pool::<HostRuntime, Brand>(rt, Blank::new(2), checks, true)?;
    }
    Ok(())
}
