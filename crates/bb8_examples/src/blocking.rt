//! A manager for a client that blocks: each of its calls occupies the polling thread.
use bb8::{
    Blocking, BlockingManager, Builder, MachineClock, NopCustomizer, Pool, PoolCalls, PoolPermits,
    PrintingSink, RunError, Runtime, Service,
};
use std::thread::Threads;
use std::time::{Clock, Duration};
use std::{fmt, thread};

/// The duration of a call of the client.
const CALL_MILLIS: u64 = 2;

/// A connection of a client that has only blocking calls.
#[derive(Drop)]
pub struct File {
    reads: u64,
}

/// The file server is down.
#[derive(Clone, Copy, Debug, PartialEq, Eq)]
pub struct Down;

impl fmt::Display for Down {
    fn fmt<W: fmt::Write>(&self, f: &mut fmt::Formatter<W>) -> fmt::Result {
        write!(f, "the server of the files is down")
    }
}

/// Opens files.
#[derive(Drop)]
pub struct Files<R> {
    /// The runtime on which the client waits.
    pub rt: R,
    /// Whether the server is down.
    pub is_down: bool,
}

impl<R> Files<R> {
    /// Returns a manager whose server is up.
    pub fn up(rt: R) -> Files<R> {
        Files { rt, is_down: false }
    }
}

impl<R: Clock + Send + Sync + Drop + 'static> BlockingManager for Files<R> {
    type Connection = File;

    type Error = Down;

    /// Blocks the driver's thread. Other connection attempts and the reaper wait meanwhile; gets do
    /// not, unless they need a new connection.
    fn connect(&self) -> Result<File, Down> {
        thread::sleep(&self.rt, Duration::from_millis(CALL_MILLIS));
        if self.is_down {
            return Err(Down);
        }
        Ok(File { reads: 0 })
    }

    /// Makes no call: a check that blocked would hold its get past the deadline. A broken
    /// connection is found when it is used, and reported by `has_broken`.
    fn is_valid(&self, _file: &mut File) -> Result<(), Down> {
        Ok(())
    }

    fn has_broken(&self, file: &mut File) -> bool {
        file.reads == u64::MAX
    }
}

/// A pool of files, whose errors are printed.
pub type FilePool<R, L> = Pool<
    Blocking<Files<R>>,
    PrintingSink<R>,
    NopCustomizer,
    MachineClock<R>,
    R,
    L,
>;

/// Threads that read files.
#[derive(Drop)]
pub struct Reading<R> {
    /// The runtime on which they wait.
    pub rt: R,
}

impl<R: Runtime + Eprint> Service<
    Blocking<Files<R>>,
    PrintingSink<R>,
    NopCustomizer,
    MachineClock<R>,
    R,
> for Reading<R> {
    type Output = u64;

    /// The number of threads that read a file.
    type Outcome = u64;

    fn begin<L: PoolPermits>(&self, _pool: &FilePool<R, L>) -> Result<(), u64> {
        Ok(())
    }

    /// Uses the connection in this thread, so its calls may block.
    fn run<L: PoolPermits>(&self, pool: &FilePool<R, L>, _thread: usize) -> u64 {
        let Ok(mut file) = pool.get_blocking() else {
            return 0;
        };
        thread::sleep(&self.rt, Duration::from_millis(CALL_MILLIS));
        file.reads = file.reads.saturating_add(1);
        file.reads.min(1)
    }

    fn end<L: PoolPermits>(&self, _pool: &FilePool<R, L>, results: &[u64]) -> u64 {
        results.iter().fold(0, |sum, one| sum.saturating_add(*one))
    }
}

/// Returns how many of four threads read a file, over a pool of two connections.
pub fn reads<R: Runtime + Threads + Eprint>(rt: R, files: Files<R>) -> Result<u64, RunError<Down>> {
    Builder::new()
        .max_size(2)
        .min_idle(Some(1))
        .connection_timeout(Duration::from_secs(1))
        .error_sink(PrintingSink { rt, name: "files" })
        .serve(Blocking(files), MachineClock(rt), rt, 4, &Reading { rt })
}
