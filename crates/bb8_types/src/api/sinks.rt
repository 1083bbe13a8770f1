//! The receiver of errors that no caller waits for.
ghost use Rattle.std.specs.Prelude.{⊤};

/// Receives the errors that belong to no caller: those of connection attempts and customizers in
/// the background, and those of failed checks. Use it for a log or a count of failures. As in bb8,
/// but a sink is a type parameter of the pool, so it needs neither `Debug` nor a method to copy it.
pub trait ErrorSink<E>: Send + Sync + Drop + 'static {
    // Relates a sink to each error that it has received. The implementer chooses it; by default all
    // errors.
    ghost sinks: { Self → E → Type 0 } = { λ _ _. ⊤ };

    /// Receives an error. It is called without the pool's lock, and its caller waits until it
    /// returns. As in bb8.
    fn sink(&self, error: E)
        ensures { sinks self.now error };
}

/// The sink that drops each error. A pool without a sink has it. As in bb8.
#[derive(Clone, Copy, Debug)]
pub struct NopErrorSink;

impl<E: Drop> ErrorSink<E> for NopErrorSink {
    fn sink(&self, _error: E) {}
}
