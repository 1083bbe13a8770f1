//! The builder of a pool.
ghost use Rattle.std.specs.Prelude.{◌≡◌, ◌<◌};
ghost use Rattle.std.specs.Duration.{as_nanos};
ghost use Rattle.std.specs.Option.{ForSome, option_map};
ghost use Rattle.bb8_types.specs.Settings.{settings_of, default_settings};

use bb8_core::api::{Config, NopCustomizer, NopErrorSink, QueueStrategy};
use std::marker::{Model, PhantomData};
use std::time::Duration;

/// The settings of a pool to be built, with its error sink `S` and its customizer `Z`; `M` is the
/// pool's manager.
///
/// Each setter takes the builder and returns it with that setting changed, so calls can be chained.
/// A setting without a call has its default. `Config::from(&builder)` returns the settings, and its
/// `is_lawful` whether a pool can satisfy them.
///
/// As bb8, except that a value on which bb8 panics is a condition on the caller, that options are
/// taken as `Option`, without `Into`, that sink and customizer are type parameters instead of
/// boxes, and that bounds on manager, sink and customizer are on the building of a pool instead of
/// on each call. Durations are whole nanoseconds of the pool's clock; one of more than
/// 18,446,744,073,709,551,615 nanoseconds (some 584 years) never elapses.
#[derive(Drop)]
pub struct Builder<M, S = NopErrorSink, Z = NopCustomizer> {
    config: Config,
    error_sink: S,
    connection_customizer: Z,
    manager: PhantomData<M>,
}

impl<M, S, Z> Model for Builder<M, S, Z> {
    ghost use Rattle.bb8_types.specs.Settings.{settings_of};
    ghost use Rattle.bb8.specs.Choices.{Choices};

    ghost Value = { Choices S Z };

    ghost view = { λ b. record { settings = settings_of b.config; error_sink = b.error_sink; connection_customizer = b.connection_customizer } };
}

impl<M, S, Z> Builder<M, S, Z> {
    fn from_parts(config: Config, error_sink: S, connection_customizer: Z) -> Self
        ensures { result ≡ record {
          settings = settings_of config;
          error_sink = error_sink;
          connection_customizer = connection_customizer;
        } }
    {
        Builder {
            config,
            error_sink,
            connection_customizer,
            manager: PhantomData,
        }
    }
}

impl<M, S, Z> Builder<M, S, Z> {
    /// Returns the settings, the error sink and the customizer.
    pub(crate) fn into_parts(self) -> (Config, S, Z)
        ensures settings { settings_of result.0 ≡ self.settings }
        ensures sink { result.1 ≡ self.error_sink }
        ensures customizer { result.2 ≡ self.connection_customizer }
    {
        let Builder {
            config,
            error_sink,
            connection_customizer,
            manager: _,
        } = self;
        (config, error_sink, connection_customizer)
    }
}

impl<M> Default for Builder<M> {
    ghost is_default = { λ builder. builder.settings ≡ default_settings };

    /// The settings at their defaults, as `Config::default` returns them, with a sink and a
    /// customizer that do nothing. As bb8.
    fn default() -> Self {
        Builder::from_parts(Config::default(), NopErrorSink, NopCustomizer)
    }
}

impl<M> Builder<M> {
    /// Returns a builder with each setting at its default. As bb8.
    pub fn new() -> Self
        ensures { result.settings ≡ default_settings }
    {
        Builder::default()
    }
}

impl<M, S: Drop, Z: Drop> Builder<M, S, Z> {
    /// Sets the greatest number of connections plus open approvals. 10 by default.
    ///
    /// The condition refuses zero, on which bb8 panics. A greater `min_idle` makes the settings
    /// unlawful.
    pub fn max_size(mut self, max_size: u32) -> Self
        requires { 0 < max_size }
        ensures { result ≡ record self { settings = record self.settings { max_size = max_size } } }
    {
        self.config.max_size = max_size;
        self
    }

    /// Sets how many idle connections the pool tries to keep. It opens new ones while fewer are
    /// idle or being opened, as far as `max_size` allows, and `idle_timeout` leaves this number
    /// idle. None by default, which counts as 0. As bb8, except that bb8's `idle_timeout` closes
    /// these, too.
    ///
    /// More than `max_size` makes the settings unlawful, whichever of the two was set first.
    pub fn min_idle(mut self, min_idle: Option<u32>) -> Self
        ensures { result ≡ record self { settings = record self.settings { min_idle = min_idle } } }
    {
        self.config.min_idle = min_idle;
        self
    }

    /// Sets whether an idle connection is checked by the manager's `is_valid` before it is handed
    /// out; if the check fails, it is closed. On by default. As bb8.
    pub fn test_on_check_out(mut self, test_on_check_out: bool) -> Self
        ensures { result ≡ record self {
          settings =
              record self.settings { test_on_check_out = test_on_check_out };
        } }
    {
        self.config.test_on_check_out = test_on_check_out;
        self
    }

    /// Sets after how much idle time a connection is checked: with `test_on_check_out` on, one that
    /// became idle less than `idle` ago is handed out unchecked. Zero by default, which checks
    /// each. It has no effect with the check off. bb8 has no such setting.
    ///
    /// A connection becomes idle when it is opened or added, and each time it is returned. So a
    /// connection that serves one get after another costs no check, and a few seconds save most
    /// checks. If its server goes away meanwhile, the connection is found broken at its first use
    /// instead of by the check.
    pub fn test_on_check_out_after(mut self, idle: Duration) -> Self
        ensures { result ≡ record self {
          settings = record self.settings { test_after = as_nanos idle };
        } }
    {
        self.config.test_after = idle;
        self
    }

    /// Sets how long a connection lives: at this age it is closed by the reaper if it is idle, and
    /// otherwise when it is returned to the pool. 30 minutes by default. With None a connection has
    /// no greatest age.
    ///
    /// The condition refuses a limit of zero, on which bb8 panics. With a limit, a `reaper_rate` of
    /// zero makes the settings unlawful.
    pub fn max_lifetime(mut self, max_lifetime: Option<Duration>) -> Self
        requires { ForSome max_lifetime (λ limit. 0 < as_nanos limit) }
        ensures { result ≡ record self {
          settings =
              record self.settings { max_lifetime = option_map as_nanos max_lifetime };
        } }
    {
        self.config.max_lifetime = max_lifetime;
        self
    }

    /// Sets how long a connection may be idle: after this time the reaper closes it, as long as
    /// more than `min_idle` are idle. It closes the one that became idle first, with either queue
    /// strategy. 10 minutes by default. With None a connection may be idle forever.
    ///
    /// This follows bb8's documentation; its code closes all of them. A connection that has also
    /// reached `max_lifetime` is closed for that, and counts as such. The condition refuses a limit
    /// of zero, on which bb8 panics. With a limit, a `reaper_rate` of zero makes the settings
    /// unlawful.
    pub fn idle_timeout(mut self, idle_timeout: Option<Duration>) -> Self
        requires { ForSome idle_timeout (λ limit. 0 < as_nanos limit) }
        ensures { result ≡ record self {
          settings =
              record self.settings { idle_timeout = option_map as_nanos idle_timeout };
        } }
    {
        self.config.idle_timeout = idle_timeout;
        self
    }

    /// Sets how long a get waits, from its first poll, before it returns `TimedOut`; and how long
    /// after its first try a failed connection attempt is still repeated. 30 seconds by default.
    ///
    /// The condition refuses zero, on which bb8 panics. A get whose deadline would exceed the
    /// clock's greatest moment never times out.
    pub fn connection_timeout(mut self, connection_timeout: Duration) -> Self
        requires { 0 < as_nanos connection_timeout }
        ensures { result ≡ record self {
          settings =
              record self.settings { connection_timeout = as_nanos connection_timeout };
        } }
    {
        self.config.connection_timeout = connection_timeout;
        self
    }

    /// Sets whether a failed connection attempt is repeated: after waits that double from 400 ms up
    /// to half of `connection_timeout`, until more than `connection_timeout` has passed since its
    /// first try. On by default. As bb8.
    ///
    /// If it is off, the first failure ends the attempt. That suits a program that knows by itself
    /// that its server is down.
    pub fn retry_connection(mut self, retry_connection: bool) -> Self
        ensures { result ≡ record self {
          settings =
              record self.settings { retry_connection = retry_connection };
        } }
    {
        self.config.retry_connection = retry_connection;
        self
    }

    /// Sets the time between two ticks of a driver. At a tick it closes idle connections that
    /// exceed `max_lifetime` or `idle_timeout`, if one of these is set, and approvals are granted
    /// for waiters whose connection attempts were given up. 30 seconds by default.
    ///
    /// Zero makes the settings unlawful if one of the two is set; bb8 panics then. Otherwise there
    /// are no ticks. bb8 has this setting for its tests.
    pub fn reaper_rate(mut self, reaper_rate: Duration) -> Self
        ensures { result ≡ record self {
          settings =
              record self.settings { reaper_rate = as_nanos reaper_rate };
        } }
    {
        self.config.reaper_rate = reaper_rate;
        self
    }

    /// Sets which idle connection is handed out first. `Fifo` by default. As bb8.
    ///
    /// `Fifo` spreads the load over all connections, so that few stay idle for long. `Lifo` uses
    /// as few connections as it can, so that the others reach `idle_timeout` and are closed down to
    /// `min_idle`.
    pub fn queue_strategy(mut self, queue_strategy: QueueStrategy) -> Self
        ensures { result ≡ record self {
          settings =
              record self.settings { queue_strategy = queue_strategy };
        } }
    {
        self.config.queue_strategy = queue_strategy;
        self
    }

    /// Sets the sink of errors that no caller of the pool waits for; the previous sink is dropped.
    /// `NopErrorSink` by default. As bb8, except that the sink's type becomes part of the
    /// builder's.
    pub fn error_sink<T>(self, error_sink: T) -> Builder<M, T, Z>
        ensures { result ≡ record {
          settings = self.settings;
          error_sink = error_sink;
          connection_customizer = self.connection_customizer;
        } }
    {
        Builder::from_parts(self.config, error_sink, self.connection_customizer)
    }

    /// Sets the customizer, which prepares each connection that the pool opens; the previous one is
    /// dropped. `NopCustomizer` by default. As bb8, except that the customizer's type becomes part
    /// of the builder's.
    pub fn connection_customizer<T>(self, connection_customizer: T) -> Builder<M, S, T>
        ensures { result ≡ record {
          settings = self.settings;
          error_sink = self.error_sink;
          connection_customizer = connection_customizer;
        } }
    {
        Builder::from_parts(self.config, self.error_sink, connection_customizer)
    }
}

impl<M, S, Z> From<&Builder<M, S, Z>> for Config {
    ghost from_gives = { λ builder config. settings_of config ≡ builder.now.settings };

    /// Returns a builder's settings, without its sink and its customizer. As bb8.
    fn from(builder: &Builder<M, S, Z>) -> Config {
        builder.config
    }
}
