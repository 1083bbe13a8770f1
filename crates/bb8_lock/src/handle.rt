//! The handles of a pool, and how drivers see that none is left.
ghost use Rattle.std.specs.Prelude.{◌≡◌, Bool};

/// A handle that is alive. Only making a pool and `GetHome::join` create one, and only
/// `GetHome::leave` takes one: it cannot be dropped.
pub struct Handle {
    pub(crate) _alive: (),
}

/// Reports to drivers when to end. (A trait because of *trait-for-threads*.)
pub trait Ends {
    // Whether no handle is alive.
    ghost over: { Self → Bool };

    /// Whether no handle is alive.
    fn is_over(&self) -> bool
        ensures { result ≡ over self.now };
}
