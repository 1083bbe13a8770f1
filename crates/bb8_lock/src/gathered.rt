//! Several permits held together.
ghost use Rattle.std.specs.Prelude.{◌≡◌, ℕ, ◌+◌, ◌<◌, ◌≤◌};
ghost use Rattle.bb8_lock.specs.Gathered.{number_in};

use crate::Permit;
use std::marker::Model;
use std::sync::ledger::{Ledger, Share, Total};

/// Any number of permits, also none. Contracts see their number.
#[derive(Drop)]
pub struct Gathered<L: Ledger> {
    share: Option<Share<L>>,
}

impl<L: Ledger> Model for Gathered<L> {
    ghost Value = { ℕ };

    ghost view = { λ p. number_in (λ s. s.parts) p.share };

    ghost invariant = { λ p. number_in (λ s. s.amount) p.share ≡ number_in (λ s. s.parts) p.share };
}

impl<L: Ledger> Gathered<L> {
    /// Returns no permit.
    pub fn none() -> Self
        ensures { result ≡ 0 }
    {
        Gathered { share: None }
    }

    /// Adds a permit. There are never more than the total.
    pub fn put(&mut self, permit: Permit<L>, total: &Total<L>)
        ensures one_more { self.new ≡ self.old + 1 }
        ensures within { self.new ≤ total.now.amount }
    {
        let Permit { share: mut all } = permit;
        if let Some(share) = self.share.take() {
            all.merge(share);
        }
        total.audit(&mut all);
        self.share = Some(all);
    }

    /// Takes a permit out.
    pub fn take_one(&mut self) -> Permit<L>
        requires { 0 < self.old }
        ensures { self.new + 1 ≡ self.old }
    {
        match &mut self.share {
            Some(share) => Permit {
                share: share.split_off(1, 1),
            },
            None => unreachable!(),
        }
    }
}
