//! How often a client posted the create request of its lossy tunnel.

use mt_base::Role;
use std::marker::Model;

/// How often the create request of the lossy tunnel was posted, and the moment of the last time, once a
/// poll has told it.
#[derive(Drop)]
pub struct Postings {
    count: u32,
    last: Option<u64>,
}

impl Model for Postings {
    ghost use Rattle.std.specs.Prelude.{◌≤◌};
    ghost use Rattle.end_calls.specs.Calls.{Postings as Told};

    ghost Value = { Told };

    ghost view = { λ s. record { count = s.count; last = s.last } };

    ghost invariant = { λ s. s.count ≤ 17 };
}

impl Postings {
    ghost use Rattle.std.specs.Prelude.{◌≡◌, ◌==◌};
    ghost use Rattle.end_calls.specs.Calls.{is_over as is_past};
    ghost use Rattle.endpoint.specs.Posted.{polled_if};

    /// Whether 500 ms passed since it was posted last.
    pub(crate) fn is_over(&self, now: u64) -> bool
        ensures { result ≡ is_past (self.now).last now }
    {
        match self.last {
            None => false,
            Some(last) => 500 <= now.saturating_sub(last),
        }
    }

    /// Whether it was posted as often as it may be.
    pub(crate) fn is_last(&self) -> bool
        ensures { result ≡ ((self.now).count == 17) }
    {
        self.count == 17
    }

    /// The lossy link is polled at this moment, at which the request is due once more, or isn't. The first
    /// poll gives the first posting its moment.
    pub(crate) fn poll_at(&mut self, now: u64, is_due: bool)
        ensures { self.new ≡ polled_if is_due now self.old }
    {
        if self.count == 0 {
            return;
        }
        if is_due && self.count != 17 {
            self.count += 1;
            self.last = Some(now);
            return;
        }
        if self.last.is_none() {
            self.last = Some(now);
        }
    }
}

impl Postings {
    ghost use Rattle.std.specs.Prelude.{◌≡◌};
    ghost use Rattle.mt_base.specs.declared.kinds.Kind.TheVariants.{Lossy};
    ghost use Rattle.mt_endpoint.specs.Acts.{Attaches};
    ghost use Rattle.end_calls.specs.Calls.{attached_by, no_postings};

    /// It was not posted.
    pub fn new() -> Postings
        ensures { result ≡ no_postings }
    {
        Postings {
            count: 0,
            last: None,
        }
    }

    /// The lossy tunnel got its link: a client posts its create request for the first time.
    pub fn attached(&mut self, role: Role)
        ensures { self.new ≡ attached_by role (Attaches Lossy) self.old }
    {
        match role {
            Role::Server => {}
            Role::Client => {
                self.count = 1;
                self.last = None;
            }
        }
    }
}
