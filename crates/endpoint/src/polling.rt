//! The datagram that is due on a link.

use crate::endpoint::Endpoint;
use crate::repeating::{before_poll, is_due, is_full};
use crate::silence::silence_closed;
use carrier::{Carrier, Post};
use mt_base::Kind;

impl<C: Carrier + Drop, P: Post + Drop> Endpoint<C, P> {
    ghost use Rattle.std.specs.Prelude.{◌≡◌, ◌<◌, ◌≤◌, ◌^◌, true, false, None, take, drop, option_map, IfNone, IfSome, IsSomeAnd};
    ghost use Rattle.mt_base.specs.declared.kinds.Kind.TheVariants as kinds;
    ghost use Rattle.mt_base.specs.declared.kinds.Role.{Role};
    ghost use Rattle.mt_base.specs.Trace.{Trace, ◌▷◌};
    ghost use Rattle.carrier.specs.States.{written};
    ghost use Rattle.end_calls.specs.Calls.{Entry, WireOut, acts};
    ghost use Rattle.mt_endpoint.specs.Tunnels.{is_attached};
    ghost use Rattle.endpoint.specs.Polled.{is_full_at, state_in};
    ghost use Rattle.endpoint.specs.Posted.{is_full_in};
    ghost use Rattle.endpoint.specs.Laws.{KeepsLaws};
    ghost use Rattle.endpoint.specs.Standing.{EndStands};

    /// Writes the datagram that is due at this moment on the reliable link to the front of `out`, and gives its
    /// length. A link that is closed then makes its tunnel silent.
    fn poll_reliable(&mut self, now: u64, out: &mut [u8; 1232]) -> Option<usize>
        requires moment { now < 2 ^ 62 }
        ensures polled { (role : Role) (t : Trace Entry) → EndStands C.stands C.left C.condition P.stands P.left P.condition self.old role t → IfSome self.new.reliable (λ link. EndStands C.stands C.left C.condition P.stands P.left P.condition self.new role (t ▷ WireOut kinds.Reliable now false (option_map (λ n. take n out.new) result) (C.condition link))) }
        ensures there { IfSome self.old.reliable (λ old. IfNone self.new.reliable ⊥) }
        ensures none { IfNone self.old.reliable ((result ≡ None) × (self.new ≡ self.old)) }
        ensures bound { IfSome result (λ n. n ≤ 1232) }
        ensures rest { drop (written result) out.new ≡ drop (written result) out.old }
        ensures laws { KeepsLaws C.law P.law self.old self.new }
    {
        let Some(link) = &mut self.reliable else {
            return None;
        };
        let sent = link.poll(now, out);
        let state = link.state();
        silence_closed(&mut self.reader.session, Kind::Reliable, state);
        sent
    }

    /// Does the same with the lossy link. Before that a client posts its create request once more, where 500 ms
    /// passed without an answer since it was posted last; or, where it was posted 17 times, its tunnel is silent
    /// (MS-RDPEMT section 3.1.5.1 leaves the loss of the request open).
    fn poll_lossy(&mut self, now: u64, out: &mut [u8; 1232]) -> Option<usize>
        requires moment { now < 2 ^ 62 }
        ensures polled { (role : Role) (t : Trace Entry) → EndStands C.stands C.left C.condition P.stands P.left P.condition self.old role t → IfSome self.new.lossy (λ link. EndStands C.stands C.left C.condition P.stands P.left P.condition self.new role (t ▷ WireOut kinds.Lossy now (is_full_in P.load self.old.lossy) (option_map (λ n. take n out.new) result) (P.condition link))) }
        ensures there { IfSome self.old.lossy (λ old. IfNone self.new.lossy ⊥) }
        ensures none { IfNone self.old.lossy ((result ≡ None) × (self.new ≡ self.old)) }
        ensures bound { IfSome result (λ n. n ≤ 1232) }
        ensures rest { drop (written result) out.new ≡ drop (written result) out.old }
        ensures laws { KeepsLaws C.law P.law self.old self.new }
    {
        let Some(link) = &mut self.lossy else {
            return None;
        };
        let is_full = is_full(link);
        let is_due = is_due(&self.reader.session, &self.postings, now);
        before_poll(
            &mut self.reader.session,
            link,
            &self.postings,
            is_due,
            is_full,
        );
        let sent = link.poll(now, out);
        let state = link.state();
        silence_closed(&mut self.reader.session, Kind::Lossy, state);
        self.postings.poll_at(now, is_due);
        sent
    }

    /// Writes the datagram that is due at this moment, in milliseconds, on the link of this kind to the front of
    /// `out`, and gives its length; `None` where none is due, or there is no link, and then nothing changes. What
    /// stands behind it in `out` stays. Before the poll of the lossy link a client posts its create request once
    /// more, where it is due. A link that is found closed makes its tunnel silent, also where the end is broken,
    /// and a client that isn't then answers the Soft-Sync requests that waited for it (MS-RDPEDYC section
    /// 3.1.5.3). Takes no memory.
    pub fn wire_out(&mut self, link: Kind, now: u64, out: &mut [u8; 1232]) -> Option<usize>
        requires moment { now < 2 ^ 62 }
        ensures polled { (role : Role) (t : Trace Entry) → EndStands C.stands C.left C.condition P.stands P.left P.condition self.old role t → is_attached link (acts role t) ≡ true → IsSomeAnd (state_in C.condition P.condition link self.new) (λ state. EndStands C.stands C.left C.condition P.stands P.left P.condition self.new role (t ▷ WireOut link now (is_full_at P.load link self.old) (option_map (λ n. take n out.new) result) state)) }
        ensures none { (role : Role) (t : Trace Entry) → EndStands C.stands C.left C.condition P.stands P.left P.condition self.old role t → is_attached link (acts role t) ≡ false → (result ≡ None) × (self.new ≡ self.old) }
        ensures bound { IfSome result (λ n. n ≤ 1232) }
        ensures rest { drop (written result) out.new ≡ drop (written result) out.old }
        ensures laws { KeepsLaws C.law P.law self.old self.new }
    {
        match link {
            Kind::Reliable => self.poll_reliable(now, out),
            Kind::Lossy => self.poll_lossy(now, out),
        }
    }
}
