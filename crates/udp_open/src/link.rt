//! A link that opens, and then goes on as a machine.

ghost use Rattle.std.specs.Prelude.{◌≡◌, ◌+◌, ◌<◌, ◌≤◌, ◌^◌, ◌++◌, ◌%◌, ◌==◌, [], ℕ, List, Option, Some, None, true, false, max, length, get_or, option_map, take, drop, IfOk, IfSome, IsSome, OnOk, OnErr, nat_lt, nat_le, nat_eq, bit_and, is_some};
ghost use Rattle.carrier.specs.States.{give_answer, written};
ghost use Rattle.mt_base.specs.declared.kinds.Role.TheVariants.{Client as IsClient};
ghost use Rattle.mt_base.specs.Trace.{Trace, Start, ◌▷◌};
ghost use Rattle.mt_windows.specs.ArrivedView.{left_of};
ghost use Rattle.mt_windows.specs.SendingView.{queued_of};
ghost use Rattle.carrier.specs.declared.state.LinkState.TheVariants.{Open, Closed as IsClosed};
ghost use Rattle.carrier.specs.declared.state.Took.TheVariants.{Ignored};
ghost use Rattle.carrier.specs.declared.state.Reason.TheVariants as reason;
ghost use Rattle.carrier.specs.Entries.{Entry, Gave, In, Polled, Owed, given};
ghost use Rattle.carrier.specs.Law.{IsBytes};
ghost use Rattle.link_core.specs.CoreView.{Stands, layout_of, link_layout, condition_of};
ghost use Rattle.udp_open.specs.OpeningView.{IsOffered, end_of};
ghost use Rattle.udp_open.specs.LinkTrace.{LinkFaithful, begins, with_entries, is_of_opening, tellings};
ghost use Rattle.udp_open.specs.OfTrace.{queued_after};
ghost use Rattle.udp_open.specs.LinkView.{StandsLink, gives, condition_in, left_in, load_in, IsNextDueIn, is_closed_state};

use crate::opening::{OpenEnd, Opening};
use crate::settings::OpenSettings;
use carrier::{Carrier, GiveRefusal, LinkState, Reason, Refusal2, Took};
use link_core::LinkCore;
use mt_base::{NoMemory, Role};
use std::alloc::Global;
use std::marker::Model;

/// Expiries in a row that an opening survives.
const EXPIRIES: u32 = 16;

/// A reliable link over UDP: it opens by the handshake of MS-RDPEUDP section 3.1.5.1, and then goes
/// on in the version that its ends agreed on. Bytes that are given while it opens wait. It has no
/// socket and no clock, and takes all of its memory when it is made.
#[derive(Drop)]
pub struct UdpLink {
    opening: Opening,
    core: LinkCore,
}

impl Model for UdpLink {
    ghost use Rattle.udp_open.specs.LinkView.{Link, IsSoundLink};

    ghost Value = { Link };

    ghost view = { λ l. record { opening = l.opening; core = l.core } };

    ghost invariant = { λ l. IsSoundLink (record { opening = l.opening; core = l.core }) };
}

impl UdpLink {
    /// A link that opens with these settings, whose version is 0x0001, 0x0002 or 0x0101.
    pub fn new(alloc: Global, settings: &OpenSettings) -> Result<UdpLink, NoMemory>
        requires { IsOffered settings.now.version }
        ensures stands { IfOk result (λ l. StandsLink l Start) }
        ensures settings { IfOk result (λ l. l.opening.settings ≡ settings.now) }
        ensures left { IfOk result (λ l. left_in l ≡ []) }
        ensures load { IfOk result (λ l. load_in l ≡ 0) }
    {
        let core = LinkCore::new(alloc, 0, 0, settings.version)?;
        Ok(UdpLink {
            opening: Opening::new(settings),
            core,
        })
    }

    /// Starts the machine in the version that was agreed on, with the bytes that were given while the
    /// link opened.
    fn begin(&mut self, version: u16, peer_initial: u32)
        requires { IsOffered version }
        ensures stands { (t : Trace Entry) → Stands self.old.core (gives t) → IsBytes (given t) →
            Stands self.new.core (with_entries Start (begins self.old.opening.settings.role (given t))) }
        ensures layout { layout_of self.new.core ≡ link_layout self.old.opening.settings.initial peer_initial version }
        ensures left { left_of self.new.core.machine.receiver.inbox ≡ [] }
        ensures queued { queued_of self.new.core.machine.sender.outbox ≤ queued_of self.old.core.machine.sender.outbox }
        ensures open { condition_of self.new.core ≡ Open }
        ensures opening { self.new.opening ≡ self.old.opening }
    {
        self.core
            .start_with_queue(self.opening.initial(), peer_initial, version);
        self.owe_tellings();
    }

    /// A client that took a SYN+ACK, or a copy of it, owes two tellings.
    fn owe_tellings(&mut self)
        ensures stands { (t : Trace Entry) → Stands self.old.core t →
            Stands self.new.core (with_entries t (tellings self.old.opening.settings.role)) }
        ensures layout { layout_of self.new.core ≡ layout_of self.old.core }
        ensures left { left_of self.new.core.machine.receiver.inbox ≡ left_of self.old.core.machine.receiver.inbox }
        ensures queued { queued_of self.new.core.machine.sender.outbox ≡ queued_of self.old.core.machine.sender.outbox }
        ensures state { condition_of self.new.core ≡ condition_of self.old.core }
        ensures opening { self.new.opening ≡ self.old.opening }
    {
        match self.opening.role() {
            Role::Client => self.core.owe(2),
            Role::Server => (),
        }
    }

    /// Takes a datagram while the link opens.
    fn input_opening(&mut self, now: u64, datagram: &[u8]) -> Took
        requires moment { now < 2 ^ 62 }
        requires opens { self.old.opening.agreement ≡ None }
        ensures trace { (t : Trace Entry) → StandsLink self.old t →
            StandsLink self.new (t ▷ In now datagram.now result) }
        ensures settings { self.new.opening.settings ≡ self.old.opening.settings }
        ensures left { left_in self.new ≡ [] }
        ensures load { load_in self.new ≤ load_in self.old }
        ensures stays_closed { (e : ℕ) → condition_in self.old ≡ IsClosed e →
            (condition_in self.new ≡ IsClosed e) × (result ≡ Ignored reason.LinkClosed) }
        ensures stays_open { (e : ℕ) → condition_in self.new ≡ IsClosed e → condition_in self.old ≡ IsClosed e }
    {
        let took = self.opening.input(now, datagram);
        match self.opening.end() {
            OpenEnd::Waiting => (),
            OpenEnd::Agreed {
                version,
                peer_initial,
            } => self.begin(version, peer_initial),
        }
        took
    }

    /// Takes a datagram where the link is open.
    fn input_open(&mut self, now: u64, datagram: &[u8]) -> Took
        requires moment { now < 2 ^ 62 }
        requires opens { IsSome self.old.opening.agreement }
        ensures trace { (t : Trace Entry) → StandsLink self.old t →
            StandsLink self.new (t ▷ In now datagram.now result) }
        ensures settings { self.new.opening.settings ≡ self.old.opening.settings }
        ensures left { (more : List ℕ) × (left_in self.new ≡ left_in self.old ++ more) }
        ensures load { load_in self.new ≤ load_in self.old }
        ensures stays_closed { (e : ℕ) → condition_in self.old ≡ IsClosed e →
            (condition_in self.new ≡ IsClosed e) × (result ≡ Ignored reason.LinkClosed) }
        ensures stays_open { (e : ℕ) → condition_in self.new ≡ IsClosed e → condition_in self.old ≡ IsClosed e }
    {
        if self.opening.is_for_machine(datagram) {
            self.opening.pass(now);
            return self.core.input(self.opening.moment(), datagram);
        }
        if self.is_closed() {
            self.opening.pass(now);
            return Took::Ignored(Reason::LinkClosed);
        }
        if !self.opening.is_of_opening(datagram) {
            self.opening.pass(now);
            return Took::Ignored(Reason::Second(Refusal2::ShortLength { at: 0 }));
        }
        let took = self.opening.input(now, datagram);
        match took {
            Took::Used => self.owe_tellings(),
            Took::Ignored(_) => (),
        }
        took
    }

    /// Sends where the link is open.
    fn poll_open(&mut self, now: u64, out: &mut [u8; 1232]) -> Option<usize>
        requires moment { now < 2 ^ 62 }
        requires opens { IsSome self.old.opening.agreement }
        ensures bound { IfSome result (λ n. n ≤ 1232) }
        ensures rest { drop (written result) out.new ≡ drop (written result) out.old }
        ensures trace { (t : Trace Entry) → StandsLink self.old t →
            StandsLink self.new (t ▷ Polled now (option_map (λ n. take n out.new) result)) }
        ensures settings { self.new.opening.settings ≡ self.old.opening.settings }
        ensures left { left_in self.new ≡ left_in self.old }
        ensures load { load_in self.new ≤ load_in self.old }
        ensures stays_closed { (e : ℕ) → condition_in self.old ≡ IsClosed e →
            (condition_in self.new ≡ IsClosed e) × (result ≡ None) }
    {
        if !self.opening.owes() {
            self.opening.pass(now);
            return self.core.poll(self.opening.moment(), out);
        }
        if self.is_closed() {
            self.opening.pass(now);
            return None;
        }
        self.opening.poll(now, out)
    }

    /// Keeps bytes while the link opens.
    fn keep(&mut self, bytes: &[u8]) -> Result<(), GiveRefusal>
        requires opens { self.old.opening.agreement ≡ None }
        ensures answer { result ≡ give_answer (condition_in self.old) (load_in self.old) (length bytes.now) }
        ensures trace { OnOk result ((t : Trace Entry) → StandsLink self.old t → StandsLink self.new (t ▷ Gave bytes.now)) }
        ensures settings { self.new.opening ≡ self.old.opening }
        ensures load { OnOk result (load_in self.new ≡ load_in self.old + length bytes.now) }
        ensures unchanged { OnErr result (self.new ≡ self.old) }
    {
        let expiries = self.opening.expiries();
        if expiries > EXPIRIES {
            return Err(GiveRefusal::Closed { expiries });
        }
        self.core.give(bytes)
    }

    /// What the link is while it opens.
    fn state_opening(&self) -> LinkState
        requires { self.now.opening.agreement ≡ None }
        ensures { result ≡ condition_in self.now }
    {
        let expiries = self.opening.expiries();
        if expiries > EXPIRIES {
            return LinkState::Closed { expiries };
        }
        LinkState::Opening
    }

    /// When something is sent or the link is closed, where the link is open.
    fn next_open(&self) -> Option<u64>
        requires { IsSome self.now.opening.agreement }
        ensures { (t : Trace Entry) → StandsLink self.now t → IsNextDueIn self.now.opening.settings t result }
    {
        if self.is_closed() {
            return None;
        }
        if self.opening.owes() {
            return self.opening.next_due();
        }
        match self.core.next_due() {
            Some(due) => Some(due.max(self.opening.moment())),
            None => None,
        }
    }

    /// Whether the machine of an open link is closed.
    fn is_closed(&self) -> bool
        ensures { result ≡ is_closed_state (condition_of self.now.core) }
    {
        matches!(self.core.state(), LinkState::Closed { .. })
    }
}

impl Carrier for UdpLink {
    ghost stands = { λ l t. StandsLink l t };

    ghost law = { λ l t. LinkFaithful l.opening.settings t };

    ghost left = { λ l. left_in l };

    ghost load = { λ l. load_in l };

    ghost condition = { λ l. condition_in l };

    ghost next = { λ l t m. IsNextDueIn l.opening.settings t m };

    fn input(&mut self, now: u64, datagram: &[u8]) -> Took {
        match self.opening.end() {
            OpenEnd::Waiting => self.input_opening(now, datagram),
            OpenEnd::Agreed { .. } => self.input_open(now, datagram),
        }
    }

    fn poll(&mut self, now: u64, out: &mut [u8; 1232]) -> Option<usize> {
        match self.opening.end() {
            OpenEnd::Waiting => self.opening.poll(now, out),
            OpenEnd::Agreed { .. } => self.poll_open(now, out),
        }
    }

    fn give(&mut self, bytes: &[u8]) -> Result<(), GiveRefusal> {
        match self.opening.end() {
            OpenEnd::Waiting => self.keep(bytes),
            OpenEnd::Agreed { .. } => self.core.give(bytes),
        }
    }

    fn pull(&mut self, out: &mut [u8]) -> usize {
        match self.opening.end() {
            OpenEnd::Waiting => 0,
            OpenEnd::Agreed { .. } => self.core.pull(out),
        }
    }

    fn queued(&self) -> usize
        ensures value { result ≡ load_in self.now }
        ensures history { (t : Trace Entry) → StandsLink self.now t → result ≡ queued_after self.now.opening.settings t }
    {
        self.core.queued()
    }

    fn next_due(&self) -> Option<u64> {
        match self.opening.end() {
            OpenEnd::Waiting => self.opening.next_due(),
            OpenEnd::Agreed { .. } => self.next_open(),
        }
    }

    fn state(&self) -> LinkState {
        match self.opening.end() {
            OpenEnd::Waiting => self.state_opening(),
            OpenEnd::Agreed { .. } => self.core.state(),
        }
    }

    ghost keeps = { λ l t h. h.faithful };
}
