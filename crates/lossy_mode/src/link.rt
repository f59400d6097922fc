//! The link.

ghost use Rattle.std.specs.Prelude.{◌≡◌, ◌+◌, ◌<◌, ◌≤◌, ◌^◌, ◌++◌, ◌==◌, [], ℕ, List, Some, None, true, if◌then◌else◌, is_some, nat_lt, replicate, take, drop, option_map, IfOk, IfSome};
ghost use Rattle.mt_base.specs.declared.kinds.Kind.TheVariants.{Lossy as IsLossy};
ghost use Rattle.mt_base.specs.Trace.{Trace, Start, ◌▷◌};
ghost use Rattle.carrier.specs.declared.state.Took.{Took as TookValue};
ghost use Rattle.carrier.specs.declared.state.Took.TheVariants.{Ignored};
ghost use Rattle.carrier.specs.declared.state.Reason.TheVariants as reason;
ghost use Rattle.carrier.specs.Entries.{Entry, In};
ghost use Rattle.carrier.specs.Layout.{Refuses};
ghost use Rattle.udp_open.specs.declared.agreement.Agreement.{Agreement};
ghost use Rattle.udp_open.specs.Handshake.{opening_answered, row};
ghost use Rattle.udp_open.specs.LinkTrace.{has_syn};
ghost use Rattle.udp_open.specs.OpeningView.{Follows, IsFirst};
ghost use Rattle.carrier.specs.States.{written};
ghost use Rattle.lossy_mode.specs.Thin.{Got, owes, sent_by};
ghost use Rattle.lossy_mode.specs.LossyView.{Holds, OwesFor, StandsThin, owed_by, sends_part};

use crate::open_link::OpenLink;
use carrier::{EXPIRIES, LinkState, Post, PostRefusal, Took};
use mt_base::{NoMemory, Role};
use mt_windows::WINDOW;
use std::alloc::Global;
use std::marker::Model;
use udp_open::{OpenEnd, OpenSettings, Opening};

/// The version in which one telling may be owed longer (MS-RDPEUDP section 3.1.5).
const VERSION_1: u16 = 0x0001;

/// A lossy link over UDP: it opens by the handshake of MS-RDPEUDP section 3.1.5.1 with the flag
/// SYNLOSSY, and then sends each part once. Parts that are posted while it opens wait. It has no
/// socket and no clock, and takes all of its memory when it is made.
#[derive(Drop)]
pub struct LossyCore {
    opening: Opening,
    role: Role,
    link: OpenLink,
}

impl Model for LossyCore {
    ghost use Rattle.std.specs.Prelude.{◌≡◌};
    ghost use Rattle.lossy_mode.specs.LossyView.{Lossy};

    ghost Value = { Lossy };

    ghost view = { λ l. record { opening = l.opening; role = l.role; link = l.link } };

    ghost invariant = { λ l. l.role ≡ ((l.opening).settings).role };
}

impl LossyCore {
    /// A link that opens with these settings, whose kind is `Lossy` and whose version is 0x0001 or
    /// 0x0002.
    pub fn new(alloc: Global, settings: &OpenSettings) -> Result<LossyCore, NoMemory>
        requires kind { settings.now.kind ≡ IsLossy }
        requires version { IsFirst settings.now.version }
        ensures stands { IfOk result (λ l. StandsThin l Start) }
        ensures settings { IfOk result (λ l. l.opening.settings ≡ settings.now) }
        ensures left { IfOk result (λ l. l.link.arrivals.parts ≡ []) }
        ensures load { IfOk result (λ l. l.link.parts ≡ []) }
    {
        let link = OpenLink::new(alloc, first_number(settings.initial))?;
        Ok(LossyCore {
            opening: Opening::new(settings),
            role: settings.role,
            link,
        })
    }

    /// Lets the time of the opening pass: bytes that are no packet have no other effect on it.
    fn pass(&mut self, now: u64)
        requires { now < 2 ^ 62 }
        ensures follows { (t : Trace Entry) → Follows self.old.opening t →
            (first : TookValue) × Follows self.new.opening (t ▷ In now [] first) }
        ensures settings { self.new.opening.settings ≡ self.old.opening.settings }
        ensures stays { (a : Agreement) → self.old.opening.agreement ≡ Some a → self.new.opening.agreement ≡ Some a }
        ensures link { self.new.link ≡ self.old.link }
    {
        let _ = self.opening.input(now, &[]);
    }

    /// Takes a datagram by the opening. At a client the opening that it takes, and each copy of it,
    /// makes two tellings owed.
    fn hear(&mut self, now: u64, datagram: &[u8]) -> Took
        requires { now < 2 ^ 62 }
        ensures answer { (t : Trace Entry) → Follows self.old.opening t →
            result ≡ opening_answered self.old.opening.settings t datagram.now }
        ensures follows { (t : Trace Entry) → Follows self.old.opening t →
            Follows self.new.opening (t ▷ In now datagram.now result) }
        ensures owes { (owed : List ℕ) → OwesFor self.old.link.tellings owed →
            OwesFor self.new.link.tellings (owed_by result (owes self.old.opening.settings.role (Refuses reason.NotOurs)) self.old.link.moment owed) }
        ensures settings { self.new.opening.settings ≡ self.old.opening.settings }
        ensures stays { (a : Agreement) → self.old.opening.agreement ≡ Some a → self.new.opening.agreement ≡ Some a }
        ensures goes_on { self.new.opening.agreement ≡ None → self.new.opening.timer ≡ self.old.opening.timer }
        ensures silent { nat_lt 16 (row self.old.opening.timer) ≡ true →
            (self.new.opening.agreement ≡ self.old.opening.agreement) × (self.new.opening.timer ≡ self.old.opening.timer) × (result ≡ Ignored reason.LinkClosed) }
        ensures link { self.new.link ≡ record self.old.link { tellings = self.new.link.tellings } }
    {
        let took = self.opening.input(now, datagram);
        match took {
            Took::Used => self.owe_tellings(),
            Took::Ignored(_) => {}
        }
        took
    }

    /// Sends what an open link sends, at the last moment.
    fn send(&mut self, out: &mut [u8; 1232]) -> Option<usize>
        ensures bound { IfSome result (λ n. n ≤ 1232) }
        ensures rest { drop (written result) out.new ≡ drop (written result) out.old }
        ensures bytes { (g : Got) (n : ℕ) (owed : List ℕ) →
            Holds self.old.link.arrivals g n → OwesFor self.old.link.tellings owed →
            option_map (λ n. take n out.new) result ≡ sent_by self.old.opening.settings self.old.opening.agreement g owed self.old.link.next self.old.link.parts self.old.link.moment }
        ensures parts { self.new.link.parts ≡ (if sends_part self.old.opening.agreement self.old.link.parts self.old.link.arrivals.window self.old.link.next then drop 1 self.old.link.parts else self.old.link.parts) }
        ensures next { self.new.link.next ≡ (if sends_part self.old.opening.agreement self.old.link.parts self.old.link.arrivals.window self.old.link.next then self.old.link.next + 1 else self.old.link.next) }
        ensures owes { (owed : List ℕ) → OwesFor self.old.link.tellings owed →
            OwesFor self.new.link.tellings (if is_some result then [] else owed) }
        ensures others { self.new.link ≡ record self.old.link { parts = self.new.link.parts; next = self.new.link.next; tellings = self.new.link.tellings } }
        ensures opening { self.new.opening ≡ self.old.opening }
        ensures waits { self.old.opening.agreement ≡ None → result ≡ None }
    {
        match self.opening.end() {
            OpenEnd::Waiting => None,
            OpenEnd::Agreed {
                version,
                peer_initial,
            } => {
                let peer = first_number(peer_initial);
                self.link.send(peer, delay_of(version), out)
            }
        }
    }

    /// The tellings that an opening makes owed.
    fn owe_tellings(&mut self)
        ensures owes { (owed : List ℕ) → OwesFor self.old.link.tellings owed →
            OwesFor self.new.link.tellings (owed ++ replicate (owes self.old.opening.settings.role (Refuses reason.NotOurs)) self.old.link.moment) }
        ensures link { self.new.link ≡ record self.old.link { tellings = self.new.link.tellings } }
        ensures opening { self.new.opening ≡ self.old.opening }
    {
        match self.role {
            Role::Client => self.link.owe(2),
            Role::Server => self.link.owe(0),
        }
    }
}

/// Whether the datagram's flag SYN is set (MS-RDPEUDP section 2.2.2.1).
fn has_syn(datagram: &[u8]) -> bool
    ensures { result ≡ has_syn datagram.now }
{
    match datagram.get(7) {
        Some(flags) => flags % 2 == 1,
        None => false,
    }
}

/// The number of the first part of an end with this initial number.
fn first_number(initial: u32) -> u64
    ensures value { result ≡ initial + 1 }
    ensures bound { result ≤ 2 ^ 32 }
{
    u64::from(initial) + 1
}

/// How long one telling may be owed, in milliseconds.
fn delay_of(version: u16) -> u64
    ensures value { result ≡ (if version == 1 then 200 else 50) }
    ensures bound { result ≤ 200 }
{
    if version == VERSION_1 { 200 } else { 50 }
}

impl Post for LossyCore {
    ghost use Rattle.std.specs.Prelude.{length};
    ghost use Rattle.lossy_mode.specs.Thin.{IsNextDue, Thin};
    ghost use Rattle.lossy_mode.specs.LossyView.{StandsThin, condition_of};

    ghost stands = { λ l t. StandsThin l t };

    ghost law = { λ l t. Thin l.opening.settings t };

    ghost left = { λ l. l.link.arrivals.parts };

    ghost load = { λ l. length l.link.parts };

    ghost condition = { λ l. condition_of l };

    ghost next = { λ l t m. IsNextDue l.opening.settings t m };

    ghost keeps = { λ l t h. h.thin };

    fn post(&mut self, bytes: &[u8]) -> Result<(), PostRefusal> {
        if let LinkState::Closed { expiries } = self.state() {
            return Err(PostRefusal::Closed { expiries });
        }
        let queued = self.link.queued();
        if queued >= WINDOW as usize {
            return Err(PostRefusal::Full { queued });
        }
        self.link.push(bytes);
        Ok(())
    }

    fn next(&mut self, out: &mut [u8; 1232]) -> Option<usize> {
        self.link.hand_out(out)
    }

    fn input(&mut self, now: u64, datagram: &[u8]) -> Took {
        self.link.pass(now);
        match self.opening.end() {
            OpenEnd::Agreed { peer_initial, .. } if !has_syn(datagram) => {
                self.pass(now);
                self.link.take(first_number(peer_initial), datagram)
            }
            _ => self.hear(now, datagram),
        }
    }

    fn poll(&mut self, now: u64, out: &mut [u8; 1232]) -> Option<usize> {
        self.link.pass(now);
        match self.opening.poll(now, out) {
            Some(length) => Some(length),
            None => self.send(out),
        }
    }

    fn queued(&self) -> usize {
        self.link.queued()
    }

    fn next_due(&self) -> Option<u64> {
        let due = self.opening.next_due();
        match self.opening.end() {
            OpenEnd::Agreed { version, .. } if due.is_none() => {
                self.link.next_due(delay_of(version))
            }
            _ => due,
        }
    }

    fn state(&self) -> LinkState {
        let expiries = self.opening.expiries();
        match self.opening.end() {
            OpenEnd::Agreed { .. } => LinkState::Open,
            OpenEnd::Waiting if expiries > EXPIRIES => LinkState::Closed { expiries },
            OpenEnd::Waiting => LinkState::Opening,
        }
    }
}
