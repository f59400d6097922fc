//! The opening of a link.

ghost use Rattle.std.specs.Prelude.{ℕ, max, ◌≡◌, ◌-◌, ◌<◌, ◌≤◌, ◌^◌, List, true, not, nat_lt, Option, if◌then◌else◌, Some, None, Ok, take, drop, option_map, IfSome};
ghost use Rattle.mt_base.specs.declared.kinds.Role.TheVariants.{Client as IsClient};
ghost use Rattle.mt_base.specs.Trace.{Trace, Start, ◌▷◌};
ghost use Rattle.carrier.specs.declared.state.Took.{Took};
ghost use Rattle.carrier.specs.declared.state.Took.TheVariants.{Ignored};
ghost use Rattle.carrier.specs.declared.state.Reason.TheVariants.{LinkClosed};
ghost use Rattle.carrier.specs.Entries.{Entry, In, Polled};
ghost use Rattle.carrier.specs.Receiving.{has_effect};
ghost use Rattle.carrier.specs.States.{written};
ghost use Rattle.udp1_packets.specs.Layout.{spelled};
ghost use Rattle.udp_open.specs.declared.agreement.Agreement.{Agreement};
ghost use Rattle.udp_open.specs.declared.opening.OpenEnd.TheVariants.{Agreed as IsAgreed};
ghost use Rattle.udp_open.specs.LinkTrace.{has_syn, is_for_machine, is_low, is_no_packet, is_of_opening, is_syn_copy};
ghost use Rattle.udp_open.specs.Handshake.{agreed, expiries, hears, shown, row, is_closed, asked, is_time, started, owed_by, syn_ack, opening_answered, opening_due, IsNextDue};
ghost use Rattle.udp_open.specs.OpeningView.{IsOffered, IsTimer, Follows, StandsOpen, AnswersFirst, SendsFirst, end_of, after_asking, next_syn};

use crate::agreement::Agreement;
use crate::flags::{LOWEST_PREFIX, VERSION_3};
use crate::hearing::hear;
use crate::sending::{send_syn, send_syn_ack};
use crate::settings::OpenSettings;
use crate::timer::Timer;
use carrier::{Reason, Took};
use mt_base::Role;
use mt_windows::DATAGRAM;
use std::marker::Model;

/// What an opening came to.
#[derive(Clone, Copy, Debug, PartialEq, Eq)]
pub enum OpenEnd {
    /// The ends have not agreed yet.
    Waiting,
    /// They agreed on this version, and the other end has this initial number.
    Agreed { version: u16, peer_initial: u32 },
}

/// The opening of a link at one end (MS-RDPEUDP section 3.1.5.1): datagrams come in by `input` and
/// go out by `poll`. Moments are in milliseconds, and one below the last one given counts as the
/// last one. No call takes memory.
#[derive(Drop)]
pub struct Opening {
    settings: OpenSettings,
    moment: u64,
    agreement: Option<Agreement>,
    owed: u64,
    timer: Option<Timer>,
}

impl Model for Opening {
    ghost use Rattle.udp_open.specs.OpeningView.{Handshake, IsSound};

    ghost Value = { Handshake };

    ghost view = { λ o. record { settings = o.settings; moment = o.moment; agreement = o.agreement; owed = o.owed; timer = o.timer } };

    ghost invariant = { λ o. IsSound (record { settings = o.settings; moment = o.moment; agreement = o.agreement; owed = o.owed; timer = o.timer }) };
}

impl Opening {
    /// An opening by which nothing was sent or heard.
    pub fn new(settings: &OpenSettings) -> Opening
        requires { IsOffered settings.now.version }
        ensures stands { StandsOpen result Start }
        ensures settings { result.settings ≡ settings.now }
    {
        Opening {
            settings: *settings,
            moment: 0,
            agreement: None,
            owed: 0,
            timer: None,
        }
    }

    /// Takes a datagram that came at this moment, which is below 2^62.
    pub fn input(&mut self, now: u64, datagram: &[u8]) -> Took
        requires moment { now < 2 ^ 62 }
        ensures trace { (t : Trace Entry) → StandsOpen self.old t →
            StandsOpen self.new (t ▷ In now datagram.now result) }
        ensures answer { (t : Trace Entry) → Follows self.old t →
            result ≡ opening_answered self.old.settings t datagram.now }
        // LinkClosed is the answer exactly where the link is closed.
        ensures closed { (t : Trace Entry) → Follows self.old t →
            has_effect result ≡ not (is_closed self.old.settings t) }
        // A link of this opening may answer otherwise.
        ensures follows { (t : Trace Entry) (took : Took) → Follows self.old t →
            AnswersFirst result took → Follows self.new (t ▷ In now datagram.now took) }
        ensures settings { self.new.settings ≡ self.old.settings }
        // What was agreed on stays, and until then the timer goes on.
        ensures stays { (a : Agreement) → self.old.agreement ≡ Some a → self.new.agreement ≡ Some a }
        ensures goes_on { self.new.agreement ≡ None → self.new.timer ≡ self.old.timer }
        // A closed opening takes nothing.
        ensures silent { nat_lt 16 (row self.old.timer) ≡ true →
            (self.new.agreement ≡ self.old.agreement) × (self.new.timer ≡ self.old.timer) × (result ≡ Ignored LinkClosed) }
    {
        self.moment = self.moment.max(now);
        if self.is_closed() {
            return Took::Ignored(Reason::LinkClosed);
        }
        match hear(&self.settings, self.agreement, datagram) {
            Ok(agreement) => {
                self.agree(agreement);
                Took::Used
            }
            Err(reason) => Took::Ignored(reason),
        }
    }

    /// Writes the datagram that is due at this moment, which is below 2^62, to `out`, and gives its
    /// length, which is 1,232; `None` where nothing is due.
    pub fn poll(&mut self, now: u64, out: &mut [u8; 1232]) -> Option<usize>
        requires moment { now < 2 ^ 62 }
        ensures whole { IfSome result (λ n. n ≡ 1232) }
        ensures rest { drop (written result) out.new ≡ drop (written result) out.old }
        ensures trace { (t : Trace Entry) → StandsOpen self.old t →
            StandsOpen self.new (t ▷ Polled now (option_map (λ n. take n out.new) result)) }
        ensures due { (t : Trace Entry) → Follows self.old t →
            option_map (λ n. take n out.new) result ≡ opening_due self.old.settings t now }
        // A link of this opening may send something where this sends nothing.
        ensures follows { (t : Trace Entry) (out_after : Option (List ℕ)) → Follows self.old t →
            SendsFirst (option_map (λ n. take n out.new) result) out_after →
            Follows self.new (t ▷ Polled now out_after) }
        ensures settings { self.new.settings ≡ self.old.settings }
        ensures agreement { self.new.agreement ≡ self.old.agreement }
        // A closed opening sends nothing.
        ensures silent { self.old.agreement ≡ None → nat_lt 16 (row self.old.timer) ≡ true →
            (self.new.timer ≡ self.old.timer) × (result ≡ None) }
    {
        self.moment = self.moment.max(now);
        match (self.settings.role, self.agreement) {
            (Role::Client, None) => self.ask(out),
            (Role::Server, Some(agreement)) => self.answer(agreement, out),
            _ => None,
        }
    }

    /// Lets the time pass up to this moment, which is below 2^62.
    pub(crate) fn pass(&mut self, now: u64)
        requires { now < 2 ^ 62 }
        ensures { self.new ≡ record self.old { moment = max self.old.moment now } }
    {
        self.moment = self.moment.max(now);
    }

    /// The last moment.
    pub(crate) fn moment(&self) -> u64
        ensures value { result ≡ self.now.moment }
        ensures bound { result < 2 ^ 62 }
    {
        self.moment
    }

    /// Which end opens the link.
    pub(crate) fn role(&self) -> Role
        ensures { result ≡ self.now.settings.role }
    {
        self.settings.role
    }

    /// The initial number of this end.
    pub(crate) fn initial(&self) -> u32
        ensures { result ≡ self.now.settings.initial }
    {
        self.settings.initial
    }

    /// Whether a datagram that comes to the open link is one of its opening. In versions 0x0001 and
    /// 0x0002 each with the flag SYN is, in version 0x0101 a copy of the SYN at a server alone.
    pub(crate) fn is_of_opening(&self, datagram: &[u8]) -> bool
        ensures { (a : Agreement) → self.now.agreement ≡ Some a →
            result ≡ is_of_opening self.now.settings a datagram.now }
    {
        match self.agreement {
            Some(agreement) if agreement.version == VERSION_3 => self.is_syn_copy(datagram),
            _ => has_syn(datagram),
        }
    }

    /// Whether the machine of the open link takes a datagram: one that is none of the opening and, in
    /// version 0x0101, may be a packet by its byte at 7 (MS-RDPEUDP2 section 2.2).
    pub(crate) fn is_for_machine(&self, datagram: &[u8]) -> bool
        ensures { (a : Agreement) → self.now.agreement ≡ Some a →
            result ≡ is_for_machine self.now.settings a datagram.now }
    {
        !(self.is_of_opening(datagram) || self.is_no_packet(datagram))
    }

    /// Whether a datagram can't be a packet in the version of the open link, by its byte at 7.
    fn is_no_packet(&self, datagram: &[u8]) -> bool
        ensures { (a : Agreement) → self.now.agreement ≡ Some a → result ≡ is_no_packet a datagram.now }
    {
        match self.agreement {
            Some(agreement) if agreement.version == VERSION_3 => is_low(datagram),
            _ => false,
        }
    }

    /// Whether a datagram is a copy of the SYN that a server took.
    fn is_syn_copy(&self, datagram: &[u8]) -> bool
        ensures { result ≡ is_syn_copy self.now.settings.role
            (hears self.now.settings self.now.agreement (shown datagram.now)) }
    {
        match self.settings.role {
            Role::Server => hear(&self.settings, self.agreement, datagram).is_ok(),
            Role::Client => false,
        }
    }

    /// Whether a SYN+ACK is owed.
    pub(crate) fn owes(&self) -> bool
        ensures { result ≡ nat_lt 0 self.now.owed }
    {
        self.owed > 0
    }

    /// Keeps what the ends agreed on. A server owes one SYN+ACK more.
    fn agree(&mut self, agreement: Agreement)
        requires offered { IsOffered agreement.version }
        requires lower { agreement.version ≤ self.old.settings.version }
        ensures { self.new ≡ record self.old { agreement = Some agreement; timer = None; owed = owed_by self.old.settings.role self.old.owed (Ok agreement) } }
    {
        self.agreement = Some(agreement);
        self.timer = None;
        match self.settings.role {
            Role::Server => self.owed = self.owed.saturating_add(1),
            Role::Client => (),
        }
    }

    /// Writes the SYN of a client where it is time to send it.
    fn ask(&mut self, out: &mut [u8; 1232]) -> Option<usize>
        requires { self.old.settings.role ≡ IsClient }
        ensures whole { IfSome result (λ n. n ≡ 1232) }
        ensures rest { drop (written result) out.new ≡ drop (written result) out.old }
        ensures bytes { option_map (λ n. take n out.new) result ≡
            option_map spelled (asked self.old.settings self.old.timer self.old.moment) }
        ensures value { self.new ≡ after_asking self.old }
    {
        if !self.is_time() {
            return None;
        }
        let timer = self.started();
        self.timer = Some(timer);
        if timer.is_over() {
            return None;
        }
        send_syn(&self.settings, out);
        Some(DATAGRAM)
    }

    /// Whether it is time for a SYN: for the first time, or at an expiry.
    fn is_time(&self) -> bool
        ensures { result ≡ is_time self.now.timer self.now.moment }
    {
        match self.timer {
            Some(timer) => !timer.is_over() && timer.expiry() <= self.moment,
            None => true,
        }
    }

    /// The timer of a SYN that is sent at the last moment.
    fn started(&self) -> Timer
        requires { is_time self.now.timer self.now.moment ≡ true }
        ensures value { result ≡ started self.now.timer self.now.moment }
        ensures sound { IsTimer result }
    {
        Timer {
            start: self.moment,
            expiries: match self.timer {
                Some(timer) => timer.expiries + 1,
                None => 0,
            },
        }
    }

    /// Writes a SYN+ACK of a server where one is owed.
    fn answer(&mut self, agreement: Agreement, out: &mut [u8; 1232]) -> Option<usize>
        requires { IsOffered agreement.version }
        ensures whole { IfSome result (λ n. n ≡ 1232) }
        ensures rest { drop (written result) out.new ≡ drop (written result) out.old }
        ensures bytes { option_map (λ n. take n out.new) result ≡
            (if nat_lt 0 self.old.owed then Some (spelled (syn_ack self.old.settings agreement))
            else None) }
        ensures value { self.new ≡ record self.old { owed = self.old.owed - 1 } }
    {
        if self.owed == 0 {
            return None;
        }
        self.owed -= 1;
        send_syn_ack(&self.settings, agreement, out);
        Some(DATAGRAM)
    }

    /// What the ends agreed on.
    pub fn end(&self) -> OpenEnd
        ensures trace { (t : Trace Entry) → Follows self.now t →
            result ≡ end_of (agreed self.now.settings t) }
        ensures value { result ≡ end_of self.now.agreement }
        ensures offered { (version peer : ℕ) → result ≡ IsAgreed version peer → IsOffered version }
        // It is not above the version that this end offers.
        ensures lower { (version peer : ℕ) → result ≡ IsAgreed version peer →
            version ≤ self.now.settings.version }
    {
        match self.agreement {
            Some(agreement) => OpenEnd::Agreed {
                version: agreement.version,
                peer_initial: agreement.peer_initial,
            },
            None => OpenEnd::Waiting,
        }
    }

    /// How many expiries came in a row while the SYN was not answered. At 17 the link is closed for
    /// good.
    pub fn expiries(&self) -> u32
        ensures trace { (t : Trace Entry) → Follows self.now t →
            result ≡ expiries self.now.settings t }
        ensures value { result ≡ row self.now.timer }
    {
        match self.timer {
            Some(timer) => timer.expiries,
            None => 0,
        }
    }

    /// Whether the link is closed.
    fn is_closed(&self) -> bool
        ensures { result ≡ nat_lt 16 (row self.now.timer) }
    {
        match self.timer {
            Some(timer) => timer.is_over(),
            None => false,
        }
    }

    /// The moment at which a client whose SYN is not answered sends it or closes.
    fn next_syn(&self) -> Option<u64>
        ensures { result ≡ next_syn self.now.timer self.now.moment }
    {
        match self.timer {
            Some(timer) if timer.is_over() => None,
            Some(timer) => Some(timer.expiry().max(self.moment)),
            None => Some(self.moment),
        }
    }

    /// The least moment, from the last one on, at which `poll` would give a datagram or close the
    /// link if no other call came; `None` where there is none.
    pub fn next_due(&self) -> Option<u64>
        ensures { (t : Trace Entry) → Follows self.now t →
            IsNextDue self.now.settings t result }
    {
        match (self.settings.role, self.agreement) {
            (Role::Client, None) => self.next_syn(),
            (Role::Server, Some(_)) if self.owed > 0 => Some(self.moment),
            _ => None,
        }
    }
}

/// Whether the datagram's flag SYN is set (MS-RDPEUDP section 2.2.2.1).
fn has_syn(datagram: &[u8]) -> bool
    ensures { result ≡ has_syn datagram.now }
{
    match datagram.get(7) {
        Some(flags) => flags % 2 == 1,
        None => false,
    }
}

/// Whether a datagram has at 7 a byte below 0x40, which is no prefix byte of the second layout
/// (MS-RDPEUDP2 section 2.2).
fn is_low(datagram: &[u8]) -> bool
    ensures { result ≡ is_low datagram.now }
{
    8 <= datagram.len() && datagram.len() <= DATAGRAM && datagram[7] < LOWEST_PREFIX
}
