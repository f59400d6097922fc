//! The receiving half of the machine: the window of parts, the transmissions seen, the floor, and
//! the tellings owed.

ghost use Rattle.std.specs.Prelude.{◌≡◌, ◌+◌, ◌-◌, ◌<◌, ◌≤◌, ◌^◌, ◌++◌, ◌∷◌, [], ℕ, List, Option, Some, None, length, take, drop, replicate, max, min, true, if◌then◌else◌, IfOk, IfSome, option_map};
ghost use Rattle.mt_base.specs.Nearness.{nearest};
ghost use Rattle.mt_windows.specs.Arrived.{passed};
ghost use Rattle.mt_windows.specs.ArrivedView.{left_of};
ghost use Rattle.carrier.specs.Layout.{Received, Shown, Carries, Dummy, bounded};
ghost use Rattle.carrier.specs.Receiving.{floor_read, last_part, last_seen, last_told, part_read, transmission_read, receives, owes, floor_of, floor_shown};
ghost use Rattle.carrier.specs.Due.{is_pressing};
ghost use Rattle.carrier.specs.Law.{answer_load};
ghost use Rattle.link_machine.specs.MachineView.{tells_beside};
ghost use Rattle.link_machine.specs.ReceiverView.{Hears, Fits, both, layout_in, load_of, nothing, owed_with, pressing_from, received_with};

use crate::config::ReceiverConfig;
use crate::load::Load;
use crate::numbers::Numbers;
use crate::wire::{Got, WireLayout, tells_parts};
use carrier::{Reason, Took, WITH_TELLING};
use mt_base::{NoMemory, near};
use mt_windows::{Accept, DATAGRAM, NUMBERS, PART, ReceiveWindow, Seen};
use std::alloc::Global;
use std::marker::{Model, PhantomData};

/// What was received, and what is to be told of it.
#[derive(Drop)]
pub struct Receiver<L: WireLayout> {
    config: ReceiverConfig,
    window: ReceiveWindow<L::Width>,
    seen: Seen<L::Width>,
    /// The greatest transmission that was seen.
    last: Option<u64>,
    floor: u64,
    owed: u32,
    since: u64,
    layout: PhantomData<L>,
}

impl<L: WireLayout> Model for Receiver<L> {
    ghost use Rattle.link_machine.specs.ReceiverView.{Receiver as Half, IsSoundIn};

    ghost Value = { Half };

    ghost view = { λ r. record { config = r.config; inbox = r.window; marks = r.seen; last = r.last; floor = r.floor; owed = r.owed; since = r.since } };

    ghost invariant = { λ r. IsSoundIn (record { config = r.config; inbox = r.window; marks = r.seen; last = r.last; floor = r.floor; owed = r.owed; since = r.since }) };
}

impl<L: WireLayout> Receiver<L> {
    /// A half that received nothing.
    pub fn new(alloc: Global, config: ReceiverConfig) -> Result<Receiver<L>, NoMemory>
        requires from { 1 ≤ config.peer }
        requires below { config.peer ≤ 2 ^ 32 }
        requires delay { config.delay ≤ 200 }
        ensures stands { IfOk result (λ r. Hears r nothing 0 0 []) }
        ensures config { IfOk result (λ r. r.config ≡ config) }
        ensures left { IfOk result (λ r. left_of r.inbox ≡ []) }
    {
        let window = ReceiveWindow::new(alloc, config.peer)?;
        let seen = Seen::new(alloc, config.peer)?;
        Ok(Receiver {
            config,
            window,
            seen,
            last: None,
            floor: 0,
            owed: 0,
            since: 0,
            layout: PhantomData,
        })
    }

    /// Forgets everything, and is as a new one.
    pub fn restart(&mut self, config: ReceiverConfig)
        requires from { 1 ≤ config.peer }
        requires below { config.peer ≤ 2 ^ 32 }
        requires delay { config.delay ≤ 200 }
        ensures stands { Hears self.new nothing 0 0 [] }
        ensures config { self.new.config ≡ config }
        ensures left { left_of self.new.inbox ≡ [] }
    {
        self.config = config;
        self.window.restart(config.peer);
        self.seen.restart(config.peer);
        self.last = None;
        self.floor = 0;
        self.owed = 0;
        self.since = 0;
    }

    /// The same memory for a half of another layout. Everything is forgotten.
    pub fn renewed<M: WireLayout>(self, config: ReceiverConfig) -> Receiver<M>
        requires from { 1 ≤ config.peer }
        requires below { config.peer ≤ 2 ^ 32 }
        requires delay { config.delay ≤ 200 }
        ensures stands { Hears result nothing 0 0 [] }
        ensures config { result.config ≡ config }
        ensures left { left_of result.inbox ≡ [] }
    {
        Receiver {
            config,
            window: self.window.renewed(config.peer),
            seen: self.seen.renewed(config.peer),
            last: None,
            floor: 0,
            owed: 0,
            since: 0,
            layout: PhantomData,
        }
    }

    /// Makes so many tellings more owed, from this moment on.
    pub fn owe(&mut self, count: u32, at: u64)
        requires { at < 2 ^ 62 }
        ensures stands { (got : Received) (n floor : ℕ) (owed : List ℕ) →
            Hears self.old got n floor owed →
            Hears self.new got n floor (owed ++ replicate count at) }
        ensures config { self.new.config ≡ self.old.config }
        ensures inbox { self.new.inbox ≡ self.old.inbox }
    {
        if count == 0 {
            return;
        }
        if self.owed == 0 {
            self.since = at;
        }
        self.owed = self.owed.saturating_add(count).min(2);
    }

    /// Notes a transmission as seen at this moment, which makes a telling owed.
    fn note(&mut self, transmission: u64, at: u64)
        requires number { transmission < 2 ^ 62 }
        requires moment { at < 2 ^ 62 }
        ensures stands { (got : Received) (n floor : ℕ) (owed : List ℕ) →
            Hears self.old got n floor owed →
            Hears self.new (record { parts = got.parts; seen = transmission ∷ got.seen }) n floor (owed ++ at ∷ []) }
        ensures config { self.new.config ≡ self.old.config }
        ensures inbox { self.new.inbox ≡ self.old.inbox }
    {
        self.seen.note(transmission);
        self.last = Some(transmission.max(self.last.unwrap_or(0)));
        self.owe(1, at);
    }

    /// The greatest transmission that was seen, or one less than the first.
    fn last_seen(&self) -> u64
        ensures last { (wait own : ℕ) (got : Received) (n floor : ℕ) (owed : List ℕ) →
            Hears self.now got n floor owed →
            result ≡ last_seen (layout_in L.wire self.now wait own) got }
        ensures bound { result ≤ 2 ^ 62 }
    {
        match self.last {
            Some(last) => last,
            None => self.config.peer - 1,
        }
    }

    /// The greatest part that was accepted, or one less than the first.
    fn last_part(&self) -> u64
        ensures last { (wait own : ℕ) (got : Received) (n floor : ℕ) (owed : List ℕ) →
            Hears self.now got n floor owed →
            result ≡ last_part (layout_in L.wire self.now wait own) got }
    {
        match self.window.greatest() {
            Some(part) => part,
            None => self.config.peer - 1,
        }
    }

    /// The greatest number that is told as received.
    fn last_told(&self) -> u64
        ensures last { (wait own : ℕ) (got : Received) (n floor : ℕ) (owed : List ℕ) →
            Hears self.now got n floor owed →
            result ≡ last_told (layout_in L.wire self.now wait own) got }
    {
        if tells_parts::<L>() {
            self.last_part()
        } else {
            self.last_seen()
        }
    }

    /// The transmission that has this low part; where parts are told it is not looked at.
    fn transmission(&self, low: u64) -> Option<u64>
        requires { low < L.Width.MODULUS }
        ensures read { (wait own : ℕ) (got : Received) (n floor : ℕ) (owed : List ℕ) →
            Hears self.now got n floor owed →
            result ≡ transmission_read (layout_in L.wire self.now wait own) got low }
        ensures bound { IfSome result (λ n. n < 2 ^ 62) }
    {
        if tells_parts::<L>() {
            Some(self.config.peer)
        } else {
            read::<L>(self.last_seen(), low)
        }
    }

    /// The floor that has this low part.
    fn floor(&self, low: u64) -> Option<u64>
        requires { low < L.Width.MODULUS }
        ensures read { (wait own : ℕ) (got : Received) (n floor : ℕ) (owed : List ℕ) →
            Hears self.now got n floor owed →
            result ≡ floor_read (layout_in L.wire self.now wait own) got n low }
    {
        if tells_parts::<L>() {
            read::<L>(self.window.drained(), low)
        } else {
            read::<L>(self.last_seen(), low)
        }
    }

    /// The numbers of a part that have these low parts.
    fn numbers(&self, part: u64, transmission: u64) -> Option<Numbers>
        requires part { part < L.Width.MODULUS }
        requires transmission { transmission < L.Width.MODULUS }
        ensures read { (wait own : ℕ) (got : Received) (n floor : ℕ) (owed : List ℕ) →
            Hears self.now got n floor owed →
            let layout = layout_in L.wire self.now wait own in
            result ≡ both (part_read layout got n part) (transmission_read layout got transmission) }
        ensures part_bound { IfSome result (λ x. x.part < 2 ^ 62) }
        ensures transmission_bound { IfSome result (λ x. x.transmission < 2 ^ 62) }
    {
        let part = read::<L>(self.window.drained(), part)?;
        let transmission = self.transmission(transmission)?;
        Some(Numbers { part, transmission })
    }

    /// Takes a part by the low parts of its numbers.
    fn accept(&mut self, part: u64, transmission: u64, bytes: &[u8], at: u64) -> Took
        requires moment { at < 2 ^ 62 }
        requires fits { length bytes.now ≤ DATAGRAM }
        requires part { part < L.Width.MODULUS }
        requires transmission { transmission < L.Width.MODULUS }
        ensures answer { (wait own : ℕ) (got : Received) (n floor : ℕ) (owed : List ℕ) →
            Hears self.old got n floor owed →
            result ≡ answer_load (layout_in L.wire self.old wait own) got n (Carries part transmission bytes.now) }
        ensures stands { (wait own : ℕ) (got : Received) (n floor : ℕ) (owed : List ℕ) →
            let layout = layout_in L.wire self.old wait own in
            let load = Carries part transmission bytes.now in
            Hears self.old got n floor owed →
            Hears self.new (received_with layout got n load) n floor (owed_with layout got n load at owed) }
        ensures config { self.new.config ≡ self.old.config }
        ensures left { (more : List ℕ)
            × (left_of self.new.inbox ≡ left_of self.old.inbox ++ more) }
    {
        let Some(numbers) = self.numbers(part, transmission) else {
            return Took::Ignored(Reason::Unnumbered);
        };
        match self.window.accept(numbers.part, bytes) {
            Accept::Beyond { limit } => Took::Ignored(Reason::Beyond { limit }),
            Accept::New | Accept::Again => {
                self.note(numbers.transmission, at);
                Took::Used
            }
        }
    }

    /// Takes a transmission without a part by the low part of its number.
    fn pass(&mut self, transmission: u64, at: u64) -> Took
        requires moment { at < 2 ^ 62 }
        requires transmission { transmission < L.Width.MODULUS }
        ensures answer { (wait own : ℕ) (got : Received) (n floor : ℕ) (owed : List ℕ) →
            Hears self.old got n floor owed →
            result ≡ answer_load (layout_in L.wire self.old wait own) got n (Dummy transmission) }
        ensures stands { (wait own : ℕ) (got : Received) (n floor : ℕ) (owed : List ℕ) →
            let layout = layout_in L.wire self.old wait own in
            let load = Dummy transmission in
            Hears self.old got n floor owed →
            Hears self.new (received_with layout got n load) n floor (owed_with layout got n load at owed) }
        ensures config { self.new.config ≡ self.old.config }
        ensures inbox { self.new.inbox ≡ self.old.inbox }
    {
        let Some(transmission) = self.transmission(transmission) else {
            return Took::Ignored(Reason::Unnumbered);
        };
        self.note(transmission, at);
        Took::Used
    }

    /// Takes a floor, unless it is above what was received.
    fn raise(&mut self, floor: Option<u64>)
        ensures stands { (wait own : ℕ) (got : Received) (n old : ℕ) (owed : List ℕ) →
            Hears self.old got n old owed →
            Hears self.new got n (floor_of (last_told (layout_in L.wire self.old wait own) got) old floor) owed }
        ensures config { self.new.config ≡ self.old.config }
        ensures inbox { self.new.inbox ≡ self.old.inbox }
    {
        match floor {
            Some(floor) if floor <= self.last_told() => self.floor = floor,
            _ => {}
        }
    }

    /// Takes what a datagram carries and the floor that it shows, at this moment.
    pub fn take(&mut self, load: Load<'_>, floor: Option<u64>, at: u64) -> Took
        requires moment { at < 2 ^ 62 }
        requires fits { Fits L.Width.MODULUS load }
        requires low { IfSome floor (λ low. low < L.Width.MODULUS) }
        ensures answer { (wait own : ℕ) (got : Received) (n old : ℕ) (owed : List ℕ) →
            Hears self.old got n old owed →
            result ≡ answer_load (layout_in L.wire self.old wait own) got n (load_of load.entry) }
        ensures stands { (wait own : ℕ) (got : Received) (n old : ℕ) (owed : List ℕ) (shown : Shown) →
            shown.load ≡ load_of load.entry → shown.floor ≡ floor →
            let layout = layout_in L.wire self.old wait own in
            let after = receives layout got n (Some shown) in
            Hears self.old got n old owed →
            Hears self.new after n (floor_shown layout got n after old (Some shown))
            (if owes layout got n (Some shown) then owed ++ at ∷ [] else owed) }
        ensures config { self.new.config ≡ self.old.config }
        ensures left { (more : List ℕ)
            × (left_of self.new.inbox ≡ left_of self.old.inbox ++ more) }
    {
        let floor = match floor {
            Some(low) => self.floor(low),
            None => None,
        };
        let took = match load {
            Load::Empty => Took::Used,
            Load::Part {
                part,
                transmission,
                bytes,
            } => self.accept(part, transmission, bytes, at),
            Load::Dummy { transmission } => self.pass(transmission, at),
            Load::Correction => Took::Ignored(Reason::FecDropped),
        };
        self.raise(floor);
        took
    }

    /// Writes the next bytes in order to the front of `out`, as many as there are and fit.
    pub fn pull(&mut self, out: &mut [u8]) -> usize
        ensures count { result ≡ min (length out.old) (length (left_of self.old.inbox)) }
        ensures bytes { take result out.new ≡ take result (left_of self.old.inbox) }
        ensures rest { drop result out.new ≡ drop result out.old }
        ensures left { left_of self.new.inbox ≡ drop result (left_of self.old.inbox) }
        ensures next { (got : Received) (n floor : ℕ) (owed : List ℕ) →
            Hears self.old got n floor owed →
            left_of self.old.inbox ≡ drop n (passed got.parts) }
        ensures stands { (got : Received) (n floor : ℕ) (owed : List ℕ) →
            Hears self.old got n floor owed →
            Hears self.new got (n + result) floor owed }
        ensures config { self.new.config ≡ self.old.config }
    {
        self.window.pull(out)
    }

    /// Whether a telling has to be sent alone at this moment: two are owed, or one is for as long as
    /// it may be.
    pub fn ack_is_due(&self, at: u64) -> bool
        ensures { (wait own : ℕ) (got : Received) (n floor : ℕ) (owed : List ℕ) →
            Hears self.now got n floor owed →
            result ≡ is_pressing (layout_in L.wire self.now wait own) owed at }
    {
        self.owed == 2 || (self.owed == 1 && self.since + self.config.delay <= at)
    }

    /// The moment from which on a telling has to be sent alone; `None` where none is owed.
    pub fn ack_deadline(&self) -> Option<u64>
        ensures { (got : Received) (n floor : ℕ) (owed : List ℕ) →
            Hears self.now got n floor owed →
            result ≡ pressing_from self.now.config.delay owed }
    {
        match self.owed {
            0 => None,
            1 => Some(self.since + self.config.delay),
            _ => Some(0),
        }
    }

    /// Writes a datagram up to the bytes of its part: what was received, where it has to be told or no
    /// part is carried; the floor; and the numbers of the part. Gives its length.
    pub fn head(
        &mut self,
        above: Option<u64>,
        numbers: Option<Numbers>,
        out: &mut [u8; 1232],
    ) -> usize
        ensures bound { result + PART ≤ WITH_TELLING }
        ensures text { (got : Received) (n floor : ℕ) (owed : List ℕ) →
            Hears self.old got n floor owed →
            let text = L.wire.head (L.wire.told self.old.config.peer got floor) (tells_beside numbers owed) above numbers in
            (result ≡ length text) × (out.new ≡ text ++ drop result out.old) }
        ensures rest { drop result out.new ≡ drop result out.old }
        ensures stands { (got : Received) (n floor : ℕ) (owed : List ℕ) →
            Hears self.old got n floor owed →
            Hears self.new got n floor (if tells_beside numbers owed then [] else owed) }
        ensures config { self.new.config ≡ self.old.config }
        ensures inbox { self.new.inbox ≡ self.old.inbox }
    {
        let tells = numbers.is_none() || self.owed > 0;
        let got = Got {
            window: &self.window,
            seen: &self.seen,
            peer: self.config.peer,
            floor: self.floor,
        };
        let length = L::head(&got, tells, above, numbers, out);
        if tells {
            self.owed = 0;
        }
        length
    }
}

/// The number near a reference that has this low part.
fn read<L: WireLayout>(reference: u64, low: u64) -> Option<u64>
    requires low { low < L.Width.MODULUS }
    requires reference { reference ≤ 2 ^ 62 }
    ensures read { result ≡ bounded (2 ^ 62) (nearest L.wire.modulus reference low) }
    ensures bound { IfSome result (λ n. n < 2 ^ 62) }
{
    match near::<L::Width>(reference, low) {
        Some(number) if number < NUMBERS => Some(number),
        _ => None,
    }
}
