//! The sending half of the machine: the window of parts, what the other end told, and the timer.

ghost use Rattle.std.specs.Prelude.{◌≡◌, ◌+◌, ◌-◌, ◌<◌, ◌≤◌, ◌^◌, ◌&&◌, ◌||◌, [], ℕ, Option, Some, None, true, All, length, take, drop, min, nat_le, is_some, if◌then◌else◌, IfOk, IfSome, OnOk, OnErr, Ok, Err, nat_lt, option_copied};
ghost use Rattle.mt_base.specs.Trace.{Trace, Start, ◌▷◌};
ghost use Rattle.mt_windows.specs.Sending.Act.{Gave, Cut, Resent};
ghost use Rattle.mt_windows.specs.Sending.{Act, queued, cuts, transmissions, next_piece, piece, lowest, lowest_or_next, settles_part, tells_part};
ghost use Rattle.mt_windows.specs.SendingView.{Sends, limits, queued_of, reach_of, next_transmission, is_unsettled, may_cut_of};
ghost use Rattle.carrier.specs.Layout.{Telling, Upto, tells, read_near};
ghost use Rattle.carrier.specs.Sending.{Timer, hears_telling, expiry, is_over, is_waiting, expires, settles, tell_all, told_reference, timer_told};
ghost use Rattle.carrier.specs.Due.{may_send, own_floor};
ghost use Rattle.link_machine.specs.declared.choice.Choice.TheVariants.{Silent as IsSilent, Again as IsAgain, Fresh as IsFresh};
ghost use Rattle.link_machine.specs.Wire.{telling_in};
ghost use Rattle.link_machine.specs.SenderView.{Speaks, layout_out, choice_at, timer_at, timer_begun, is_ready, next_expiry, again_part, first_choice};

use crate::choice::Choice;
use crate::config::SenderConfig;
use crate::numbers::Numbers;
use crate::told::Told;
use crate::wire::{WireLayout, tells_parts};
use carrier::{Clock, EXPIRIES};
use mt_base::NoMemory;
use mt_windows::{Full, NUMBERS, PART, QUEUE, SPAN, SendWindow, WINDOW};
use std::alloc::Global;
use std::marker::{Model, PhantomData};

/// What was sent and is not settled, and when it is sent again.
#[derive(Drop)]
pub struct Sender<L: WireLayout> {
    config: SenderConfig,
    window: SendWindow<L::Width>,
    /// The window that the other end told last.
    peer_window: u64,
    clock: Clock,
    layout: PhantomData<L>,
}

impl<L: WireLayout> Model for Sender<L> {
    ghost use Rattle.link_machine.specs.SenderView.{Sender as Half, IsSoundOut};

    ghost Value = { Half };

    ghost view = { λ s. record { config = s.config; outbox = s.window; peer_window = s.peer_window; timer = record { start = s.clock.start; expiries = s.clock.expiries } } };

    ghost invariant = { λ s. IsSoundOut (record { config = s.config; outbox = s.window; peer_window = s.peer_window; timer = record { start = s.clock.start; expiries = s.clock.expiries } }) };
}

impl<L: WireLayout> Sender<L> {
    /// A half that sent nothing.
    pub fn new(alloc: Global, config: SenderConfig) -> Result<Sender<L>, NoMemory>
        requires from { 1 ≤ config.own }
        requires below { config.own ≤ 2 ^ 32 }
        requires wait { config.wait ≤ 500 }
        ensures stands { IfOk result (λ s. Speaks s Start WINDOW (record { start = 0; expiries = 0 })) }
        ensures config { IfOk result (λ s. s.config ≡ config) }
        ensures queued { IfOk result (λ s. queued_of s.outbox ≡ 0) }
        ensures fresh { IfOk result (λ s. s.timer.expiries ≡ 0) }
    {
        let window = SendWindow::new(alloc, config.own)?;
        Ok(Sender {
            config,
            window,
            peer_window: WINDOW,
            clock: Clock {
                start: 0,
                expiries: 0,
            },
            layout: PhantomData,
        })
    }

    /// Forgets everything, and is as a new one.
    pub fn restart(&mut self, config: SenderConfig)
        requires from { 1 ≤ config.own }
        requires below { config.own ≤ 2 ^ 32 }
        requires wait { config.wait ≤ 500 }
        ensures stands { Speaks self.new Start WINDOW (record { start = 0; expiries = 0 }) }
        ensures config { self.new.config ≡ config }
        ensures queued { queued_of self.new.outbox ≡ 0 }
        ensures fresh { self.new.timer.expiries ≡ 0 }
    {
        self.config = config;
        self.window.restart(config.own);
        self.peer_window = WINDOW;
        self.clock = Clock {
            start: 0,
            expiries: 0,
        };
    }

    /// The same memory for a half of another layout. The bytes that wait are as given at its start;
    /// all else is forgotten.
    pub fn renewed<M: WireLayout>(self, config: SenderConfig) -> Sender<M>
        requires from { 1 ≤ config.own }
        requires below { config.own ≤ 2 ^ 32 }
        requires wait { config.wait ≤ 500 }
        ensures stands { Speaks result (Start ▷ Gave self.outbox.waiting) WINDOW (record { start = 0; expiries = 0 }) }
        ensures empty { self.outbox.waiting ≡ [] →
            Speaks result Start WINDOW (record { start = 0; expiries = 0 }) }
        ensures config { result.config ≡ config }
        ensures queued { queued_of result.outbox ≡ length self.outbox.waiting }
        ensures fresh { result.timer.expiries ≡ 0 }
    {
        Sender {
            config,
            window: self.window.renewed(config.own),
            peer_window: WINDOW,
            clock: Clock {
                start: 0,
                expiries: 0,
            },
            layout: PhantomData,
        }
    }

    /// How many bytes were given and are not in a settled part.
    pub fn queued(&self) -> usize
        ensures value { result ≡ queued_of self.now.outbox }
        ensures history { (acts : Trace Act) (told : ℕ) (timer : Timer) →
            Speaks self.now acts told timer → result ≡ queued limits acts }
    {
        self.window.queued()
    }

    /// Takes all of these bytes, or says how many are queued where they would pass the limit.
    pub fn give(&mut self, bytes: &[u8]) -> Result<(), Full>
        ensures answer { result ≡
            (if nat_lt QUEUE (queued_of self.old.outbox + length bytes.now)
            then Err (record { queued = queued_of self.old.outbox }) else Ok tt) }
        ensures stands { OnOk result ((acts : Trace Act) (told : ℕ) (timer : Timer) →
            Speaks self.old acts told timer →
            Speaks self.new (acts ▷ Gave bytes.now) told timer) }
        ensures queued { OnOk result (queued_of self.new.outbox ≡
            queued_of self.old.outbox + length bytes.now) }
        ensures config { self.new.config ≡ self.old.config }
        ensures timer { self.new.timer ≡ self.old.timer }
        ensures unchanged { OnErr result (self.new ≡ self.old) }
    {
        self.window.give(bytes)
    }

    /// How many expiries came in a row.
    pub fn expiries(&self) -> u32
        ensures { result ≡ self.now.timer.expiries }
    {
        self.clock.expiries
    }

    /// Whether more expiries came in a row than a link survives.
    pub fn is_closed(&self) -> bool
        ensures over { (delay peer : ℕ) →
            result ≡ is_over (layout_out L.wire self.now delay peer) self.now.timer }
        ensures value { result ≡ nat_lt EXPIRIES self.now.timer.expiries }
    {
        self.clock.is_over()
    }

    /// Takes what a datagram tells at this moment: the window of its sender, and what it received.
    pub fn hear(&mut self, window: u64, told: Told<'_>, at: u64)
        requires good { L.can_tell told }
        requires moment { at < 2 ^ 62 }
        ensures stands { (delay peer : ℕ) (acts : Trace Act) (last : ℕ) (timer : Timer) →
            Speaks self.old acts last timer →
            let layout = layout_out L.wire self.old delay peer in
            let after = hears_telling layout acts (telling_in L.wire.flags told.entry) in
            Speaks self.new after window (timer_told layout timer acts after at) }
        ensures config { self.new.config ≡ self.old.config }
        ensures queued { queued_of self.new.outbox ≤ queued_of self.old.outbox }
        ensures open { self.old.timer.expiries ≤ EXPIRIES → self.new.timer.expiries ≤ EXPIRIES }
    {
        self.peer_window = window;
        if L::settle(&mut self.window, told) {
            self.clock = Clock {
                start: at,
                expiries: 0,
            };
        }
    }

    /// Whether a part is unsettled.
    fn is_waiting(&self) -> bool
        ensures { (first : ℕ) (acts : Trace Act) → Sends self.now.outbox first acts →
            result ≡ is_some (lowest limits acts) }
    {
        self.window.lowest().is_some()
    }

    /// The moment at which the timer expires.
    fn expiry(&self) -> u64
        ensures exact { (delay peer : ℕ) →
            result ≡ expiry (layout_out L.wire self.now delay peer) self.now.timer }
        ensures bound { result < 2 ^ 63 }
    {
        self.clock.expiry(self.config.wait)
    }

    /// Whether the timer runs and has expired at this moment.
    fn expires(&self, at: u64) -> bool
        ensures { (delay peer : ℕ) (acts : Trace Act) (told : ℕ) (timer : Timer) →
            Speaks self.now acts told timer →
            let layout = layout_out L.wire self.now delay peer in
            result ≡ is_waiting layout acts && nat_le (expiry layout timer) at }
    {
        self.is_waiting() && self.expiry() <= at
    }

    /// Counts an expiry where the timer expires at this moment; whether it does.
    fn count_expiry(&mut self, at: u64) -> bool
        requires moment { at < 2 ^ 62 }
        requires open { self.old.timer.expiries ≤ EXPIRIES }
        ensures expires { (delay peer : ℕ) (acts : Trace Act) (told : ℕ) (timer : Timer) →
            Speaks self.old acts told timer →
            result ≡ expires (layout_out L.wire self.old delay peer) timer acts at }
        ensures stands { (delay peer : ℕ) (acts : Trace Act) (told : ℕ) (timer : Timer) →
            Speaks self.old acts told timer →
            Speaks self.new acts told (timer_at (layout_out L.wire self.old delay peer) acts timer at) }
        ensures expiries { self.new.timer.expiries ≡
            (if result then self.old.timer.expiries + 1 else self.old.timer.expiries) }
        ensures outbox { self.new.outbox ≡ self.old.outbox }
        ensures config { self.new.config ≡ self.old.config }
    {
        if !self.expires(at) {
            return false;
        }
        self.clock = Clock {
            start: at,
            expiries: self.clock.expiries + 1,
        };
        true
    }

    /// Whether another transmission may be made.
    fn may_send(&self) -> bool
        ensures may { (delay peer : ℕ) (acts : Trace Act) (told : ℕ) (timer : Timer) →
            Speaks self.now acts told timer →
            result ≡ may_send (layout_out L.wire self.now delay peer) acts }
        ensures reach { result ≡ true → reach_of self.now.outbox < SPAN }
        ensures number { result ≡ true → next_transmission self.now.outbox < 2 ^ 62 }
    {
        self.window.reach() < SPAN && self.window.made() + 1 < NUMBERS
    }

    /// What is sent first at this moment. Where the timer expires at it, that is counted.
    pub fn choose(&mut self, at: u64) -> Choice
        requires { at < 2 ^ 62 }
        ensures choice { (delay peer : ℕ) (acts : Trace Act) (told : ℕ) (timer : Timer) →
            Speaks self.old acts told timer →
            result ≡ choice_at (layout_out L.wire self.old delay peer) acts told timer at }
        ensures stands { (delay peer : ℕ) (acts : Trace Act) (told : ℕ) (timer : Timer) →
            Speaks self.old acts told timer →
            Speaks self.new acts told (timer_at (layout_out L.wire self.old delay peer) acts timer at) }
        ensures fresh { result ≡ IsFresh → may_cut_of self.new.outbox self.new.peer_window ≡ true }
        ensures unsettled { (part : ℕ) → result ≡ IsAgain part →
            is_unsettled self.new.outbox part ≡ true }
        ensures reach { (part : ℕ) → result ≡ IsAgain part → reach_of self.new.outbox < SPAN }
        ensures number { (part : ℕ) → result ≡ IsAgain part →
            next_transmission self.new.outbox < 2 ^ 62 }
        ensures silent { EXPIRIES < self.old.timer.expiries →
            (result ≡ IsSilent) × (self.new ≡ self.old) }
        ensures outbox { self.new.outbox ≡ self.old.outbox }
        ensures config { self.new.config ≡ self.old.config }
    {
        if self.is_closed() {
            return Choice::Silent;
        }
        let expired = self.count_expiry(at);
        if self.is_closed() {
            return Choice::Silent;
        }
        self.first_of(expired)
    }

    /// What is sent first, where the timer has expired or has not.
    fn first_of(&self, expired: bool) -> Choice
        ensures fresh { result ≡ IsFresh → may_cut_of self.now.outbox self.now.peer_window ≡ true }
        ensures unsettled { (part : ℕ) → result ≡ IsAgain part →
            is_unsettled self.now.outbox part ≡ true }
        ensures reach { (part : ℕ) → result ≡ IsAgain part → reach_of self.now.outbox < SPAN }
        ensures number { (part : ℕ) → result ≡ IsAgain part →
            next_transmission self.now.outbox < 2 ^ 62 }
        ensures choice { (delay peer : ℕ) (acts : Trace Act) (told : ℕ) (timer : Timer) →
            Speaks self.now acts told timer →
            (expired ≡ true → is_waiting (layout_out L.wire self.now delay peer) acts ≡ true) →
            result ≡ first_choice (layout_out L.wire self.now delay peer) acts told expired }
    {
        if let Some(part) = self.again(expired) {
            return Choice::Again { part };
        }
        if self.window.may_cut(self.peer_window) {
            return Choice::Fresh;
        }
        Choice::Telling
    }

    /// The part that is sent again, where another transmission may be made: the lowest unsettled one
    /// at an expiry, else the lowest one that was passed over.
    fn again(&self, expired: bool) -> Option<u64>
        ensures unsettled { IfSome result (λ part. is_unsettled self.now.outbox part ≡ true) }
        ensures reach { IfSome result (λ part. reach_of self.now.outbox < SPAN) }
        ensures number { IfSome result (λ part. next_transmission self.now.outbox < 2 ^ 62) }
        ensures part { (delay peer : ℕ) (acts : Trace Act) (told : ℕ) (timer : Timer) →
            Speaks self.now acts told timer →
            (expired ≡ true → is_waiting (layout_out L.wire self.now delay peer) acts ≡ true) →
            let layout = layout_out L.wire self.now delay peer in
            result ≡ (if may_send layout acts then again_part layout acts expired else None) }
    {
        if !self.may_send() {
            return None;
        }
        if expired {
            self.window.lowest()
        } else {
            self.window.passed_over()
        }
    }

    /// The numbers of the next part, and of the transmission that carries it.
    pub fn next_numbers(&self) -> Numbers
        ensures { (acts : Trace Act) (told : ℕ) (timer : Timer) → Speaks self.now acts told timer →
            result ≡ record { part = self.now.config.own + cuts acts; transmission = self.now.config.own + transmissions acts } }
    {
        Numbers {
            part: self.window.last_cut() + 1,
            transmission: self.window.made() + 1,
        }
    }

    /// The number below which nothing has to be told any more.
    pub fn floor(&self) -> u64
        ensures { (delay peer : ℕ) (acts : Trace Act) (told : ℕ) (timer : Timer) →
            Speaks self.now acts told timer →
            result ≡ own_floor (layout_out L.wire self.now delay peer) acts }
    {
        if tells_parts::<L>() {
            self.window.floor_part()
        } else {
            self.window.floor_transmission()
        }
    }

    /// Writes the next part out, at this moment, and gives its length.
    pub fn cut(&mut self, at: u64, out: &mut [u8; 1000]) -> usize
        requires room { may_cut_of self.old.outbox self.old.peer_window ≡ true }
        requires moment { at < 2 ^ 62 }
        ensures bytes { (acts : Trace Act) (told : ℕ) (timer : Timer) →
            Speaks self.old acts told timer →
            (result ≡ length (next_piece limits acts))
            × (take result out.new ≡ next_piece limits acts) }
        ensures stands { (delay peer : ℕ) (acts : Trace Act) (told : ℕ) (timer : Timer) →
            Speaks self.old acts told timer →
            Speaks self.new (acts ▷ Cut) told (timer_begun (layout_out L.wire self.old delay peer) acts timer at) }
        ensures fits { result ≤ PART }
        ensures rest { drop result out.new ≡ drop result out.old }
        ensures whole { length out.new ≡ PART }
        ensures queued { queued_of self.new.outbox ≤ queued_of self.old.outbox }
        ensures expiries { self.new.timer.expiries ≡ self.old.timer.expiries }
        ensures config { self.new.config ≡ self.old.config }
    {
        self.begin(at);
        self.window.cut(self.peer_window, out).length
    }

    /// Starts the timer at this moment, where no part is unsettled.
    fn begin(&mut self, at: u64)
        requires { at < 2 ^ 62 }
        ensures stands { (delay peer : ℕ) (acts : Trace Act) (told : ℕ) (timer : Timer) →
            Speaks self.old acts told timer →
            Speaks self.new acts told (timer_begun (layout_out L.wire self.old delay peer) acts timer at) }
        ensures outbox { self.new.outbox ≡ self.old.outbox }
        ensures peer_window { self.new.peer_window ≡ self.old.peer_window }
        ensures expiries { self.new.timer.expiries ≡ self.old.timer.expiries }
        ensures config { self.new.config ≡ self.old.config }
    {
        if !self.is_waiting() {
            self.clock.start = at;
        }
    }

    /// Writes an unsettled part out again, and gives its length.
    pub fn resend(&mut self, part: u64, out: &mut [u8; 1000]) -> usize
        requires unsettled { is_unsettled self.old.outbox part ≡ true }
        requires reach { reach_of self.old.outbox < SPAN }
        requires number { next_transmission self.old.outbox < 2 ^ 62 }
        ensures bytes { (acts : Trace Act) (told : ℕ) (timer : Timer) →
            Speaks self.old acts told timer →
            let bytes = piece limits acts (part - self.old.config.own) in
            (result ≡ length bytes) × (take result out.new ≡ bytes) }
        ensures stands { (acts : Trace Act) (told : ℕ) (timer : Timer) →
            Speaks self.old acts told timer →
            Speaks self.new (acts ▷ Resent (part - self.old.config.own)) told timer }
        ensures fits { result ≤ PART }
        ensures rest { drop result out.new ≡ drop result out.old }
        ensures whole { length out.new ≡ PART }
        ensures near { (acts : Trace Act) (told : ℕ) (timer : Timer) →
            Speaks self.old acts told timer → self.old.config.own + cuts acts ≤ part + WINDOW }
        ensures queued { queued_of self.new.outbox ≡ queued_of self.old.outbox }
        ensures timer { self.new.timer ≡ self.old.timer }
        ensures config { self.new.config ≡ self.old.config }
    {
        self.window.resend(part, out).length
    }

    /// Whether a part can be sent at once, whatever the timer says.
    pub fn is_ready(&self) -> bool
        ensures { (delay peer : ℕ) (acts : Trace Act) (told : ℕ) (timer : Timer) →
            Speaks self.now acts told timer →
            result ≡ is_ready (layout_out L.wire self.now delay peer) acts told }
    {
        self.again(false).is_some() || self.window.may_cut(self.peer_window)
    }

    /// The moment of the next expiry that sends a part or closes the link.
    pub fn next_expiry(&self) -> Option<u64>
        ensures { (delay peer : ℕ) (acts : Trace Act) (told : ℕ) (timer : Timer) →
            Speaks self.now acts told timer →
            result ≡ next_expiry (layout_out L.wire self.now delay peer) acts timer }
    {
        if self.is_waiting() && self.is_expiry_used() {
            return Some(self.expiry());
        }
        None
    }

    /// Whether an expiry sends a part or closes the link.
    fn is_expiry_used(&self) -> bool
        ensures { (delay peer : ℕ) (acts : Trace Act) (told : ℕ) (timer : Timer) →
            Speaks self.now acts told timer →
            result ≡ may_send (layout_out L.wire self.now delay peer) acts || nat_le EXPIRIES timer.expiries }
    {
        self.may_send() || EXPIRIES <= self.clock.expiries
    }
}
