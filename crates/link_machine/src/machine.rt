//! The machine.

ghost use Rattle.std.specs.Prelude.{◌≡◌, ◌+◌, ◌-◌, ◌<◌, ◌≤◌, ◌^◌, ◌++◌, ◌∷◌, [], ℕ, List, Some, None, true, if◌then◌else◌, length, take, drop, IfOk, IfSome, option_map, All, ◌↔◌, min, OnOk, OnErr};
ghost use Rattle.mt_base.specs.Trace.{Trace, Start, ◌▷◌};
ghost use Rattle.mt_windows.specs.ArrivedView.{left_of};
ghost use Rattle.mt_windows.specs.Sending.Act.{Cut, Resent};
ghost use Rattle.mt_windows.specs.Sending.{Act, queued, cuts, next_piece, piece};
ghost use Rattle.mt_windows.specs.SendingView.{limits, queued_of, is_unsettled, reach_of, next_transmission, may_cut_of};
ghost use Rattle.carrier.specs.Entries.{Entry, Gave, In, Polled, Pulled, Owed};
ghost use Rattle.carrier.specs.Layout.{Received};
ghost use Rattle.carrier.specs.Sending.{Timer, acts, hears, timer_told};
ghost use Rattle.carrier.specs.Due.{is_pressing, own_floor, IsNextDue};
ghost use Rattle.carrier.specs.LayoutLaw.{IsCarried};
ghost use Rattle.carrier.specs.Receiving.{receives, owes, floor_shown};
ghost use Rattle.carrier.specs.Law.{IsBytes, answer_load, Faithful};
ghost use Rattle.carrier.specs.declared.state.LinkState.TheVariants.{Open, Closed as IsClosed};
ghost use Rattle.carrier.specs.declared.state.Took.TheVariants.{Ignored};
ghost use Rattle.carrier.specs.declared.state.Reason.TheVariants as reason;
ghost use Rattle.carrier.specs.States.{give_answer, written};
ghost use Rattle.link_machine.specs.Wire.{layout_of};
ghost use Rattle.link_machine.specs.ContentsView.{shown_by, IsFit};
ghost use Rattle.link_machine.specs.ReceiverView.{Hears};
ghost use Rattle.link_machine.specs.SenderView.{Speaks, timer_begun, layout_out};
ghost use Rattle.link_machine.specs.MachineView.{Stands, condition_of, earlier, layout_at, datagram_with, owed_after, fresh_load, again_load};

use crate::choice::Choice;
use crate::config::{ReceiverConfig, SenderConfig};
use crate::contents::Contents;
use crate::numbers::Numbers;
use crate::receiver::Receiver;
use crate::sender::Sender;
use crate::wire::WireLayout;
use carrier::{Carrier, EXPIRIES, GiveRefusal, LinkState, Reason, Took};
use mt_base::NoMemory;
use mt_windows::{DATAGRAM, PART, SPAN, WINDOW};
use std::alloc::Global;
use std::marker::Model;

/// A reliable link, open from the start. It has no socket and no clock.
#[derive(Drop)]
pub struct Machine<L: WireLayout> {
    moment: u64,
    sender: Sender<L>,
    receiver: Receiver<L>,
}

impl<L: WireLayout> Model for Machine<L> {
    ghost use Rattle.link_machine.specs.MachineView.{Machine as Whole, IsSound};

    ghost Value = { Whole };

    ghost view = { λ c. record { moment = c.moment; sender = c.sender; receiver = c.receiver } };

    ghost invariant = { λ c. IsSound (record { moment = c.moment; sender = c.sender; receiver = c.receiver }) };
}

impl<L: WireLayout> Machine<L> {
    /// Writes the datagram that carries the next part.
    fn send_fresh(&mut self, out: &mut [u8; 1232]) -> usize
        requires { may_cut_of self.old.sender.outbox self.old.sender.peer_window ≡ true }
        ensures bound { result ≤ DATAGRAM }
        ensures rest { drop result out.new ≡ drop result out.old }
        ensures bytes { (acts : Trace Act) (told : ℕ) (timer : Timer) (got : Received) (n floor : ℕ) (owed : List ℕ) →
            Speaks self.old.sender acts told timer → Hears self.old.receiver got n floor owed →
            let layout = layout_at L.wire self.old in
            take result out.new ≡ layout.spell (datagram_with layout got floor owed None (Some (fresh_load self.old.sender.config.own acts))) }
        ensures carried { (acts : Trace Act) (told : ℕ) (timer : Timer) →
            Speaks self.old.sender acts told timer →
            IsCarried (layout_at L.wire self.old) (fresh_load self.old.sender.config.own acts) }
        ensures sends { (acts : Trace Act) (told : ℕ) (timer : Timer) →
            Speaks self.old.sender acts told timer →
            Speaks self.new.sender (acts ▷ Cut) told (timer_begun (layout_at L.wire self.old) acts timer self.old.moment) }
        ensures hears { (got : Received) (n floor : ℕ) (owed : List ℕ) →
            Hears self.old.receiver got n floor owed →
            Hears self.new.receiver got n floor (owed_after owed) }
        ensures moment { self.new.moment ≡ self.old.moment }
        ensures layout { layout_at L.wire self.new ≡ layout_at L.wire self.old }
        ensures inbox { self.new.receiver.inbox ≡ self.old.receiver.inbox }
        ensures queued { queued_of self.new.sender.outbox ≤ queued_of self.old.sender.outbox }
        ensures expiries { self.new.sender.timer.expiries ≡ self.old.sender.timer.expiries }
    {
        L::is_wire();
        let numbers = self.sender.next_numbers();
        let head = self.receiver.head(None, Some(numbers), out);
        let length = head + self.cut_into(&mut out[head..]);
        L::finish(out, length)
    }

    /// Writes the next part to the front of a buffer, and gives its length.
    fn cut_into(&mut self, out: &mut [u8]) -> usize
        requires room { may_cut_of self.old.sender.outbox self.old.sender.peer_window ≡ true }
        requires long { PART ≤ length out.old }
        ensures rest { drop result out.new ≡ drop result out.old }
        ensures bytes { (acts : Trace Act) (told : ℕ) (timer : Timer) →
            Speaks self.old.sender acts told timer →
            (result ≡ length (next_piece limits acts))
            × (take result out.new ≡ next_piece limits acts) }
        ensures stands { (delay peer : ℕ) (acts : Trace Act) (told : ℕ) (timer : Timer) →
            Speaks self.old.sender acts told timer →
            Speaks self.new.sender (acts ▷ Cut) told (timer_begun (layout_out L.wire self.old.sender delay peer) acts timer self.old.moment) }
        ensures fits { result ≤ PART }
        ensures good { All (λ b. b < 256) (take result out.new) }
        ensures queued { queued_of self.new.sender.outbox ≤ queued_of self.old.sender.outbox }
        ensures expiries { self.new.sender.timer.expiries ≡ self.old.sender.timer.expiries }
        ensures config { self.new.sender.config ≡ self.old.sender.config }
        ensures receiver { self.new.receiver ≡ self.old.receiver }
        ensures moment { self.new.moment ≡ self.old.moment }
    {
        match out.first_chunk_mut::<1000>() {
            Some(part) => self.sender.cut(self.moment, part),
            None => unreachable!(),
        }
    }

    /// Writes the datagram that carries an unsettled part again.
    fn send_again(&mut self, part: u64, out: &mut [u8; 1232]) -> usize
        requires unsettled { is_unsettled self.old.sender.outbox part ≡ true }
        requires reach { reach_of self.old.sender.outbox < SPAN }
        requires number { next_transmission self.old.sender.outbox < 2 ^ 62 }
        ensures bound { result ≤ DATAGRAM }
        ensures rest { drop result out.new ≡ drop result out.old }
        ensures bytes { (p : ℕ) (acts : Trace Act) (told : ℕ) (timer : Timer) (got : Received) (n floor : ℕ) (owed : List ℕ) →
            part ≡ self.old.sender.config.own + p →
            Speaks self.old.sender acts told timer → Hears self.old.receiver got n floor owed →
            let layout = layout_at L.wire self.old in
            take result out.new ≡ layout.spell (datagram_with layout got floor owed (Some (own_floor layout acts)) (Some (again_load self.old.sender.config.own p acts))) }
        ensures carried { (p : ℕ) (acts : Trace Act) (told : ℕ) (timer : Timer) →
            part ≡ self.old.sender.config.own + p →
            Speaks self.old.sender acts told timer →
            IsCarried (layout_at L.wire self.old) (again_load self.old.sender.config.own p acts) }
        ensures near { (p : ℕ) (acts : Trace Act) (told : ℕ) (timer : Timer) →
            part ≡ self.old.sender.config.own + p →
            Speaks self.old.sender acts told timer → cuts acts ≤ p + WINDOW }
        ensures sends { (p : ℕ) (acts : Trace Act) (told : ℕ) (timer : Timer) →
            part ≡ self.old.sender.config.own + p →
            Speaks self.old.sender acts told timer →
            Speaks self.new.sender (acts ▷ Resent p) told timer }
        ensures hears { (got : Received) (n floor : ℕ) (owed : List ℕ) →
            Hears self.old.receiver got n floor owed →
            Hears self.new.receiver got n floor (owed_after owed) }
        ensures moment { self.new.moment ≡ self.old.moment }
        ensures layout { layout_at L.wire self.new ≡ layout_at L.wire self.old }
        ensures inbox { self.new.receiver.inbox ≡ self.old.receiver.inbox }
        ensures queued { queued_of self.new.sender.outbox ≡ queued_of self.old.sender.outbox }
        ensures expiries { self.new.sender.timer.expiries ≡ self.old.sender.timer.expiries }
    {
        L::is_wire();
        let numbers = Numbers {
            part,
            transmission: self.sender.next_numbers().transmission,
        };
        let head = self
            .receiver
            .head(Some(self.sender.floor()), Some(numbers), out);
        let length = head + self.resend_into(part, &mut out[head..]);
        L::finish(out, length)
    }

    /// Writes an unsettled part to the front of a buffer again, and gives its length.
    fn resend_into(&mut self, part: u64, out: &mut [u8]) -> usize
        requires unsettled { is_unsettled self.old.sender.outbox part ≡ true }
        requires reach { reach_of self.old.sender.outbox < SPAN }
        requires number { next_transmission self.old.sender.outbox < 2 ^ 62 }
        requires long { PART ≤ length out.old }
        ensures rest { drop result out.new ≡ drop result out.old }
        ensures bytes { (acts : Trace Act) (told : ℕ) (timer : Timer) →
            Speaks self.old.sender acts told timer →
            let bytes = piece limits acts (part - self.old.sender.config.own) in
            (result ≡ length bytes) × (take result out.new ≡ bytes) }
        ensures near { (acts : Trace Act) (told : ℕ) (timer : Timer) →
            Speaks self.old.sender acts told timer →
            self.old.sender.config.own + cuts acts ≤ part + WINDOW }
        ensures stands { (acts : Trace Act) (told : ℕ) (timer : Timer) →
            Speaks self.old.sender acts told timer →
            Speaks self.new.sender (acts ▷ Resent (part - self.old.sender.config.own)) told timer }
        ensures fits { result ≤ PART }
        ensures good { All (λ b. b < 256) (take result out.new) }
        ensures queued { queued_of self.new.sender.outbox ≡ queued_of self.old.sender.outbox }
        ensures timer { self.new.sender.timer ≡ self.old.sender.timer }
        ensures config { self.new.sender.config ≡ self.old.sender.config }
        ensures receiver { self.new.receiver ≡ self.old.receiver }
        ensures moment { self.new.moment ≡ self.old.moment }
    {
        match out.first_chunk_mut::<1000>() {
            Some(chunk) => self.sender.resend(part, chunk),
            None => unreachable!(),
        }
    }

    /// Writes a datagram that only tells what was received, where that has to be told.
    fn tell(&mut self, out: &mut [u8; 1232]) -> Option<usize>
        ensures bound { IfSome result (λ n. n ≤ DATAGRAM) }
        ensures rest { drop (written result) out.new ≡ drop (written result) out.old }
        ensures bytes { (got : Received) (n floor : ℕ) (owed : List ℕ) →
            Hears self.old.receiver got n floor owed →
            let layout = layout_at L.wire self.old in
            option_map (λ n. take n out.new) result ≡ (if is_pressing layout owed self.old.moment
            then Some (layout.spell (datagram_with layout got floor owed None None)) else None) }
        ensures hears { (got : Received) (n floor : ℕ) (owed : List ℕ) →
            Hears self.old.receiver got n floor owed →
            Hears self.new.receiver got n floor (if is_pressing (layout_at L.wire self.old) owed self.old.moment then [] else owed) }
        ensures sender { self.new.sender ≡ self.old.sender }
        ensures moment { self.new.moment ≡ self.old.moment }
        ensures layout { layout_at L.wire self.new ≡ layout_at L.wire self.old }
        ensures inbox { self.new.receiver.inbox ≡ self.old.receiver.inbox }
    {
        if !self.receiver.ack_is_due(self.moment) {
            return None;
        }
        L::is_wire();
        let length = self.receiver.head(None, None, out);
        Some(L::finish(out, length))
    }

    /// A link with these first numbers and waits.
    pub fn new(
        alloc: Global,
        sender: SenderConfig,
        receiver: ReceiverConfig,
    ) -> Result<Machine<L>, NoMemory>
        requires own { (1 ≤ sender.own) × (sender.own ≤ 2 ^ 32) }
        requires peer { (1 ≤ receiver.peer) × (receiver.peer ≤ 2 ^ 32) }
        requires wait { sender.wait ≤ 500 }
        requires delay { receiver.delay ≤ 200 }
        ensures stands { IfOk result (λ c. Stands L.wire c Start) }
        ensures layout { IfOk result (λ c. layout_at L.wire c ≡
            layout_of L.wire sender.wait receiver.delay sender.own receiver.peer) }
        ensures left { IfOk result (λ c. left_of c.receiver.inbox ≡ []) }
        ensures queued { IfOk result (λ c. queued_of c.sender.outbox ≡ 0) }
        ensures open { IfOk result (λ c. condition_of c ≡ Open) }
    {
        let sender = Sender::new(alloc, sender)?;
        let receiver = Receiver::new(alloc, receiver)?;
        Ok(Machine {
            moment: 0,
            sender,
            receiver,
        })
    }

    /// Forgets everything, and is what [`Machine::new`] gives; it takes no memory.
    pub fn start(&mut self, sender: SenderConfig, receiver: ReceiverConfig)
        requires own { (1 ≤ sender.own) × (sender.own ≤ 2 ^ 32) }
        requires peer { (1 ≤ receiver.peer) × (receiver.peer ≤ 2 ^ 32) }
        requires wait { sender.wait ≤ 500 }
        requires delay { receiver.delay ≤ 200 }
        ensures stands { Stands L.wire self.new Start }
        ensures layout { layout_at L.wire self.new ≡
            layout_of L.wire sender.wait receiver.delay sender.own receiver.peer }
        ensures left { left_of self.new.receiver.inbox ≡ [] }
        ensures queued { queued_of self.new.sender.outbox ≡ 0 }
        ensures open { condition_of self.new ≡ Open }
    {
        self.moment = 0;
        self.sender.restart(sender);
        self.receiver.restart(receiver);
    }

    /// The same memory for a machine of another layout. It is as a new one that was given the bytes
    /// which were given to this one and not cut into parts; all else is forgotten. It takes no memory.
    pub fn renewed<M: WireLayout>(
        self,
        sender: SenderConfig,
        receiver: ReceiverConfig,
    ) -> Machine<M>
        requires own { (1 ≤ sender.own) × (sender.own ≤ 2 ^ 32) }
        requires peer { (1 ≤ receiver.peer) × (receiver.peer ≤ 2 ^ 32) }
        requires wait { sender.wait ≤ 500 }
        requires delay { receiver.delay ≤ 200 }
        ensures stands { let waiting = self.sender.outbox.waiting in
            IsBytes waiting → Stands M.wire result (Start ▷ Gave waiting) }
        ensures empty { self.sender.outbox.waiting ≡ [] → Stands M.wire result Start }
        ensures layout { layout_at M.wire result ≡
            layout_of M.wire sender.wait receiver.delay sender.own receiver.peer }
        ensures left { left_of result.receiver.inbox ≡ [] }
        ensures queued { queued_of result.sender.outbox ≡ length self.sender.outbox.waiting }
        ensures open { condition_of result ≡ Open }
    {
        Machine {
            moment: 0,
            sender: self.sender.renewed(sender),
            receiver: self.receiver.renewed(receiver),
        }
    }

    /// Makes so many tellings more owed.
    pub fn owe(&mut self, count: u32)
        ensures trace { (t : Trace Entry) → Stands L.wire self.old t →
            Stands L.wire self.new (t ▷ Owed count) }
        ensures left { left_of self.new.receiver.inbox ≡ left_of self.old.receiver.inbox }
        ensures queued { queued_of self.new.sender.outbox ≡ queued_of self.old.sender.outbox }
        ensures state { condition_of self.new ≡ condition_of self.old }
        ensures layout { layout_at L.wire self.new ≡ layout_at L.wire self.old }
    {
        self.receiver.owe(count, self.moment);
    }

    /// Uses what a datagram shows, at the last moment.
    fn take(&mut self, contents: &Contents<'_>) -> Took
        requires { IsFit L.can_tell L.Width.MODULUS contents.now }
        ensures answer { (got : Received) (n floor : ℕ) (owed : List ℕ) →
            Hears self.old.receiver got n floor owed →
            result ≡ answer_load (layout_at L.wire self.old) got n (shown_by L.wire.flags contents.now).load }
        ensures sends { (acts : Trace Act) (told : ℕ) (timer : Timer) →
            Speaks self.old.sender acts told timer →
            let layout = layout_at L.wire self.old in
            let after = hears layout acts (Some (shown_by L.wire.flags contents.now)) in
            Speaks self.new.sender after contents.now.window (timer_told layout timer acts after self.old.moment) }
        ensures hears { (got : Received) (n floor : ℕ) (owed : List ℕ) →
            Hears self.old.receiver got n floor owed →
            let layout = layout_at L.wire self.old in
            let shown = Some (shown_by L.wire.flags contents.now) in
            let after = receives layout got n shown in
            Hears self.new.receiver after n (floor_shown layout got n after floor shown)
            (if owes layout got n shown then owed ++ self.old.moment ∷ [] else owed) }
        ensures moment { self.new.moment ≡ self.old.moment }
        ensures layout { layout_at L.wire self.new ≡ layout_at L.wire self.old }
        ensures left { (more : List ℕ)
            × (left_of self.new.receiver.inbox ≡ left_of self.old.receiver.inbox ++ more) }
        ensures queued { queued_of self.new.sender.outbox ≤ queued_of self.old.sender.outbox }
        ensures few { self.old.sender.timer.expiries ≤ EXPIRIES →
            self.new.sender.timer.expiries ≤ EXPIRIES }
    {
        self.sender
            .hear(contents.window, contents.told, self.moment);
        self.receiver
            .take(contents.load, contents.floor, self.moment)
    }
}

/// The earlier of two moments, where there is one.
fn earlier(one: Option<u64>, other: Option<u64>) -> Option<u64>
    ensures { result ≡ earlier one other }
{
    match (one, other) {
        (Some(one), Some(other)) => Some(one.min(other)),
        (one, None) => one,
        (None, other) => other,
    }
}

impl<L: WireLayout> Carrier for Machine<L> {
    ghost stands = { λ c t. Stands L.wire c t };

    ghost law = { λ c t. Faithful (layout_at L.wire c) t };

    ghost left = { λ c. left_of c.receiver.inbox };

    ghost load = { λ c. queued_of c.sender.outbox };

    ghost condition = { λ c. condition_of c };

    ghost next = { λ c t m. IsNextDue (layout_at L.wire c) t m };

    fn input(&mut self, now: u64, datagram: &[u8]) -> Took
        requires moment { now < 2 ^ 62 }
        ensures trace { (t : Trace Entry) → Stands L.wire self.old t →
            Stands L.wire self.new (t ▷ In now datagram.now result) }
        ensures law { (t : Trace Entry) →
            Faithful (layout_at L.wire self.new) t ↔ Faithful (layout_at L.wire self.old) t }
        ensures left { (more : List ℕ)
            × (left_of self.new.receiver.inbox ≡ left_of self.old.receiver.inbox ++ more) }
        ensures load { queued_of self.new.sender.outbox ≤ queued_of self.old.sender.outbox }
        ensures stays_closed { (e : ℕ) → condition_of self.old ≡ IsClosed e →
            (condition_of self.new ≡ IsClosed e) × (result ≡ Ignored reason.LinkClosed) }
        ensures stays_open { (e : ℕ) → condition_of self.new ≡ IsClosed e →
            condition_of self.old ≡ IsClosed e }
        ensures layout { layout_at L.wire self.new ≡ layout_at L.wire self.old }
    {
        self.moment = self.moment.max(now);
        if self.sender.is_closed() {
            return Took::Ignored(Reason::LinkClosed);
        }
        if datagram.len() > DATAGRAM {
            return Took::Ignored(Reason::TooLong);
        }
        let mut scratch = [0; 1232];
        match L::read(datagram, &mut scratch) {
            Ok(contents) => self.take(&contents),
            Err(reason) => Took::Ignored(reason),
        }
    }

    fn poll(&mut self, now: u64, out: &mut [u8; 1232]) -> Option<usize>
        requires moment { now < 2 ^ 62 }
        ensures bound { IfSome result (λ n. n ≤ DATAGRAM) }
        ensures rest { drop (written result) out.new ≡ drop (written result) out.old }
        ensures trace { (t : Trace Entry) → Stands L.wire self.old t →
            Stands L.wire self.new (t ▷ Polled now (option_map (λ n. take n out.new) result)) }
        ensures law { (t : Trace Entry) →
            Faithful (layout_at L.wire self.new) t ↔ Faithful (layout_at L.wire self.old) t }
        ensures left { left_of self.new.receiver.inbox ≡ left_of self.old.receiver.inbox }
        ensures load { queued_of self.new.sender.outbox ≤ queued_of self.old.sender.outbox }
        ensures stays_closed { (e : ℕ) → condition_of self.old ≡ IsClosed e →
            (condition_of self.new ≡ IsClosed e) × (result ≡ None) }
        ensures layout { layout_at L.wire self.new ≡ layout_at L.wire self.old }
    {
        L::is_wire();
        self.moment = self.moment.max(now);
        match self.sender.choose(self.moment) {
            Choice::Silent => None,
            Choice::Again { part } => Some(self.send_again(part, out)),
            Choice::Fresh => Some(self.send_fresh(out)),
            Choice::Telling => self.tell(out),
        }
    }

    fn give(&mut self, bytes: &[u8]) -> Result<(), GiveRefusal>
        ensures answer { result ≡
            give_answer (condition_of self.old) (queued_of self.old.sender.outbox) (length bytes.now) }
        ensures trace { OnOk result ((t : Trace Entry) → Stands L.wire self.old t →
            Stands L.wire self.new (t ▷ Gave bytes.now)) }
        ensures law { (t : Trace Entry) →
            Faithful (layout_at L.wire self.new) t ↔ Faithful (layout_at L.wire self.old) t }
        ensures left { left_of self.new.receiver.inbox ≡ left_of self.old.receiver.inbox }
        ensures load { OnOk result (queued_of self.new.sender.outbox ≡ queued_of self.old.sender.outbox + length bytes.now) }
        ensures state { condition_of self.new ≡ condition_of self.old }
        ensures unchanged { OnErr result (self.new ≡ self.old) }
        ensures layout { layout_at L.wire self.new ≡ layout_at L.wire self.old }
    {
        if self.sender.is_closed() {
            return Err(GiveRefusal::Closed {
                expiries: self.sender.expiries(),
            });
        }
        match self.sender.give(bytes) {
            Ok(()) => Ok(()),
            Err(full) => Err(GiveRefusal::Full {
                queued: full.queued,
            }),
        }
    }

    fn pull(&mut self, out: &mut [u8]) -> usize
        ensures count { result ≡ min (length out.old) (length (left_of self.old.receiver.inbox)) }
        ensures bytes { take result out.new ≡ take result (left_of self.old.receiver.inbox) }
        ensures rest { drop result out.new ≡ drop result out.old }
        ensures left { left_of self.new.receiver.inbox ≡
            drop result (left_of self.old.receiver.inbox) }
        ensures trace { (t : Trace Entry) → Stands L.wire self.old t →
            Stands L.wire self.new (t ▷ Pulled (length out.old) (take result out.new)) }
        ensures law { (t : Trace Entry) →
            Faithful (layout_at L.wire self.new) t ↔ Faithful (layout_at L.wire self.old) t }
        ensures load { queued_of self.new.sender.outbox ≡ queued_of self.old.sender.outbox }
        ensures state { condition_of self.new ≡ condition_of self.old }
        ensures layout { layout_at L.wire self.new ≡ layout_at L.wire self.old }
    {
        self.receiver.pull(out)
    }

    fn queued(&self) -> usize
        ensures value { result ≡ queued_of self.now.sender.outbox }
        ensures history { (t : Trace Entry) → Stands L.wire self.now t →
            result ≡ queued limits (acts (layout_at L.wire self.now) t) }
    {
        self.sender.queued()
    }

    fn next_due(&self) -> Option<u64>
        ensures { (t : Trace Entry) → Stands L.wire self.now t →
            IsNextDue (layout_at L.wire self.now) t result }
    {
        if self.sender.is_closed() {
            return None;
        }
        if self.sender.is_ready() {
            return Some(self.moment);
        }
        match earlier(self.sender.next_expiry(), self.receiver.ack_deadline()) {
            Some(due) => Some(due.max(self.moment)),
            None => None,
        }
    }

    fn state(&self) -> LinkState
        ensures { result ≡ condition_of self.now }
    {
        if self.sender.is_closed() {
            LinkState::Closed {
                expiries: self.sender.expiries(),
            }
        } else {
            LinkState::Open
        }
    }

    ghost keeps = { λ c t h. h.faithful };
}
