//! The link.

ghost use Rattle.std.specs.Prelude.{◌≡◌, ◌⊎◌, ◌+◌, ◌<◌, ◌≤◌, ◌^◌, ◌++◌, [], ◌==◌, ℕ, List, None, if◌then◌else◌, length, take, drop, IfOk, IfSome, option_map, ◌↔◌, min, OnOk, OnErr};
ghost use Rattle.mt_base.specs.Trace.{Trace, Start, ◌▷◌};
ghost use Rattle.mt_windows.specs.ArrivedView.{left_of};
ghost use Rattle.mt_windows.specs.Sending.{queued};
ghost use Rattle.mt_windows.specs.SendingView.{limits, queued_of};
ghost use Rattle.carrier.specs.Due.{IsNextDue};
ghost use Rattle.carrier.specs.Entries.{Entry, Gave, In, Polled, Pulled, Owed};
ghost use Rattle.carrier.specs.Law.{Faithful, IsBytes};
ghost use Rattle.carrier.specs.Sending.{acts};
ghost use Rattle.carrier.specs.States.{give_answer, written};
ghost use Rattle.carrier.specs.declared.state.LinkState.TheVariants.{Open, Closed as IsClosed};
ghost use Rattle.carrier.specs.declared.state.Took.TheVariants.{Ignored};
ghost use Rattle.carrier.specs.declared.state.Reason.TheVariants as reason;
ghost use Rattle.udp1_core.specs.MachineView.{Stands, layout_of, link_layout, condition_of};

use crate::first::First;
use carrier::{Carrier, GiveRefusal, LinkState, Took};
use link_machine::{Machine, ReceiverConfig, SenderConfig, WireLayout};
use mt_base::NoMemory;
use std::alloc::Global;
use std::marker::Model;

/// The version whose timer waits longer (MS-RDPEUDP section 3.1.5).
const VERSION_1: u16 = 0x0001;

/// A reliable link whose datagrams have the first layout (MS-RDPEUDP section 2.2), open from the
/// start. It has no socket and no clock.
#[derive(Drop)]
pub struct Udp1Core {
    machine: Machine<First>,
}

impl Model for Udp1Core {
    ghost use Rattle.udp1_core.specs.MachineView.{Machine as Whole};

    ghost Value = { Whole };

    ghost view = { λ c. c.machine };
}

impl Udp1Core {
    /// A link of this version, 0x0001 or 0x0002, between ends with these initial numbers.
    pub fn new(
        alloc: Global,
        own_initial: u32,
        peer_initial: u32,
        version: u16,
    ) -> Result<Udp1Core, NoMemory>
        requires { (version ≡ 0x0001) ⊎ (version ≡ 0x0002) }
        ensures stands { IfOk result (λ c. Stands c Start) }
        ensures layout { IfOk result (λ c. layout_of c ≡
            link_layout own_initial peer_initial version) }
        ensures left { IfOk result (λ c. left_of c.receiver.inbox ≡ []) }
        ensures queued { IfOk result (λ c. queued_of c.sender.outbox ≡ 0) }
        ensures open { IfOk result (λ c. condition_of c ≡ Open) }
    {
        let sender = sender_config(own_initial, version);
        let receiver = receiver_config(peer_initial, version);
        let machine = Machine::new(alloc, sender, receiver)?;
        Ok(Udp1Core { machine })
    }

    /// Forgets everything, and is as a new link of this version, 0x0001 or 0x0002.
    pub fn start(&mut self, own_initial: u32, peer_initial: u32, version: u16)
        requires { (version ≡ 0x0001) ⊎ (version ≡ 0x0002) }
        ensures stands { Stands self.new Start }
        ensures layout { layout_of self.new ≡ link_layout own_initial peer_initial version }
        ensures left { left_of self.new.receiver.inbox ≡ [] }
        ensures queued { queued_of self.new.sender.outbox ≡ 0 }
        ensures open { condition_of self.new ≡ Open }
    {
        let sender = sender_config(own_initial, version);
        let receiver = receiver_config(peer_initial, version);
        self.machine.start(sender, receiver);
    }

    /// A link of this version, 0x0001 or 0x0002, between ends with these initial numbers, on the
    /// memory of a machine of any layout. It is as a new one that was given the bytes which were given
    /// to the machine and not cut into parts. It takes no memory.
    pub fn on_machine<L: WireLayout>(
        machine: Machine<L>,
        own_initial: u32,
        peer_initial: u32,
        version: u16,
    ) -> Udp1Core
        requires { (version ≡ 0x0001) ⊎ (version ≡ 0x0002) }
        ensures stands { let waiting = machine.sender.outbox.waiting in
            IsBytes waiting → Stands result (Start ▷ Gave waiting) }
        ensures empty { machine.sender.outbox.waiting ≡ [] → Stands result Start }
        ensures layout { layout_of result ≡ link_layout own_initial peer_initial version }
        ensures left { left_of result.receiver.inbox ≡ [] }
        ensures queued { queued_of result.sender.outbox ≡ length machine.sender.outbox.waiting }
        ensures open { condition_of result ≡ Open }
    {
        let sender = sender_config(own_initial, version);
        let receiver = receiver_config(peer_initial, version);
        Udp1Core {
            machine: machine.renewed(sender, receiver),
        }
    }

    /// Gives its machine up.
    pub fn into_machine(self) -> Machine<First>
        ensures { result ≡ self }
    {
        self.machine
    }

    /// Makes so many tellings more owed.
    pub fn owe(&mut self, count: u32)
        ensures trace { (t : Trace Entry) → Stands self.old t → Stands self.new (t ▷ Owed count) }
        ensures layout { layout_of self.new ≡ layout_of self.old }
        ensures left { left_of self.new.receiver.inbox ≡ left_of self.old.receiver.inbox }
        ensures queued { queued_of self.new.sender.outbox ≡ queued_of self.old.sender.outbox }
        ensures state { condition_of self.new ≡ condition_of self.old }
    {
        self.machine.owe(count);
    }
}

/// The numbers and waits of the sending half.
fn sender_config(initial: u32, version: u16) -> SenderConfig
    ensures own { result.own ≡ initial + 1 }
    ensures wait { result.wait ≡ (if version == 1 then 500 else 300) }
{
    SenderConfig {
        own: u64::from(initial) + 1,
        wait: if version == VERSION_1 { 500 } else { 300 },
    }
}

/// The numbers and waits of the receiving half.
fn receiver_config(initial: u32, version: u16) -> ReceiverConfig
    ensures peer { result.peer ≡ initial + 1 }
    ensures delay { result.delay ≡ (if version == 1 then 200 else 50) }
{
    ReceiverConfig {
        peer: u64::from(initial) + 1,
        delay: if version == VERSION_1 { 200 } else { 50 },
    }
}

impl Carrier for Udp1Core {
    ghost stands = { λ c t. Stands c t };

    ghost law = { λ c t. Faithful (layout_of c) t };

    ghost left = { λ c. left_of c.receiver.inbox };

    ghost load = { λ c. queued_of c.sender.outbox };

    ghost condition = { λ c. condition_of c };

    ghost next = { λ c t m. IsNextDue (layout_of c) t m };

    fn input(&mut self, now: u64, datagram: &[u8]) -> Took
        requires moment { now < 2 ^ 62 }
        ensures trace { (t : Trace Entry) → Stands self.old t →
            Stands self.new (t ▷ In now datagram.now result) }
        ensures law { (t : Trace Entry) →
            Faithful (layout_of self.new) t ↔ Faithful (layout_of self.old) t }
        ensures left { (more : List ℕ)
            × (left_of self.new.receiver.inbox ≡ left_of self.old.receiver.inbox ++ more) }
        ensures load { queued_of self.new.sender.outbox ≤ queued_of self.old.sender.outbox }
        ensures stays_closed { (e : ℕ) → condition_of self.old ≡ IsClosed e →
            (condition_of self.new ≡ IsClosed e) × (result ≡ Ignored reason.LinkClosed) }
        ensures stays_open { (e : ℕ) → condition_of self.new ≡ IsClosed e →
            condition_of self.old ≡ IsClosed e }
        ensures layout { layout_of self.new ≡ layout_of self.old }
    {
        self.machine.input(now, datagram)
    }

    fn poll(&mut self, now: u64, out: &mut [u8; 1232]) -> Option<usize>
        requires moment { now < 2 ^ 62 }
        ensures bound { IfSome result (λ n. n ≤ 1232) }
        ensures trace { (t : Trace Entry) → Stands self.old t →
            Stands self.new (t ▷ Polled now (option_map (λ n. take n out.new) result)) }
        ensures rest { drop (written result) out.new ≡ drop (written result) out.old }
        ensures law { (t : Trace Entry) →
            Faithful (layout_of self.new) t ↔ Faithful (layout_of self.old) t }
        ensures left { left_of self.new.receiver.inbox ≡ left_of self.old.receiver.inbox }
        ensures load { queued_of self.new.sender.outbox ≤ queued_of self.old.sender.outbox }
        ensures stays_closed { (e : ℕ) → condition_of self.old ≡ IsClosed e →
            (condition_of self.new ≡ IsClosed e) × (result ≡ None) }
        ensures layout { layout_of self.new ≡ layout_of self.old }
    {
        self.machine.poll(now, out)
    }

    fn give(&mut self, bytes: &[u8]) -> Result<(), GiveRefusal>
        ensures answer { result ≡
            give_answer (condition_of self.old) (queued_of self.old.sender.outbox) (length bytes.now) }
        ensures trace { OnOk result ((t : Trace Entry) → Stands self.old t →
            Stands self.new (t ▷ Gave bytes.now)) }
        ensures law { (t : Trace Entry) →
            Faithful (layout_of self.new) t ↔ Faithful (layout_of self.old) t }
        ensures left { left_of self.new.receiver.inbox ≡ left_of self.old.receiver.inbox }
        ensures load { OnOk result (queued_of self.new.sender.outbox ≡ queued_of self.old.sender.outbox + length bytes.now) }
        ensures state { condition_of self.new ≡ condition_of self.old }
        ensures unchanged { OnErr result (self.new ≡ self.old) }
        ensures layout { layout_of self.new ≡ layout_of self.old }
    {
        self.machine.give(bytes)
    }

    fn pull(&mut self, out: &mut [u8]) -> usize
        ensures count { result ≡ min (length out.old) (length (left_of self.old.receiver.inbox)) }
        ensures bytes { take result out.new ≡ take result (left_of self.old.receiver.inbox) }
        ensures rest { drop result out.new ≡ drop result out.old }
        ensures left { left_of self.new.receiver.inbox ≡
            drop result (left_of self.old.receiver.inbox) }
        ensures trace { (t : Trace Entry) → Stands self.old t →
            Stands self.new (t ▷ Pulled (length out.old) (take result out.new)) }
        ensures law { (t : Trace Entry) →
            Faithful (layout_of self.new) t ↔ Faithful (layout_of self.old) t }
        ensures load { queued_of self.new.sender.outbox ≡ queued_of self.old.sender.outbox }
        ensures state { condition_of self.new ≡ condition_of self.old }
        ensures layout { layout_of self.new ≡ layout_of self.old }
    {
        self.machine.pull(out)
    }

    fn queued(&self) -> usize
        ensures value { result ≡ queued_of self.now.sender.outbox }
        ensures history { (t : Trace Entry) → Stands self.now t →
            result ≡ queued limits (acts (layout_of self.now) t) }
    {
        self.machine.queued()
    }

    fn next_due(&self) -> Option<u64>
        ensures { (t : Trace Entry) → Stands self.now t → IsNextDue (layout_of self.now) t result }
    {
        self.machine.next_due()
    }

    fn state(&self) -> LinkState
        ensures { result ≡ condition_of self.now }
    {
        self.machine.state()
    }

    ghost keeps = { λ c t h. h.faithful };
}
