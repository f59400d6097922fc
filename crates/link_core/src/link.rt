//! The link.

ghost use Rattle.std.specs.Prelude.{◌≡◌, ◌+◌, ◌<◌, ◌≤◌, ◌^◌, ◌++◌, [], ℕ, List, None, length, take, drop, IfOk, IfSome, option_map, ◌↔◌, min, OnOk, OnErr};
ghost use Rattle.mt_base.specs.Trace.{Trace, Start, ◌▷◌};
ghost use Rattle.mt_windows.specs.ArrivedView.{left_of};
ghost use Rattle.mt_windows.specs.Sending.{queued};
ghost use Rattle.mt_windows.specs.SendingView.{limits, queued_of};
ghost use Rattle.carrier.specs.Due.{IsNextDue};
ghost use Rattle.carrier.specs.Entries.{Entry, Gave, In, Polled, Pulled, Owed};
ghost use Rattle.carrier.specs.Law.{Faithful, IsBytes};
ghost use Rattle.carrier.specs.Sending.{acts};
ghost use Rattle.carrier.specs.States.{give_answer, written};
ghost use Rattle.carrier.specs.declared.state.LinkState.TheVariants.{Open, Closed as IsClosed};
ghost use Rattle.carrier.specs.declared.state.Took.TheVariants.{Ignored};
ghost use Rattle.carrier.specs.declared.state.Reason.TheVariants as reason;
ghost use Rattle.link_core.specs.CoreView.{IsVersion, Stands, core_of, kind_in, kind_of, layout_of, link_layout, machine_in, condition_of};

use crate::any::AnyCore;
use crate::layout::LinkLayout;
use carrier::{Carrier, GiveRefusal, LinkState, Took};
use core::mem::replace_with;
use link_machine::{Machine, WireLayout};
use mt_base::NoMemory;
use std::alloc::Global;
use std::marker::Model;
use udp1_core::Udp1Core;
use udp2_core::Udp2Core;

/// The last version whose datagrams have the first layout.
const VERSION_2: u16 = 0x0002;

/// A reliable link of whatever version, open from the start. It has no socket and no clock. It has
/// the memory of one machine, which goes over to the one of the other layout when it is started in
/// another version.
#[derive(Drop)]
pub struct LinkCore {
    core: AnyCore,
}

impl Model for LinkCore {
    ghost use Rattle.link_core.specs.CoreView.{Core, kind_in, machine_in};

    ghost Value = { Core };

    ghost view = { λ c. record { kind = kind_in c.core; machine = machine_in c.core } };
}

impl LinkCore {
    /// A link of this version, 0x0001, 0x0002 or 0x0101, between ends with these initial numbers.
    pub fn new(
        alloc: Global,
        own_initial: u32,
        peer_initial: u32,
        version: u16,
    ) -> Result<LinkCore, NoMemory>
        requires { IsVersion version }
        ensures stands { IfOk result (λ c. Stands c Start) }
        ensures layout { IfOk result (λ c. layout_of c ≡
            link_layout own_initial peer_initial version) }
        ensures kind { IfOk result (λ c. c.kind ≡ kind_of version) }
        ensures left { IfOk result (λ c. left_of c.machine.receiver.inbox ≡ []) }
        ensures queued { IfOk result (λ c. queued_of c.machine.sender.outbox ≡ 0) }
        ensures open { IfOk result (λ c. condition_of c ≡ Open) }
    {
        let core = match LinkLayout::of_version(version) {
            LinkLayout::First => {
                AnyCore::First(Udp1Core::new(alloc, own_initial, peer_initial, version)?)
            }
            LinkLayout::Second => AnyCore::Second(Udp2Core::new(alloc)?),
        };
        Ok(LinkCore { core })
    }

    /// Forgets everything, and is as a new link of this version, 0x0001, 0x0002 or 0x0101. It takes
    /// no memory.
    pub fn start(&mut self, own_initial: u32, peer_initial: u32, version: u16)
        requires { IsVersion version }
        ensures stands { Stands self.new Start }
        ensures layout { layout_of self.new ≡ link_layout own_initial peer_initial version }
        ensures kind { self.new.kind ≡ kind_of version }
        ensures left { left_of self.new.machine.receiver.inbox ≡ [] }
        ensures queued { queued_of self.new.machine.sender.outbox ≡ 0 }
        ensures open { condition_of self.new ≡ Open }
    {
        self.forget();
        self.start_with_queue(own_initial, peer_initial, version);
    }

    /// Forgets what waits to be cut, and all else that was given and received.
    fn forget(&mut self)
        ensures { self.new.machine.sender.outbox.waiting ≡ [] }
    {
        match &mut self.core {
            AnyCore::First(core) => core.start(0, 0, VERSION_2),
            AnyCore::Second(core) => core.start(),
        }
    }

    /// Starts as a new link of this version, 0x0001, 0x0002 or 0x0101, that was given the bytes which
    /// were given to this one and not cut into parts yet. All else is forgotten. It takes no memory.
    pub fn start_with_queue(&mut self, own_initial: u32, peer_initial: u32, version: u16)
        requires { IsVersion version }
        ensures stands { let waiting = self.old.machine.sender.outbox.waiting in
            IsBytes waiting → Stands self.new (Start ▷ Gave waiting) }
        ensures empty { self.old.machine.sender.outbox.waiting ≡ [] → Stands self.new Start }
        ensures layout { layout_of self.new ≡ link_layout own_initial peer_initial version }
        ensures kind { self.new.kind ≡ kind_of version }
        ensures left { left_of self.new.machine.receiver.inbox ≡ [] }
        ensures queued { queued_of self.new.machine.sender.outbox ≡
            length self.old.machine.sender.outbox.waiting }
        ensures open { condition_of self.new ≡ Open }
    {
        let restart = |core: AnyCore, version: u16| {
            (restarted(core, own_initial, peer_initial, version), ())
        };
        replace_with(&mut self.core, version, restart);
    }

    /// Makes so many tellings more owed.
    pub fn owe(&mut self, count: u32)
        ensures trace { (t : Trace Entry) → Stands self.old t → Stands self.new (t ▷ Owed count) }
        ensures layout { layout_of self.new ≡ layout_of self.old }
        ensures kind { self.new.kind ≡ self.old.kind }
        ensures left { left_of self.new.machine.receiver.inbox ≡
            left_of self.old.machine.receiver.inbox }
        ensures queued { queued_of self.new.machine.sender.outbox ≡
            queued_of self.old.machine.sender.outbox }
        ensures state { condition_of self.new ≡ condition_of self.old }
    {
        match &mut self.core {
            AnyCore::First(core) => core.owe(count),
            AnyCore::Second(core) => core.owe(count),
        }
    }
}

/// A link of this version on the memory of the machine at work. It is as a new one that was given the
/// bytes which were given to that one and not cut into parts.
fn restarted(core: AnyCore, own_initial: u32, peer_initial: u32, version: u16) -> AnyCore
    requires { IsVersion version }
    ensures stands { let waiting = (machine_in core).sender.outbox.waiting in
        IsBytes waiting → Stands (core_of result) (Start ▷ Gave waiting) }
    ensures empty { (machine_in core).sender.outbox.waiting ≡ [] → Stands (core_of result) Start }
    ensures layout { layout_of (core_of result) ≡ link_layout own_initial peer_initial version }
    ensures kind { kind_in result ≡ kind_of version }
    ensures left { left_of (machine_in result).receiver.inbox ≡ [] }
    ensures queued { queued_of (machine_in result).sender.outbox ≡
        length (machine_in core).sender.outbox.waiting }
    ensures open { condition_of (core_of result) ≡ Open }
{
    match core {
        AnyCore::First(core) => started(core.into_machine(), own_initial, peer_initial, version),
        AnyCore::Second(core) => started(core.into_machine(), own_initial, peer_initial, version),
    }
}

/// A link of this version on the memory of a machine of any layout. It is as a new one that was given
/// the bytes which were given to the machine and not cut into parts.
fn started<L: WireLayout>(
    machine: Machine<L>,
    own_initial: u32,
    peer_initial: u32,
    version: u16,
) -> AnyCore
    requires { IsVersion version }
    ensures stands { let waiting = machine.sender.outbox.waiting in
        IsBytes waiting → Stands (core_of result) (Start ▷ Gave waiting) }
    ensures empty { machine.sender.outbox.waiting ≡ [] → Stands (core_of result) Start }
    ensures layout { layout_of (core_of result) ≡ link_layout own_initial peer_initial version }
    ensures kind { kind_in result ≡ kind_of version }
    ensures left { left_of (machine_in result).receiver.inbox ≡ [] }
    ensures queued { queued_of (machine_in result).sender.outbox ≡
        length machine.sender.outbox.waiting }
    ensures open { condition_of (core_of result) ≡ Open }
{
    match LinkLayout::of_version(version) {
        LinkLayout::First => AnyCore::First(Udp1Core::on_machine(
            machine,
            own_initial,
            peer_initial,
            version,
        )),
        LinkLayout::Second => AnyCore::Second(Udp2Core::on_machine(machine)),
    }
}

impl Carrier for LinkCore {
    ghost stands = { λ c t. Stands c t };

    ghost law = { λ c t. Faithful (layout_of c) t };

    ghost left = { λ c. left_of c.machine.receiver.inbox };

    ghost load = { λ c. queued_of c.machine.sender.outbox };

    ghost condition = { λ c. condition_of c };

    ghost next = { λ c t m. IsNextDue (layout_of c) t m };

    fn input(&mut self, now: u64, datagram: &[u8]) -> Took
        requires moment { now < 2 ^ 62 }
        ensures trace { (t : Trace Entry) → Stands self.old t →
            Stands self.new (t ▷ In now datagram.now result) }
        ensures law { (t : Trace Entry) →
            Faithful (layout_of self.new) t ↔ Faithful (layout_of self.old) t }
        ensures left { (more : List ℕ)
            × (left_of self.new.machine.receiver.inbox ≡ left_of self.old.machine.receiver.inbox ++ more) }
        ensures load { queued_of self.new.machine.sender.outbox ≤
            queued_of self.old.machine.sender.outbox }
        ensures stays_closed { (e : ℕ) → condition_of self.old ≡ IsClosed e →
            (condition_of self.new ≡ IsClosed e) × (result ≡ Ignored reason.LinkClosed) }
        ensures stays_open { (e : ℕ) → condition_of self.new ≡ IsClosed e →
            condition_of self.old ≡ IsClosed e }
        ensures layout { layout_of self.new ≡ layout_of self.old }
        ensures kind { self.new.kind ≡ self.old.kind }
    {
        match &mut self.core {
            AnyCore::First(core) => core.input(now, datagram),
            AnyCore::Second(core) => core.input(now, datagram),
        }
    }

    fn poll(&mut self, now: u64, out: &mut [u8; 1232]) -> Option<usize>
        requires moment { now < 2 ^ 62 }
        ensures bound { IfSome result (λ n. n ≤ 1232) }
        ensures trace { (t : Trace Entry) → Stands self.old t →
            Stands self.new (t ▷ Polled now (option_map (λ n. take n out.new) result)) }
        ensures rest { drop (written result) out.new ≡ drop (written result) out.old }
        ensures law { (t : Trace Entry) →
            Faithful (layout_of self.new) t ↔ Faithful (layout_of self.old) t }
        ensures left { left_of self.new.machine.receiver.inbox ≡
            left_of self.old.machine.receiver.inbox }
        ensures load { queued_of self.new.machine.sender.outbox ≤
            queued_of self.old.machine.sender.outbox }
        ensures stays_closed { (e : ℕ) → condition_of self.old ≡ IsClosed e →
            (condition_of self.new ≡ IsClosed e) × (result ≡ None) }
        ensures layout { layout_of self.new ≡ layout_of self.old }
        ensures kind { self.new.kind ≡ self.old.kind }
    {
        match &mut self.core {
            AnyCore::First(core) => core.poll(now, out),
            AnyCore::Second(core) => core.poll(now, out),
        }
    }

    fn give(&mut self, bytes: &[u8]) -> Result<(), GiveRefusal>
        ensures answer { result ≡
            give_answer (condition_of self.old) (queued_of self.old.machine.sender.outbox) (length bytes.now) }
        ensures trace { OnOk result ((t : Trace Entry) → Stands self.old t →
            Stands self.new (t ▷ Gave bytes.now)) }
        ensures law { (t : Trace Entry) →
            Faithful (layout_of self.new) t ↔ Faithful (layout_of self.old) t }
        ensures left { left_of self.new.machine.receiver.inbox ≡
            left_of self.old.machine.receiver.inbox }
        ensures load { OnOk result (queued_of self.new.machine.sender.outbox ≡
            queued_of self.old.machine.sender.outbox + length bytes.now) }
        ensures state { condition_of self.new ≡ condition_of self.old }
        ensures unchanged { OnErr result (self.new ≡ self.old) }
        ensures layout { layout_of self.new ≡ layout_of self.old }
        ensures kind { self.new.kind ≡ self.old.kind }
    {
        match &mut self.core {
            AnyCore::First(core) => core.give(bytes),
            AnyCore::Second(core) => core.give(bytes),
        }
    }

    fn pull(&mut self, out: &mut [u8]) -> usize
        ensures count { result ≡
            min (length out.old) (length (left_of self.old.machine.receiver.inbox)) }
        ensures bytes { take result out.new ≡
            take result (left_of self.old.machine.receiver.inbox) }
        ensures rest { drop result out.new ≡ drop result out.old }
        ensures left { left_of self.new.machine.receiver.inbox ≡
            drop result (left_of self.old.machine.receiver.inbox) }
        ensures trace { (t : Trace Entry) → Stands self.old t →
            Stands self.new (t ▷ Pulled (length out.old) (take result out.new)) }
        ensures law { (t : Trace Entry) →
            Faithful (layout_of self.new) t ↔ Faithful (layout_of self.old) t }
        ensures load { queued_of self.new.machine.sender.outbox ≡
            queued_of self.old.machine.sender.outbox }
        ensures state { condition_of self.new ≡ condition_of self.old }
        ensures layout { layout_of self.new ≡ layout_of self.old }
        ensures kind { self.new.kind ≡ self.old.kind }
    {
        match &mut self.core {
            AnyCore::First(core) => core.pull(out),
            AnyCore::Second(core) => core.pull(out),
        }
    }

    fn queued(&self) -> usize
        ensures value { result ≡ queued_of self.now.machine.sender.outbox }
        ensures history { (t : Trace Entry) → Stands self.now t →
            result ≡ queued limits (acts (layout_of self.now) t) }
    {
        match &self.core {
            AnyCore::First(core) => core.queued(),
            AnyCore::Second(core) => core.queued(),
        }
    }

    fn next_due(&self) -> Option<u64> {
        match &self.core {
            AnyCore::First(core) => core.next_due(),
            AnyCore::Second(core) => core.next_due(),
        }
    }

    fn state(&self) -> LinkState {
        match &self.core {
            AnyCore::First(core) => core.state(),
            AnyCore::Second(core) => core.state(),
        }
    }

    ghost keeps = { λ c t h. h.faithful };
}
