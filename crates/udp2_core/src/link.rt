//! The link.

ghost use Rattle.std.specs.Prelude.{◌≡◌, [], length, IfOk};
ghost use Rattle.mt_base.specs.Trace.{Trace, Start, ◌▷◌};
ghost use Rattle.mt_windows.specs.ArrivedView.{left_of};
ghost use Rattle.mt_windows.specs.Sending.{queued};
ghost use Rattle.mt_windows.specs.SendingView.{limits, queued_of};
ghost use Rattle.carrier.specs.Due.{IsNextDue};
ghost use Rattle.carrier.specs.Entries.{Entry, Gave, Owed};
ghost use Rattle.carrier.specs.Law.{Faithful, IsBytes};
ghost use Rattle.carrier.specs.Sending.{acts};
ghost use Rattle.carrier.specs.declared.state.LinkState.TheVariants.{Open};
ghost use Rattle.udp2_core.specs.SecondLayout.{second_layout};
ghost use Rattle.udp2_core.specs.MachineView.{Stands, condition_of};

use crate::second::Second;
use carrier::{Carrier, GiveRefusal, LinkState, Took};
use link_machine::{Machine, ReceiverConfig, SenderConfig, WireLayout};
use mt_base::NoMemory;
use std::alloc::Global;
use std::marker::Model;

/// The first number of this end's parts and transmissions, and the shortest wait of the timer.
const SENDER: SenderConfig = SenderConfig { own: 1, wait: 300 };

/// The first number of the other end's, and how long one telling may be owed.
const RECEIVER: ReceiverConfig = ReceiverConfig { peer: 1, delay: 50 };

/// A reliable link whose datagrams have the second layout (MS-RDPEUDP2 section 2.2), open from the
/// start. It has no socket and no clock.
#[derive(Drop)]
pub struct Udp2Core {
    machine: Machine<Second>,
}

impl Model for Udp2Core {
    ghost use Rattle.udp2_core.specs.MachineView.{IsSecond, Machine as Whole};

    ghost Value = { Whole };

    ghost view = { λ c. c.machine };

    ghost invariant = { λ c. IsSecond c.machine };
}

impl Udp2Core {
    /// A link of version 0x0101.
    pub fn new(alloc: Global) -> Result<Udp2Core, NoMemory>
        ensures stands { IfOk result (λ c. Stands c Start) }
        ensures left { IfOk result (λ c. left_of c.receiver.inbox ≡ []) }
        ensures queued { IfOk result (λ c. queued_of c.sender.outbox ≡ 0) }
        ensures open { IfOk result (λ c. condition_of c ≡ Open) }
    {
        let machine = Machine::new(alloc, SENDER, RECEIVER)?;
        Ok(Udp2Core { machine })
    }

    /// Forgets everything, and is as a new link.
    pub fn start(&mut self)
        ensures stands { Stands self.new Start }
        ensures left { left_of self.new.receiver.inbox ≡ [] }
        ensures queued { queued_of self.new.sender.outbox ≡ 0 }
        ensures open { condition_of self.new ≡ Open }
    {
        self.machine.start(SENDER, RECEIVER);
    }

    /// A link of version 0x0101 on the memory of a machine of any layout. It is as a new one that was
    /// given the bytes which were given to the machine and not cut into parts. It takes no memory.
    pub fn on_machine<L: WireLayout>(machine: Machine<L>) -> Udp2Core
        ensures stands { let waiting = machine.sender.outbox.waiting in
            IsBytes waiting → Stands result (Start ▷ Gave waiting) }
        ensures empty { machine.sender.outbox.waiting ≡ [] → Stands result Start }
        ensures left { left_of result.receiver.inbox ≡ [] }
        ensures queued { queued_of result.sender.outbox ≡ length machine.sender.outbox.waiting }
        ensures open { condition_of result ≡ Open }
    {
        Udp2Core {
            machine: machine.renewed(SENDER, RECEIVER),
        }
    }

    /// Gives its machine up.
    pub fn into_machine(self) -> Machine<Second>
        ensures { result ≡ self }
    {
        self.machine
    }

    /// Makes so many tellings more owed.
    pub fn owe(&mut self, count: u32)
        ensures trace { (t : Trace Entry) → Stands self.old t → Stands self.new (t ▷ Owed count) }
        ensures state { condition_of self.new ≡ condition_of self.old }
        ensures left { left_of self.new.receiver.inbox ≡ left_of self.old.receiver.inbox }
        ensures queued { queued_of self.new.sender.outbox ≡ queued_of self.old.sender.outbox }
    {
        self.machine.owe(count);
    }
}

impl Carrier for Udp2Core {
    ghost stands = { λ c t. Stands c t };

    ghost law = { λ c t. Faithful second_layout t };

    ghost load = { λ c. queued_of c.sender.outbox };

    ghost left = { λ c. left_of c.receiver.inbox };

    ghost condition = { λ c. condition_of c };

    ghost next = { λ c t m. IsNextDue second_layout t m };

    fn input(&mut self, now: u64, datagram: &[u8]) -> Took {
        self.machine.input(now, datagram)
    }

    fn poll(&mut self, now: u64, out: &mut [u8; 1232]) -> Option<usize> {
        self.machine.poll(now, out)
    }

    fn give(&mut self, bytes: &[u8]) -> Result<(), GiveRefusal> {
        self.machine.give(bytes)
    }

    fn pull(&mut self, out: &mut [u8]) -> usize {
        self.machine.pull(out)
    }

    fn queued(&self) -> usize
        ensures value { result ≡ queued_of self.now.sender.outbox }
        ensures history { (t : Trace Entry) → Stands self.now t →
            result ≡ queued limits (acts second_layout t) }
    {
        self.machine.queued()
    }

    fn next_due(&self) -> Option<u64> {
        self.machine.next_due()
    }

    fn state(&self) -> LinkState {
        self.machine.state()
    }

    ghost keeps = { λ c t h. h.faithful };
}
