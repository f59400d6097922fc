//! One side of a world: its end, and what it sent, received and took so far.

ghost use Rattle.std.specs.Prelude.{◌≡◌, ℕ, List, ◌++◌, OnOk};
ghost use Rattle.play_report.specs.Tallying.{Counts};

use crate::end::End;
use crate::refusal::{Refused, StepRefusal};
use mt_base::{NoMemory, Role};
use mt_script::Text;
use play_report::Tally;
use std::alloc::Global;

/// An end, and beside it what a report counts.
#[derive(Drop)]
pub(crate) struct Side {
    end: End,
    sent: Vec<Text>,
    received: Vec<Text>,
    arrived: Vec<u8>,
}

impl Side {
    ghost use Rattle.std.specs.Prelude.{◌≡◌, ◌+◌, ◌≤◌, ◌++◌, length, IfOk, OnOk};
    ghost use Rattle.mt_base.specs.Trace.{Trace, Start, ◌▷◌};
    ghost use Rattle.mt_base.specs.declared.kinds.Role.{Role};
    ghost use Rattle.mt_world.specs.Acts.{Entry, Made, Opened, Sent, MainIn, MainOut, past, names, unsent, waiting};
    ghost use Rattle.mt_world.specs.Play.{handed_out, open_refusal_of, refused_open, send_refusal_of, refused_send};
    ghost use Rattle.mt_world.specs.SideView.{StandsAt, Does};

    /// A side whose end was just made.
    pub(crate) fn new(alloc: Global, role: Role) -> Result<Side, NoMemory>
        ensures { IfOk result (λ s. StandsAt s role (Start ▷ Made)) }
    {
        let end = End::new(alloc, role)?;
        Ok(Side {
            end,
            sent: Vec::new(alloc),
            received: Vec::new(alloc),
            arrived: Vec::new(alloc),
        })
    }

    /// The end.
    pub(crate) fn end(&self) -> &End
        ensures { result.now ≡ self.now.end }
    {
        &self.end
    }

    /// The tally of the messages that the end sent on the first channel.
    pub(crate) fn sent(&self) -> Tally
        ensures { Counts result self.now.sent.items }
    {
        let mut tally = Tally::new();
        add_all(&mut tally, &self.sent);
        tally
    }

    /// The tally of the messages of the first channel that came whole: those that were handed out,
    /// and those that wait.
    pub(crate) fn delivered(&self) -> Tally
        ensures { Counts result (self.now.received.items ++ self.now.end.inbox.items) }
    {
        let mut tally = Tally::new();
        add_all(&mut tally, &self.received);
        add_all(&mut tally, self.end.waiting());
        tally
    }

    /// How many bytes of the main stream the end took.
    pub(crate) fn arrived(&self) -> usize
        ensures { result ≡ length self.now.arrived.items }
    {
        self.arrived.len()
    }

    /// The end creates a channel of this name, or says why it doesn't.
    pub(crate) fn open(&mut self, alloc: Global, name: &[u8]) -> Result<(), StepRefusal>
        ensures { (role : Role) (t : Trace Entry) → StandsAt self.old role t →
            Does result self.new role t (refused_open (open_refusal_of (past role t).acts name.now)) (Opened (length (names (past role t).acts) + 1) name.now) }
    {
        match self.end.open_cause(name) {
            Some(cause) => Err(StepRefusal::Refused(Refused::Open(cause))),
            None => match self.end.open_channel(alloc, name) {
                Ok(()) => Ok(()),
                Err(NoMemory) => Err(StepRefusal::NoMemory),
            },
        }
    }

    /// The end sends a message on the first channel, or says why it doesn't.
    pub(crate) fn send(&mut self, alloc: Global, message: &[u8]) -> Result<(), StepRefusal>
        ensures { (role : Role) (t : Trace Entry) → StandsAt self.old role t →
            Does result self.new role t (refused_send (send_refusal_of (past role t).acts 1 message.now)) (Sent 1 message.now) }
    {
        match self.end.send_cause(message) {
            Some(cause) => Err(StepRefusal::Refused(Refused::Send(cause))),
            None => match self.send_and_keep(alloc, message) {
                Ok(()) => Ok(()),
                Err(NoMemory) => Err(StepRefusal::NoMemory),
            },
        }
    }

    /// The end sends a message, of which a copy is kept. The caller has seen that there is no cause
    /// against it.
    fn send_and_keep(&mut self, alloc: Global, message: &[u8]) -> Result<(), NoMemory>
        requires { length message.now ≤ 1598 }
        ensures { (role : Role) (t : Trace Entry) → StandsAt self.old role t →
            OnOk result (StandsAt self.new role (t ▷ Sent 1 message.now)) }
    {
        let kept = Text::new(alloc, message)?;
        self.end.send(message)?;
        self.sent.push(kept)?;
        Ok(())
    }

    /// All bytes that the end wrote and that were not taken before.
    pub(crate) fn main_out(&mut self, alloc: Global) -> Vec<u8>
        ensures { (role : Role) (t : Trace Entry) → StandsAt self.old role t →
            (result.items ≡ unsent role t) × StandsAt self.new role (t ▷ MainOut (length result.items) result.items) }
    {
        self.end.main_out(alloc)
    }

    /// The end takes bytes of the main stream.
    pub(crate) fn main_in(&mut self, alloc: Global, bytes: &[u8]) -> Result<(), NoMemory>
        ensures { (role : Role) (t : Trace Entry) → StandsAt self.old role t →
            OnOk result (StandsAt self.new role (t ▷ MainIn bytes.now (length bytes.now))) }
    {
        self.end.main_in(alloc, bytes)?;
        self.arrived.extend_from_slice(bytes)?;
        Ok(())
    }

    /// All whole messages are handed out.
    pub(crate) fn hand_out(&mut self, alloc: Global) -> Result<(), NoMemory>
        ensures { (role : Role) (t : Trace Entry) → StandsAt self.old role t →
            OnOk result (StandsAt self.new role (handed_out 1 t (waiting 1 role t))) }
    {
        let messages = self.end.take_all(alloc);
        append(&mut self.received, messages)
    }
}

/// Puts messages behind others.
fn append(to: &mut Vec<Text>, messages: Vec<Text>) -> Result<(), NoMemory>
    ensures { OnOk result (to.new.items ≡ to.old.items ++ messages.items) }
{
    to.extend(messages)?;
    Ok(())
}

/// Puts messages into a tally, one after the other.
fn add_all(tally: &mut Tally, messages: &[Text])
    ensures { (before : List (List ℕ)) → Counts tally.old before → Counts tally.new (before ++ messages.now) }
{
    for message in messages {
        tally.add(message.bytes());
    }
}
