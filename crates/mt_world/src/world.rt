//! A world: two sides and the main stream between them.

ghost use Rattle.std.specs.Prelude.{◌≡◌, ◌++◌, OnOk};
ghost use Rattle.play_report.specs.Lines.{channel_line};

use crate::refusal::StepRefusal;
use crate::side::Side;
use mt_base::{NoMemory, Role};
use mt_script::{Event, Text};
use play_report::Report;
use std::alloc::Global;

/// Two ends of a session, and all that was sent, delivered and moved between them.
#[derive(Drop)]
pub struct World {
    alloc: Global,
    server: Side,
    client: Side,
}

impl World {
    ghost use Rattle.std.specs.Prelude.{◌≡◌, IfOk, OnOk};
    ghost use Rattle.mt_base.specs.Trace.{Trace};
    ghost use Rattle.mt_base.specs.declared.kinds.Role.{Role};
    ghost use Rattle.mt_base.specs.declared.kinds.Role.TheVariants.{Server, Client};
    ghost use Rattle.mt_script.specs.declared.event.Event.TheVariants as event;
    ghost use Rattle.mt_world.specs.Acts.{Entry};
    ghost use Rattle.mt_world.specs.Play.{start, calls, played, all_taken};
    ghost use Rattle.mt_world.specs.Report.{report};
    ghost use Rattle.mt_world.specs.WorldView.{Stands, Steps};

    /// A world in which both ends were just made.
    pub fn new(alloc: Global) -> Result<World, NoMemory>
        ensures { IfOk result (λ world. Stands world start) }
    {
        let server = Side::new(alloc, Role::Server)?;
        let client = Side::new(alloc, Role::Client)?;
        Ok(World {
            alloc,
            server,
            client,
        })
    }

    /// Plays one event, and then hands out all whole messages at both sides.
    ///
    /// A refused event changes nothing. After [`StepRefusal::NoMemory`] the world is not to be used
    /// again.
    pub fn step(&mut self, event: &Event) -> Result<(), StepRefusal>
        ensures { (w : Trace (Role × Entry)) → Stands self.old w → Steps result self.new w (played w event.now) }
    {
        match self.call(event) {
            Ok(()) => match self.hand_out() {
                Ok(()) => Ok(()),
                Err(NoMemory) => Err(StepRefusal::NoMemory),
            },
            Err(cause) => Err(cause),
        }
    }

    /// The calls of an event.
    fn call(&mut self, event: &Event) -> Result<(), StepRefusal>
        ensures { (w : Trace (Role × Entry)) → Stands self.old w → Steps result self.new w (calls w event.now) }
    {
        match event {
            Event::Open { name } => self.open(name),
            Event::Send { side, id, message } => self.send(*side, *id, message),
            Event::Main { side } => self.move_main(*side),
        }
    }

    /// The server creates a channel.
    fn open(&mut self, name: &Text) -> Result<(), StepRefusal>
        ensures { (w : Trace (Role × Entry)) → Stands self.old w → Steps result self.new w (calls w (event.Open name.now)) }
    {
        self.server.open(self.alloc, name.bytes())
    }

    /// An end sends a message.
    fn send(&mut self, side: Role, id: u32, message: &Text) -> Result<(), StepRefusal>
        ensures { (w : Trace (Role × Entry)) → Stands self.old w → Steps result self.new w (calls w (event.Send side id message.now)) }
    {
        if !self.server.end().is_made(id) {
            return Err(StepRefusal::UnknownChannel);
        }
        match side {
            Role::Server => self.server.send(self.alloc, message.bytes()),
            Role::Client => self.client.send(self.alloc, message.bytes()),
        }
    }

    /// All main stream bytes that one end wrote reach the other.
    fn move_main(&mut self, side: Role) -> Result<(), StepRefusal>
        ensures { (w : Trace (Role × Entry)) → Stands self.old w → Steps result self.new w (calls w (event.Main side)) }
    {
        let moved = match side {
            Role::Server => {
                let bytes = self.server.main_out(self.alloc);
                self.client.main_in(self.alloc, &bytes)
            }
            Role::Client => {
                let bytes = self.client.main_out(self.alloc);
                self.server.main_in(self.alloc, &bytes)
            }
        };
        match moved {
            Ok(()) => Ok(()),
            Err(NoMemory) => Err(StepRefusal::NoMemory),
        }
    }

    /// All whole messages are handed out at both sides.
    fn hand_out(&mut self) -> Result<(), NoMemory>
        ensures { (w : Trace (Role × Entry)) → Stands self.old w → OnOk result (Stands self.new (all_taken Client (all_taken Server w))) }
    {
        self.server.hand_out(self.alloc)?;
        self.client.hand_out(self.alloc)
    }

    /// The report on all that was played, a text of lines.
    ///
    /// For each channel, the server's line first: `channel ID NAME SIDE sent N DIGEST delivered M
    /// DIGEST`, with the count and the SHA-256 of the messages, joined, that the side sent and that
    /// came to the other. Last `main server X client Y`, how many main stream bytes of each side
    /// reached the other. Memory alone can be wanting.
    pub fn report(&self) -> Result<Text, NoMemory>
        ensures { IfOk result (λ text. (w : Trace (Role × Entry)) → Stands self.now w → text ≡ report w) }
    {
        let mut report = Report::new(self.alloc);
        if let Some(name) = self.server.end().names().first() {
            tell(&mut report, name, Role::Server, &self.server, &self.client)?;
            tell(&mut report, name, Role::Client, &self.client, &self.server)?;
        }
        report.main(self.client.arrived() as u64, self.server.arrived() as u64)?;
        Ok(report.into_text())
    }
}

/// The line of what one side sent on the first channel, and of what came of it at the other.
fn tell(
    report: &mut Report,
    name: &Text,
    side: Role,
    from: &Side,
    to: &Side,
) -> Result<(), NoMemory>
    ensures { OnOk result (report.new ≡
        report.old ++ channel_line 1 name.now side from.now.sent.items (to.now.received.items ++ to.now.end.inbox.items)) }
{
    report.channel(1, name.bytes(), side, &from.sent(), &to.delivered())
}
