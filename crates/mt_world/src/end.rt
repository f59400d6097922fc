//! One end of a session, as far as one channel on the main stream needs it.

ghost use Rattle.std.specs.Prelude.{◌≡◌, ◌==◌, if◌then◌else◌, take};
ghost use Rattle.std.specs.List.{position_from};
ghost use Rattle.mt_world.specs.Acts.{answered as answered_of};
ghost use Rattle.mt_world.specs.Play.{name_fault as name_fault_of, is_wrong};

use crate::channel::ChannelState;
use crate::frame::{read_frame, write_frame};
use crate::refusal::{OpenRefusal, SendRefusal};
use dvc_pdus::DvcPdu;
use mt_base::{NoMemory, Role};
use mt_script::Text;
use std::alloc::Global;
use std::mem;

/// The id of the one channel that a session has for now.
const CHANNEL: u32 = 1;

/// The greatest message, in bytes: what one data PDU of that channel can hold.
const MESSAGE: usize = 1598;

/// An end: what it has read and written on the main stream.
#[derive(Drop)]
pub(crate) struct End {
    role: Role,
    is_ready: bool,
    channel: ChannelState,
    names: Vec<Text>,
    part: Vec<u8>,
    queue: Vec<u8>,
    inbox: Vec<Text>,
}

impl End {
    ghost use Rattle.std.specs.Prelude.{◌≡◌, ℕ, ◌+◌, ◌++◌, ◌≤◌, List, [], length, fold, Option, IfOk, OnOk, IsNone, IsTrue, true};
    ghost use Rattle.mt_base.specs.Trace.{Trace, Start, ◌▷◌};
    ghost use Rattle.mt_base.specs.declared.kinds.Role.{Role};
    ghost use Rattle.dvc_pdus.specs.Value.{Caps, CreateRequest, CreateResponse, Data, IsName};
    ghost use Rattle.dvc_pdus.specs.Views.{pdu_of};
    ghost use Rattle.mt_world.specs.Acts.{Act, Past, Began, Opens, Sends, Reads, with_act, with_byte, names as names_of};
    ghost use Rattle.mt_world.specs.Frames.{is_spoken};
    ghost use Rattle.mt_world.specs.Play.{open_refusal_of, send_refusal_of, is_made as is_made_of};
    ghost use Rattle.mt_world.specs.EndView.{StandsFor};

    #[tactic(auto, unfolding(crate::specs::Acts::written))]
    /// An end that has had no call but this; the server has written its capabilities.
    pub(crate) fn new(alloc: Global, role: Role) -> Result<End, NoMemory>
        ensures { IfOk result (λ e. StandsFor e role (record { acts = Start ▷ Began; part = [] }) [] []) }
    {
        let mut end = End {
            role,
            is_ready: false,
            channel: ChannelState::Unknown,
            names: Vec::new(alloc),
            part: Vec::new(alloc),
            queue: Vec::new(alloc),
            inbox: Vec::new(alloc),
        };
        match role {
            Role::Server => {
                let capabilities = DvcPdu::Caps {
                    version: 3,
                    charges: Some([0; 4]),
                };
                write_frame(&mut end.queue, &capabilities)?;
                Ok(end)
            }
            Role::Client => Ok(end),
        }
    }

    /// Why no channel of this name is created, if there is a cause.
    pub(crate) fn open_cause(&self, name: &[u8]) -> Option<OpenRefusal>
        ensures cause { (role : Role) (p : Past) (left : List ℕ) (handed : List (List ℕ)) → StandsFor self.now role p left handed →
            result ≡ open_refusal_of p.acts name.now }
        ensures room { IsNone result → length self.now.names.items ≡ 0 }
        ensures name { IsNone result → IsName name.now }
    {
        if !self.is_ready {
            return Some(OpenRefusal::NotReady);
        }
        if let Some(at) = name_fault(name) {
            return Some(OpenRefusal::BadName { at });
        }
        if !self.names.is_empty() {
            return Some(OpenRefusal::TooMany { limit: 1 });
        }
        None
    }

    /// Creates the first channel. The caller has seen that there is no cause against it.
    pub(crate) fn open_channel(&mut self, alloc: Global, name: &[u8]) -> Result<(), NoMemory>
        requires first { length self.old.names.items ≡ 0 }
        requires name { IsName name.now }
        ensures { (role : Role) (p : Past) (left : List ℕ) (handed : List (List ℕ)) → StandsFor self.old role p left handed →
            OnOk result (StandsFor self.new role (with_act p (Opens (length (names_of p.acts) + 1) name.now)) left handed) }
    {
        let kept = Text::new(alloc, name)?;
        let request = DvcPdu::CreateRequest {
            id: CHANNEL,
            priority: 0,
            name,
        };
        write_frame(&mut self.queue, &request)?;
        self.names.push(kept)?;
        self.channel = ChannelState::Asked;
        Ok(())
    }

    /// Whether a channel of this id was made.
    pub(crate) fn is_made(&self, id: u32) -> bool
        ensures made { (role : Role) (p : Past) (left : List ℕ) (handed : List (List ℕ)) → StandsFor self.now role p left handed →
            result ≡ is_made_of id p.acts }
        ensures first { IsTrue result → id ≡ 1 }
    {
        id == CHANNEL && !self.names.is_empty()
    }

    /// Why this message is not sent on the first channel, if there is a cause.
    pub(crate) fn send_cause(&self, message: &[u8]) -> Option<SendRefusal>
        ensures cause { (role : Role) (p : Past) (left : List ℕ) (handed : List (List ℕ)) → StandsFor self.now role p left handed →
            result ≡ send_refusal_of p.acts 1 message.now }
        ensures short { IsNone result → length message.now ≤ 1598 }
    {
        match self.channel {
            ChannelState::Unknown => return Some(SendRefusal::UnknownChannel),
            ChannelState::Asked => return Some(SendRefusal::NotOpen),
            ChannelState::Refused => return Some(SendRefusal::NotOpen),
            ChannelState::Open => {}
        }
        if message.len() > MESSAGE {
            return Some(SendRefusal::MessageTooLong { limit: MESSAGE });
        }
        None
    }

    /// Sends a message on the first channel. The caller has seen that there is no cause against it.
    pub(crate) fn send(&mut self, message: &[u8]) -> Result<(), NoMemory>
        requires { length message.now ≤ 1598 }
        ensures { (role : Role) (p : Past) (left : List ℕ) (handed : List (List ℕ)) → StandsFor self.old role p left handed →
            OnOk result (StandsFor self.new role (with_act p (Sends 1 message.now)) left handed) }
    {
        let data = DvcPdu::Data {
            id: CHANNEL,
            bytes: message,
        };
        write_frame(&mut self.queue, &data)
    }

    /// All bytes that wait for the main stream; none waits afterwards.
    pub(crate) fn main_out(&mut self, alloc: Global) -> Vec<u8>
        ensures bytes { result.items ≡ self.old.queue.items }
        ensures left { (role : Role) (p : Past) (left : List ℕ) (handed : List (List ℕ)) → StandsFor self.old role p left handed →
            StandsFor self.new role p (left ++ result.items) handed }
    {
        mem::replace(&mut self.queue, Vec::new(alloc))
    }

    /// All whole messages of the first channel; none waits afterwards.
    pub(crate) fn take_all(&mut self, alloc: Global) -> Vec<Text>
        ensures messages { result.items ≡ self.old.inbox.items }
        ensures handed { (role : Role) (p : Past) (left : List ℕ) (handed : List (List ℕ)) → StandsFor self.old role p left handed →
            StandsFor self.new role p left (handed ++ result.items) }
    {
        mem::replace(&mut self.inbox, Vec::new(alloc))
    }

    /// The names of the channels that were made, in order of their ids.
    pub(crate) fn names(&self) -> &[Text]
        ensures { result.now ≡ self.now.names.items }
    {
        &self.names
    }

    /// The whole messages of the first channel that were not taken yet.
    pub(crate) fn waiting(&self) -> &[Text]
        ensures { result.now ≡ self.now.inbox.items }
    {
        &self.inbox
    }

    /// Takes bytes of the main stream, and does what each PDU that ends in them asks for.
    pub(crate) fn main_in(&mut self, alloc: Global, bytes: &[u8]) -> Result<(), NoMemory>
        ensures { (role : Role) (p : Past) (left : List ℕ) (handed : List (List ℕ)) → StandsFor self.old role p left handed →
            OnOk result (StandsFor self.new role (fold (with_byte role) p bytes.now) left handed) }
    {
        for byte in bytes {
            self.take_byte(alloc, *byte)?;
        }
        Ok(())
    }

    /// Takes one byte, which may end a frame.
    #[tactic(auto, unfolding(crate::specs::Acts::with_byte))]
    fn take_byte(&mut self, alloc: Global, byte: u8) -> Result<(), NoMemory>
        ensures { (role : Role) (p : Past) (left : List ℕ) (handed : List (List ℕ)) → StandsFor self.old role p left handed →
            OnOk result (StandsFor self.new role (with_byte role p byte) left handed) }
    {
        self.part.push(byte)?;
        let part = mem::replace(&mut self.part, Vec::new(alloc));
        match read_frame(self.role.other(), &part) {
            Some(pdu) => self.read(alloc, &pdu),
            None => {
                self.part = part;
                Ok(())
            }
        }
    }

    /// Does what a PDU that was read in full asks for.
    fn read(&mut self, alloc: Global, pdu: &DvcPdu<'_>) -> Result<(), NoMemory>
        requires { is_spoken (pdu_of pdu.now) ≡ true }
        ensures { (role : Role) (acts : Trace Act) (left : List ℕ) (handed : List (List ℕ)) →
            StandsFor self.old role (record { acts = acts; part = [] }) left handed →
            OnOk result (StandsFor self.new role (record { acts = acts ▷ Reads (pdu_of pdu.now); part = [] }) left handed) }
    {
        match *pdu {
            DvcPdu::Caps { .. } => self.read_capabilities(),
            DvcPdu::CreateRequest { id, .. } => self.read_create(id),
            DvcPdu::CreateResponse { id, status } => {
                self.read_answer(id, status);
                Ok(())
            }
            DvcPdu::Data { id, bytes } => self.read_data(alloc, id, bytes),
            _ => unreachable!(),
        }
    }

    /// The other end's capabilities: from now on the server may create channels; the client answers
    /// with its own.
    fn read_capabilities(&mut self) -> Result<(), NoMemory>
        ensures { (role : Role) (p : Past) (left : List ℕ) (handed : List (List ℕ)) → StandsFor self.old role p left handed →
            OnOk result ((version : ℕ) (charges : Option (List ℕ)) → StandsFor self.new role (with_act p (Reads (Caps version charges))) left handed) }
    {
        self.is_ready = true;
        match self.role {
            Role::Server => Ok(()),
            Role::Client => {
                let answer = DvcPdu::Caps {
                    version: 3,
                    charges: None,
                };
                write_frame(&mut self.queue, &answer)
            }
        }
    }

    /// The server creates a channel: the answer says that it was created.
    fn read_create(&mut self, id: u32) -> Result<(), NoMemory>
        ensures { (role : Role) (p : Past) (left : List ℕ) (handed : List (List ℕ)) → StandsFor self.old role p left handed →
            OnOk result ((priority : ℕ) (name : List ℕ) → StandsFor self.new role (with_act p (Reads (CreateRequest id priority name))) left handed) }
    {
        self.channel = state_after(self.channel, id, ChannelState::Open);
        let answer = DvcPdu::CreateResponse { id, status: 0 };
        write_frame(&mut self.queue, &answer)
    }

    /// The client's answer to a create request.
    fn read_answer(&mut self, id: u32, status: u32)
        ensures { (role : Role) (p : Past) (left : List ℕ) (handed : List (List ℕ)) → StandsFor self.old role p left handed →
            StandsFor self.new role (with_act p (Reads (CreateResponse id status))) left handed }
    {
        self.channel = state_after(self.channel, id, answered(status));
    }

    /// A whole message.
    fn read_data(&mut self, alloc: Global, id: u32, bytes: &[u8]) -> Result<(), NoMemory>
        ensures { (role : Role) (p : Past) (left : List ℕ) (handed : List (List ℕ)) → StandsFor self.old role p left handed →
            OnOk result (StandsFor self.new role (with_act p (Reads (Data id bytes.now))) left handed) }
    {
        if id != CHANNEL {
            return Ok(());
        }
        let message = Text::new(alloc, bytes)?;
        self.inbox.push(message)?;
        Ok(())
    }
}

/// The first channel's state after a PDU that says `new` of the channel `id`.
fn state_after(old: ChannelState, id: u32, new: ChannelState) -> ChannelState
    ensures { result ≡ (if id == 1 then new else old) }
{
    if id == CHANNEL { new } else { old }
}

/// What an answer to a create request makes of the channel: it was created where bit 31 of the
/// status is clear (MS-RDPEDYC section 2.2.2.2).
fn answered(status: u32) -> ChannelState
    ensures { result ≡ answered_of status }
{
    if status < 0x8000_0000 {
        ChannelState::Open
    } else {
        ChannelState::Refused
    }
}

/// The place of a name's fault, if it has one: its first wrong byte among the first 255, 0 where it
/// is empty, 255 where more bytes follow.
fn name_fault(name: &[u8]) -> Option<usize>
    ensures { result ≡ name_fault_of name.now }
{
    if name.is_empty() {
        return Some(0);
    }
    if let Some(at) = first_wrong(name) {
        return Some(at);
    }
    if name.len() > 255 { Some(255) } else { None }
}

/// The place of the first byte that a name may not have, among the first 255.
fn first_wrong(name: &[u8]) -> Option<usize>
    ensures { result ≡ position_from is_wrong 0 (take 255 name.now) }
{
    name.iter()
        .take(255)
        .position(|byte| *byte < 0x20 || 0x7e < *byte)
}
