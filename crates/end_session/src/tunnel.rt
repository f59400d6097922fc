//! What is known of one tunnel.

ghost use Rattle.std.specs.Prelude.{◌≡◌, Some, None, option_map, if◌then◌else◌};
ghost use Rattle.mt_endpoint.specs.Tunnels.{is_for, not_zero};
ghost use Rattle.end_session.specs.AskedView.{request_of};

use mt_base::Role;
use std::marker::Model;

/// The id and the cookie of a request for a tunnel (MS-RDPBCGR section 2.2.15.1).
#[derive(Clone, Copy, Debug, PartialEq, Eq)]
pub struct Asked {
    pub id: u32,
    pub cookie: [u8; 16],
}

/// What a tunnel is: the first of silent, open, refused, attached and asked that holds.
#[derive(Clone, Copy, Debug, PartialEq, Eq)]
pub enum TunnelState {
    /// It was not asked for.
    None,
    /// It was asked for.
    Asked,
    /// It has its link.
    Attached,
    /// It carries data.
    Open,
    /// It was refused with this code.
    Refused { hr: u32 },
    /// Its link closed after so many expiries, or its create request was never answered.
    Silent { expiries: u32 },
}

/// What an end knows of one of its tunnels. Clauses see it as `Known`.
#[derive(Drop)]
pub struct Tunnel {
    asked: Option<Asked>,
    is_attached: bool,
    was_opened: bool,
    answer: Option<u32>,
    told_refusal: Option<u32>,
    silence: Option<u32>,
}

/// The code by which a response with this id refuses the tunnel that was asked for.
fn refusal_for(asked: Option<Asked>, id: u32, hr: u32) -> Option<u32>
    ensures { result ≡ (if is_for (option_map request_of asked) id then not_zero (Some hr) else None) }
{
    let Some(asked) = asked else { return None };
    if asked.id != id {
        return None;
    }
    if hr == 0 {
        return None;
    }
    Some(hr)
}

impl Model for Tunnel {
    ghost use Rattle.std.specs.Prelude.{option_map};
    ghost use Rattle.end_session.specs.Known.{Known};
    ghost use Rattle.end_session.specs.AskedView.{request_of};

    ghost Value = { Known };

    ghost view = { λ s. record { asked = option_map request_of s.asked; is_attached = s.is_attached; was_opened = s.was_opened; answer = s.answer; told_refusal = s.told_refusal; silence = s.silence } };
}

impl Tunnel {
    ghost use Rattle.std.specs.Prelude.{◌≡◌, Some, None, true, is_some, option_map, if◌then◌else◌};
    ghost use Rattle.mt_endpoint.specs.Tunnels.{is_for, not_zero};
    ghost use Rattle.std.specs.Option.{option_or};
    ghost use Rattle.end_session.specs.Known.{Known, unknown, tunnel_in, state_of, is_open_in, is_live_in, is_settled_in, refusal_in};
    ghost use Rattle.end_session.specs.AskedView.{request_of};

    /// A tunnel of which nothing is known.
    pub fn new() -> Tunnel
        ensures { result ≡ unknown }
    {
        Tunnel {
            asked: None,
            is_attached: false,
            was_opened: false,
            answer: None,
            told_refusal: None,
            silence: None,
        }
    }

    /// It is asked for. The first request counts.
    pub fn ask(&mut self, asked: Asked)
        ensures { self.new ≡ record self.old { asked = option_or self.old.asked (Some (request_of asked)) } }
    {
        self.asked = self.asked.or(Some(asked));
    }

    /// It gets its link.
    pub fn attach(&mut self)
        ensures { self.new ≡ record self.old { is_attached = true } }
    {
        self.is_attached = true;
    }

    /// The server's verdict opens it.
    pub fn set_opened(&mut self)
        ensures { self.new ≡ record self.old { was_opened = true } }
    {
        self.was_opened = true;
    }

    /// The client draws an answer to its create request. The first one counts.
    pub fn set_answer(&mut self, hr: u32)
        ensures { self.new ≡ record self.old { answer = option_or self.old.answer (Some hr) } }
    {
        self.answer = self.answer.or(Some(hr));
    }

    /// It is refused with a code that isn't 0. The first one counts.
    pub fn refuse(&mut self, hr: u32)
        ensures { self.new ≡ record self.old { told_refusal = option_or self.old.told_refusal (Some hr) } }
    {
        self.told_refusal = self.told_refusal.or(Some(hr));
    }

    /// The client tells what became of the tunnel that it was asked for under this id (MS-RDPBCGR section
    /// 2.2.15.2). Where it is this one, a code that isn't 0 refuses it.
    pub fn got_response(&mut self, id: u32, hr: u32)
        ensures { self.new ≡ record self.old { told_refusal = option_or self.old.told_refusal (if is_for self.old.asked id then not_zero (Some hr) else None) } }
    {
        self.told_refusal = self.told_refusal.or(refusal_for(self.asked, id, hr));
    }

    /// It is silent after so many expiries. The first count stays.
    pub fn set_silent(&mut self, expiries: u32)
        ensures { self.new ≡ record self.old { silence = option_or self.old.silence (Some expiries) } }
    {
        self.silence = self.silence.or(Some(expiries));
    }

    /// The request for it, where there is one.
    pub fn asked(&self) -> Option<Asked>
        ensures { option_map request_of result ≡ self.now.asked }
    {
        self.asked
    }

    /// Whether it has its link.
    pub fn is_attached(&self) -> bool
        ensures { result ≡ self.now.is_attached }
    {
        self.is_attached
    }

    /// The first answer that the client drew.
    pub fn answer(&self) -> Option<u32>
        ensures { result ≡ self.now.answer }
    {
        self.answer
    }

    /// Whether it opened at an end of this role.
    pub fn is_open(&self, role: Role) -> bool
        ensures { result ≡ is_open_in role self.now }
    {
        match role {
            Role::Server => self.was_opened,
            Role::Client => self.answer == Some(0),
        }
    }

    /// After how many expiries it is silent, where it is.
    pub fn silence(&self) -> Option<u32>
        ensures { result ≡ self.now.silence }
    {
        self.silence
    }

    /// Whether it is silent.
    pub fn is_silent(&self) -> bool
        ensures { result ≡ is_some self.now.silence }
    {
        self.silence.is_some()
    }

    /// Whether it is open, and carries.
    pub fn is_live(&self, role: Role) -> bool
        ensures { result ≡ is_live_in role self.now }
    {
        self.is_open(role) && !self.is_silent()
    }

    /// The code by which it is refused.
    pub fn refusal(&self, role: Role) -> Option<u32>
        ensures { result ≡ refusal_in role self.now }
    {
        match role {
            Role::Server => self.told_refusal,
            Role::Client => self.told_refusal.or(self.answer.filter(|hr| *hr != 0)),
        }
    }

    /// Whether it is known what became of it: it is open, refused or silent.
    pub fn is_settled(&self, role: Role) -> bool
        ensures { result ≡ is_settled_in role self.now }
    {
        self.is_silent() || self.is_open(role) || self.refusal(role).is_some()
    }

    /// What it is, as a caller sees it.
    pub fn state(&self, role: Role) -> TunnelState
        ensures { result ≡ state_of (tunnel_in role self.now) }
    {
        if let Some(expiries) = self.silence {
            return TunnelState::Silent { expiries };
        }
        if self.is_open(role) {
            return TunnelState::Open;
        }
        if let Some(hr) = self.refusal(role) {
            return TunnelState::Refused { hr };
        }
        if self.is_attached {
            return TunnelState::Attached;
        }
        if self.asked.is_some() {
            return TunnelState::Asked;
        }
        TunnelState::None
    }
}
