//! The actions of tunnel PDUs.

ghost use Rattle.std.specs.Prelude.{◌≡◌};

/// Asks to open a tunnel.
pub(crate) const CREATE_REQUEST: u8 = 0;
/// Answers that.
pub(crate) const CREATE_RESPONSE: u8 = 1;
/// Bytes of a channel.
pub(crate) const DATA: u8 = 2;

/// What a tunnel PDU is for: the field Action of its header (MS-RDPEMT section 2.2.1.1).
#[derive(Clone, Copy, Debug, PartialEq, Eq)]
pub(crate) enum Action {
    CreateRequest,
    CreateResponse,
    Data,
}

impl Action {
    ghost use Rattle.std.specs.Prelude.{◌≡◌};
    ghost use Rattle.tunnel_pdus.specs.Reading.{action_of};

    /// The action that a code names.
    pub(crate) fn of(code: u8) -> Option<Action>
        ensures { result ≡ action_of code }
    {
        match code {
            CREATE_REQUEST => Some(Action::CreateRequest),
            CREATE_RESPONSE => Some(Action::CreateResponse),
            DATA => Some(Action::Data),
            _ => None,
        }
    }
}
