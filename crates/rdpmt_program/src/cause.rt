//! Why a line of a script is refused by its step.

ghost use Rattle.std.specs.Prelude.{◌≡◌};
ghost use Rattle.rdpmt_program.specs.Script.{cause_name};

use mt_world::{OpenRefusal, Refused, SendRefusal};

/// Why a step is refused. Want of memory is none of these: it ends the play at no line.
#[derive(Clone, Copy)]
pub(crate) enum Cause {
    /// No `open` line made a channel of this id.
    UnknownChannel,
    /// An end refused.
    Refused(Refused),
}

impl Cause {
    /// The innermost name.
    pub(crate) fn name(self) -> &'static str
        ensures { result.now ≡ cause_name self }
    {
        match self {
            Cause::UnknownChannel => "UnknownChannel",
            Cause::Refused(Refused::Open(OpenRefusal::NotReady)) => "NotReady",
            Cause::Refused(Refused::Open(OpenRefusal::BadName { .. })) => "BadName",
            Cause::Refused(Refused::Open(OpenRefusal::TooMany { .. })) => "TooMany",
            Cause::Refused(Refused::Send(SendRefusal::UnknownChannel)) => "UnknownChannel",
            Cause::Refused(Refused::Send(SendRefusal::NotOpen)) => "NotOpen",
            Cause::Refused(Refused::Send(SendRefusal::MessageTooLong { .. })) => "MessageTooLong",
        }
    }
}
