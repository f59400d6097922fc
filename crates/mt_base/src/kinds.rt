//! The two ends of a session, and the two kinds of link between them.

ghost use Rattle.std.specs.Prelude.{◌≡◌};

/// An end of a session.
#[derive(Clone, Copy, Debug, PartialEq, Eq)]
pub enum Role {
    /// The end that listens, creates channels and asks for tunnels.
    Server,
    /// The end that connects and answers.
    Client,
}

impl Role {
    ghost use Rattle.mt_base.specs.Ends.{other};

    /// The end at the other side.
    pub fn other(self) -> Role
        ensures { result ≡ other self }
    {
        match self {
            Role::Server => Role::Client,
            Role::Client => Role::Server,
        }
    }
}

/// A kind of link: `Reliable` delivers each part in order, `Lossy` may lose some.
#[derive(Clone, Copy, Debug, PartialEq, Eq)]
pub enum Kind {
    /// Lost parts are sent again (MS-RDPEUDP section 1.3.2, RDP-UDP-R).
    Reliable,
    /// Lost parts stay lost (MS-RDPEUDP section 1.3.2, RDP-UDP-L).
    Lossy,
}
