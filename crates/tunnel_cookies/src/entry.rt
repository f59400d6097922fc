//! An entry, and the verdict on who asks with it.

use mt_base::Kind;

/// Why a cookie is not issued. The table stays as it was.
#[derive(Clone, Copy, Debug, PartialEq, Eq)]
pub enum IssueRefusal {
    /// The id has an entry.
    Known,
    /// The table has this many entries, and takes no more.
    TooMany { limit: usize },
}

/// What becomes of a link that asks for a tunnel.
#[derive(Clone, Copy, Debug, PartialEq, Eq)]
pub enum Verdict {
    /// The tunnel opens, and its entry is spent by this link.
    Opened,
    /// This link opened it before.
    Again,
    /// The id has no entry.
    Unknown,
    /// The cookie is not that of the entry.
    WrongCookie,
    /// The entry is for the other kind of link.
    WrongKind,
    /// Another link spent the entry.
    Spent { link: u32 },
}

/// A cookie that was issued: for which kind of link, and which link spent it.
#[derive(Clone, Copy, Debug, PartialEq, Eq)]
pub struct Entry {
    pub kind: Kind,
    pub cookie: [u8; 16],
    pub spender: Option<u32>,
}

impl Entry {
    ghost use Rattle.std.specs.Prelude.{Some};
    ghost use Rattle.tunnel_cookies.specs.Entries.{IsVerdict};

    /// The verdict on a link that asks with the entry's id.
    pub(crate) fn verdict(&self, link: u32, kind: Kind, cookie: &[u8]) -> Verdict
        ensures { IsVerdict link kind cookie.now (Some self.now) result }
    {
        if cookie != self.cookie.as_slice() {
            return Verdict::WrongCookie;
        }
        if kind != self.kind {
            return Verdict::WrongKind;
        }
        match self.spender {
            None => Verdict::Opened,
            Some(spender) if spender == link => Verdict::Again,
            Some(spender) => Verdict::Spent { link: spender },
        }
    }
}
