//! The table of issued cookies.

ghost use Rattle.std.specs.Prelude.{◌≡◌, ◌↔◌, IsTrue};
ghost use Rattle.sha2.specs.Sha256.{sha256};

use crate::entry::{Entry, IssueRefusal, Verdict};
use indexmap::IndexMap;
use mt_base::{Kind, NoMemory};
use sha2::{Digest, Sha256};
use std::alloc::Global;
use std::marker::Model;

/// The entries that a table has at most.
const LIMIT: usize = 16;

/// The cookies that a server handed out, each under its id, in order of issue.
#[derive(Drop)]
pub struct Issued {
    entries: IndexMap<u32, Entry>,
}

impl Model for Issued {
    ghost use Rattle.std.specs.Prelude.{◌+◌, ◌≤◌, length};
    ghost use Rattle.indexmap.specs.IndexMap.{spare};
    ghost use Rattle.tunnel_cookies.specs.Entries.{Entries};

    ghost Value = { Entries };

    ghost view = { λ s. s.entries.entries };

    ghost invariant = { λ s. (length s.entries.entries ≤ 16) × (16 ≤ length s.entries.entries + spare s.entries) };
}

impl Issued {
    ghost use Rattle.std.specs.Prelude.{◌≡◌, ◌<◌, ◌++◌, ◌∷◌, [], length, None, IfOk, OnOk, IfErr, OnErr, IfSome, IfNone};
    ghost use Rattle.tunnel_cookies.specs.Entries.{IsVerdict, WhyNot, FirstHas, NoneHas, entry_of, unspent, after};

    /// An empty table, with room for 16 entries. No other call takes memory.
    pub fn new(alloc: Global) -> Result<Issued, NoMemory>
        ensures { IfOk result (λ issued. issued ≡ []) }
    {
        Ok(Issued {
            entries: IndexMap::with_capacity(alloc, LIMIT)?,
        })
    }

    /// Why an id gets no entry. Known is looked at before TooMany.
    pub fn refusal(&self, id: u32) -> Option<IssueRefusal>
        ensures refused { IfSome result (λ why. WhyNot id self.now why) }
        ensures allowed { IfNone result ((entry_of id self.now ≡ None) × (length self.now < 16)) }
    {
        if self.entries.get(&id).is_some() {
            return Some(IssueRefusal::Known);
        }
        if self.entries.len() >= LIMIT {
            return Some(IssueRefusal::TooMany { limit: LIMIT });
        }
        None
    }

    /// Adds an entry for an id that has none. Known is looked at before TooMany.
    pub fn issue(&mut self, id: u32, kind: Kind, cookie: &[u8; 16]) -> Result<(), IssueRefusal>
        ensures issued { OnOk result (self.new ≡ self.old ++ (id, unspent kind cookie.now) ∷ []) }
        ensures allowed { OnOk result ((entry_of id self.old ≡ None) × (length self.old < 16)) }
        ensures refused { IfErr result (λ why. WhyNot id self.old why) }
        ensures unchanged { OnErr result (self.new ≡ self.old) }
    {
        if let Some(why) = self.refusal(id) {
            return Err(why);
        }
        let entry = Entry {
            kind,
            cookie: *cookie,
            spender: None,
        };
        // There is room for each entry, so that no memory is taken here.
        match self.entries.insert(id, entry) {
            Ok(_) => Ok(()),
            Err(_) => unreachable!(),
        }
    }

    /// The id of the first entry whose cookie has this SHA-256.
    pub fn by_hash(&self, hash: &[u8; 32]) -> Option<u32>
        ensures found { IfSome result (λ id. FirstHas hash.now self.now id) }
        ensures none { IfNone result (NoneHas hash.now self.now) }
    {
        for index in 0..self.entries.len() {
            let Some((id, entry)) = self.entries.get_index(index) else {
                unreachable!()
            };
            if has_hash(entry, hash) {
                return Some(*id);
            }
        }
        None
    }

    /// Looks whether a link may open a tunnel. The entry that opens one is spent by that link.
    pub fn open(&mut self, link: u32, kind: Kind, id: u32, cookie: &[u8]) -> Verdict
        ensures verdict { IsVerdict link kind cookie.now (entry_of id self.old) result }
        ensures table { self.new ≡ after link id result (entry_of id self.old) self.old }
    {
        let Some(entry) = self.entries.get_mut(&id) else {
            return Verdict::Unknown;
        };
        match entry.verdict(link, kind, cookie) {
            Verdict::Opened => {
                entry.spender = Some(link);
                Verdict::Opened
            }
            refused => refused,
        }
    }
}

/// Whether an entry's cookie has this SHA-256.
fn has_hash(entry: &Entry, hash: &[u8; 32]) -> bool
    ensures { IsTrue result ↔ (sha256 entry.now.cookie ≡ hash.now) }
{
    let mut hasher = Sha256::new();
    hasher.update(entry.cookie.as_slice());
    hasher.finalize() == *hash
}
