//! What is kept of messages that come one by one: how many, and the SHA-256 of their bytes.

use sha2::{Digest, Sha256};

/// How many messages came so far, and the SHA-256 of their bytes, joined in the order in which they
/// came.
///
/// The messages themselves are not kept, and no call takes memory.
#[derive(Drop)]
pub struct Tally {
    count: u64,
    hasher: Sha256,
}

impl Tally {
    ghost use Rattle.std.specs.Prelude.{◌≡◌, ℕ, List, [], ◌∷◌, ◌++◌, length};
    ghost use Rattle.sha2.specs.Sha256.{sha256};
    ghost use Rattle.mt_base.specs.Writing.{joined};
    ghost use Rattle.play_report.specs.Tallying.{told_count, Counts};

    /// The tally of no message.
    pub fn new() -> Tally
        ensures { Counts result [] }
    {
        Tally {
            count: 0,
            hasher: Sha256::new(),
        }
    }

    /// One more message came; an empty one counts too.
    pub fn add(&mut self, message: &[u8])
        ensures { (messages : List (List ℕ)) → Counts self.old messages → Counts self.new (messages ++ message.now ∷ []) }
    {
        self.count = self.count.saturating_add(1);
        self.hasher.update(message);
    }

    /// How many messages came. The count stops at the greatest u64.
    pub fn count(&self) -> u64
        ensures { (messages : List (List ℕ)) → Counts self.now messages → result ≡ told_count (length messages) }
    {
        self.count
    }

    /// The SHA-256 of the bytes of all messages that came, joined; that of no bytes where none came.
    pub fn digest(&self) -> [u8; 32]
        ensures { (messages : List (List ℕ)) → Counts self.now messages → result ≡ sha256 (joined messages) }
    {
        // A copy of a hasher takes no memory, so there always is one.
        self.hasher.clone().unwrap().finalize()
    }
}
