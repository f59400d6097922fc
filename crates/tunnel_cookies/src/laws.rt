//! What holds of a table over all its calls.

ghost use Rattle.std.specs.Prelude.{◌≡◌, ◌≢◌, ℕ, List, Option};
ghost use Rattle.mt_base.specs.declared.kinds.Kind.{Kind};
ghost use Rattle.tunnel_cookies.specs.declared.entry.Entry.{Entry};
ghost use Rattle.tunnel_cookies.specs.declared.entry.Verdict.{Verdict};
ghost use Rattle.tunnel_cookies.specs.declared.entry.Verdict.TheVariants.{Opened, Again};
ghost use Rattle.tunnel_cookies.specs.Entries.{Entries, IsVerdict, entry_of, after, Step, Steps};

/// An entry that opened a tunnel opens no other, whatever the table is asked later; and the link
/// that opened it is the only one that is told Again.
pub fn one_link()
    ensures { (before last : Entries) (steps : List Step) (a b id : ℕ) (kind other : Kind) (cookie text : List ℕ) (v : Verdict) → IsVerdict a kind cookie (entry_of id before) Opened → Steps (after a id Opened (entry_of id before) before) steps last → IsVerdict b other text (entry_of id last) v → (v ≢ Opened) × (v ≡ Again → b ≡ a) }
{}

/// The verdict on a link that asks is one: no two of the cases hold of one entry.
pub fn one_verdict()
    ensures { (link : ℕ) (kind : Kind) (cookie : List ℕ) (entry : Option Entry) (v w : Verdict) → IsVerdict link kind cookie entry v → IsVerdict link kind cookie entry w → v ≡ w }
{}
