//! Links that carry parts and may lose some.

ghost use Rattle.std.specs.Prelude.{◌≡◌, ◌+◌, ◌<◌, ◌≤◌, ◌^◌, ◌++◌, ◌↔◌, ◌∷◌, [], ℕ, List, Option, Some, None, length, take, drop, option_map, OnOk, OnErr, IfSome};
ghost use Rattle.mt_base.specs.Trace.{Trace, ◌▷◌};
ghost use Rattle.carrier.specs.declared.state.LinkState.{LinkState};
ghost use Rattle.carrier.specs.declared.state.LinkState.TheVariants.{Closed as IsClosed};
ghost use Rattle.carrier.specs.declared.state.Took.TheVariants.{Ignored};
ghost use Rattle.carrier.specs.declared.state.Reason.TheVariants as reason;
ghost use Rattle.carrier.specs.Entries.{Entry, In, Next, Polled, Posted};
ghost use Rattle.carrier.specs.States.{post_answer, written, HandsOut};

use crate::state::{LinkState, Took};

/// Why a part was not posted. Nothing changed.
#[derive(Clone, Copy, Debug, PartialEq, Eq)]
pub enum PostRefusal {
    /// So many parts wait to be sent, as many as the window has; post it later.
    Full { queued: usize },
    /// The link closed after so many expiries; nothing can be posted any more.
    Closed { expiries: u32 },
}

/// A link that carries parts, each at most once and in the order in which they were posted, and may
/// lose some. Datagrams come in by `input` and go out by `poll`, parts go in by `post` and come out
/// by `next`. Moments are as those of a [`Carrier`](crate::Carrier).
///
/// The meanings are those of a `Carrier`, but for two: `left` is the list of the accepted parts that
/// were not handed out yet, and `load` the number of posted parts that wait to be sent.
pub trait Post {
    ghost stands: { Self → Trace Entry → Type 0 };

    ghost law: { Self → Trace Entry → Type 0 };

    ghost left: { Self → List (List ℕ) };

    ghost load: { Self → ℕ };

    ghost condition: { Self → LinkState };

    ghost next: { Self → Trace Entry → Option ℕ → Type 0 };

    /// Takes a part of 1 to 1,000 bytes to be sent.
    fn post(&mut self, bytes: &[u8]) -> Result<(), PostRefusal>
        requires some { 1 ≤ length bytes.now }
        requires fits { length bytes.now ≤ 1000 }
        ensures answer { result ≡ post_answer (condition self.old) (load self.old) }
        ensures trace { OnOk result ((t : Trace Entry) → stands self.old t →
            stands self.new (t ▷ Posted bytes.now)) }
        ensures law { (t : Trace Entry) → law self.new t ↔ law self.old t }
        ensures left { left self.new ≡ left self.old }
        ensures load { OnOk result (load self.new ≡ load self.old + 1) }
        ensures state { condition self.new ≡ condition self.old }
        ensures unchanged { OnErr result (self.new ≡ self.old) };

    /// Writes the first accepted part that was not handed out to the front of `out` and gives its
    /// length; `None` where there is none.
    fn next(&mut self, out: &mut [u8; 1232]) -> Option<usize>
        ensures bound { IfSome result (λ n. n ≤ 1232) }
        ensures hands_out { HandsOut (left self.old) (left self.new)
            (option_map (λ n. take n out.new) result) }
        ensures trace { (t : Trace Entry) → stands self.old t →
            stands self.new (t ▷ Next (option_map (λ n. take n out.new) result)) }
        ensures law { (t : Trace Entry) → law self.new t ↔ law self.old t }
        ensures load { load self.new ≡ load self.old }
        ensures state { condition self.new ≡ condition self.old };

    /// Takes a datagram that came at this moment, which is below 2^62.
    fn input(&mut self, now: u64, datagram: &[u8]) -> Took
        requires moment { now < 2 ^ 62 }
        ensures trace { (t : Trace Entry) → stands self.old t →
            stands self.new (t ▷ In now datagram.now result) }
        ensures law { (t : Trace Entry) → law self.new t ↔ law self.old t }
        ensures left { (more : List (List ℕ)) × (left self.new ≡ left self.old ++ more) }
        ensures load { load self.new ≤ load self.old }
        ensures stays_closed { (e : ℕ) → condition self.old ≡ IsClosed e →
            (condition self.new ≡ IsClosed e) × (result ≡ Ignored reason.LinkClosed) }
        ensures stays_open { (e : ℕ) → condition self.new ≡ IsClosed e →
            condition self.old ≡ IsClosed e };

    /// Writes the datagram that is due at this moment, which is below 2^62, to the front of `out`
    /// and gives its length; `None` where nothing is due. What stands behind it in `out` stays. A
    /// closed link sends nothing.
    fn poll(&mut self, now: u64, out: &mut [u8; 1232]) -> Option<usize>
        requires moment { now < 2 ^ 62 }
        ensures bound { IfSome result (λ n. n ≤ 1232) }
        ensures trace { (t : Trace Entry) → stands self.old t →
            stands self.new (t ▷ Polled now (option_map (λ n. take n out.new) result)) }
        ensures rest { drop (written result) out.new ≡ drop (written result) out.old }
        ensures law { (t : Trace Entry) → law self.new t ↔ law self.old t }
        ensures left { left self.new ≡ left self.old }
        ensures load { load self.new ≤ load self.old }
        ensures stays_closed { (e : ℕ) → condition self.old ≡ IsClosed e →
            (condition self.new ≡ IsClosed e) × (result ≡ None) };

    /// How many posted parts wait to be sent.
    fn queued(&self) -> usize
        ensures { result ≡ load self.now };

    /// The least moment, from the last one on, at which `poll` would send a datagram or close the
    /// link if no other call came; `None` where there is none.
    fn next_due(&self) -> Option<u64>
        ensures { (t : Trace Entry) → stands self.now t → next self.now t result };

    /// What the link is.
    fn state(&self) -> LinkState
        ensures { result ≡ condition self.now };

    // What a value stands for keeps the law.
    ghost keeps: { (c : Self) (t : Trace Entry) → stands c t → law c t };
}
