//! Links that carry bytes reliably and in order.

ghost use Rattle.std.specs.Prelude.{◌≡◌, ◌+◌, ◌<◌, ◌≤◌, ◌^◌, ◌++◌, ◌↔◌, ℕ, List, Option, None, length, take, drop, min, option_map, OnOk, OnErr, IfSome};
ghost use Rattle.mt_base.specs.Trace.{Trace, ◌▷◌};
ghost use Rattle.carrier.specs.declared.state.LinkState.{LinkState};
ghost use Rattle.carrier.specs.declared.state.LinkState.TheVariants.{Closed as IsClosed};
ghost use Rattle.carrier.specs.declared.state.Took.TheVariants.{Ignored};
ghost use Rattle.carrier.specs.declared.state.Reason.TheVariants as reason;
ghost use Rattle.carrier.specs.Entries.{Entry, Gave, In, Polled, Pulled};
ghost use Rattle.carrier.specs.States.{give_answer, written};

use crate::state::{LinkState, Took};

/// Why bytes were not given to a link. Nothing changed.
#[derive(Clone, Copy, Debug, PartialEq, Eq)]
pub enum GiveRefusal {
    /// The bytes would pass the limit of the queue, which holds so many; give them later.
    Full { queued: usize },
    /// The link closed after so many expiries; nothing can be given any more.
    Closed { expiries: u32 },
}

/// A link that carries bytes reliably and in order: datagrams come in by `input` and go out by
/// `poll`, bytes go in by `give` and come out by `pull`. It has no socket and no clock; moments are
/// in milliseconds, and one below the last one given counts as the last one.
///
/// The clauses speak of six meanings. `stands` says that a link stands for a trace of its calls,
/// and `law` which law its traces keep, which no call changes. `left` is the list of the bytes in
/// order that were not pulled yet, `load` the number of bytes that count against the queue,
/// `condition` the state, and `next` what the answer of `next_due` says of a trace.
pub trait Carrier {
    ghost stands: { Self → Trace Entry → Type 0 };

    ghost law: { Self → Trace Entry → Type 0 };

    ghost left: { Self → List ℕ };

    ghost load: { Self → ℕ };

    ghost condition: { Self → LinkState };

    ghost next: { Self → Trace Entry → Option ℕ → Type 0 };

    /// Takes a datagram that came at this moment, which is below 2^62.
    fn input(&mut self, now: u64, datagram: &[u8]) -> Took
        requires moment { now < 2 ^ 62 }
        ensures trace { (t : Trace Entry) → stands self.old t →
            stands self.new (t ▷ In now datagram.now result) }
        ensures law { (t : Trace Entry) → law self.new t ↔ law self.old t }
        ensures left { (more : List ℕ) × (left self.new ≡ left self.old ++ more) }
        ensures load { load self.new ≤ load self.old }
        ensures stays_closed { (e : ℕ) → condition self.old ≡ IsClosed e →
            (condition self.new ≡ IsClosed e) × (result ≡ Ignored reason.LinkClosed) }
        ensures stays_open { (e : ℕ) → condition self.new ≡ IsClosed e →
            condition self.old ≡ IsClosed e };

    /// Writes the datagram that is due at this moment, which is below 2^62, to the front of `out`
    /// and gives its length; `None` where nothing is due. What stands behind it in `out` stays. A
    /// closed link sends nothing.
    fn poll(&mut self, now: u64, out: &mut [u8; 1232]) -> Option<usize>
        requires moment { now < 2 ^ 62 }
        ensures bound { IfSome result (λ n. n ≤ 1232) }
        ensures trace { (t : Trace Entry) → stands self.old t →
            stands self.new (t ▷ Polled now (option_map (λ n. take n out.new) result)) }
        ensures rest { drop (written result) out.new ≡ drop (written result) out.old }
        ensures law { (t : Trace Entry) → law self.new t ↔ law self.old t }
        ensures left { left self.new ≡ left self.old }
        ensures load { load self.new ≤ load self.old }
        ensures stays_closed { (e : ℕ) → condition self.old ≡ IsClosed e →
            (condition self.new ≡ IsClosed e) × (result ≡ None) };

    /// Takes all of these bytes to be sent, or none of them.
    fn give(&mut self, bytes: &[u8]) -> Result<(), GiveRefusal>
        ensures answer { result ≡ give_answer (condition self.old) (load self.old) (length bytes.now) }
        ensures trace { OnOk result ((t : Trace Entry) → stands self.old t →
            stands self.new (t ▷ Gave bytes.now)) }
        ensures law { (t : Trace Entry) → law self.new t ↔ law self.old t }
        ensures left { left self.new ≡ left self.old }
        ensures load { OnOk result (load self.new ≡ load self.old + length bytes.now) }
        ensures state { condition self.new ≡ condition self.old }
        ensures unchanged { OnErr result (self.new ≡ self.old) };

    /// Writes the next bytes in order to the front of `out`, as many as there are and fit, and
    /// gives their number.
    fn pull(&mut self, out: &mut [u8]) -> usize
        ensures count { result ≡ min (length out.old) (length (left self.old)) }
        ensures bytes { take result out.new ≡ take result (left self.old) }
        ensures rest { drop result out.new ≡ drop result out.old }
        ensures left { left self.new ≡ drop result (left self.old) }
        ensures trace { (t : Trace Entry) → stands self.old t →
            stands self.new (t ▷ Pulled (length out.old) (take result out.new)) }
        ensures law { (t : Trace Entry) → law self.new t ↔ law self.old t }
        ensures load { load self.new ≡ load self.old }
        ensures state { condition self.new ≡ condition self.old };

    /// How many bytes were given and are not known to have come.
    fn queued(&self) -> usize
        ensures { result ≡ load self.now };

    /// The least moment, from the last one on, at which `poll` would send a datagram or close the
    /// link if no other call came; `None` where there is none.
    fn next_due(&self) -> Option<u64>
        ensures { (t : Trace Entry) → stands self.now t → next self.now t result };

    /// What the link is.
    fn state(&self) -> LinkState
        ensures { result ≡ condition self.now };

    // What a value stands for keeps the law.
    ghost keeps: { (c : Self) (t : Trace Entry) → stands c t → law c t };
}
