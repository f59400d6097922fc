//! A server hears the answer to a Soft-Sync request.

ghost use Rattle.std.specs.Prelude.{◌≡◌, ◌&&◌, ℕ, true, not, Some};
ghost use Rattle.mt_base.specs.declared.kinds.Kind.TheVariants as kinds;
ghost use Rattle.dvc_pdus.specs.ListViews.{types_left};
ghost use Rattle.soft_sync.specs.Exchanges.{behind, giving, is_given, is_named, names, with_answer};
ghost use Rattle.mt_endpoint.specs.Faults.{is_answer_to};
ghost use Rattle.mt_endpoint.specs.Moving.{kinds_of};
ghost use Rattle.end_session.specs.AnswerDue.{MayName, naming_if};

use crate::cause::Cause;
use crate::session::Session;
use dvc_pdus::SyncTypes;
use mt_base::{Kind, Role};
use soft_sync::{Kinds, Paths};

/// Whether an answer names no kind that its request doesn't name, and none twice.
fn is_answer_to(named: Kinds, types: SyncTypes<'_>) -> bool
    ensures { result ≡ is_answer_to named (types_left types.entry) }
{
    let mut left = named;
    for kind in types {
        if !left.has(kind) {
            return false;
        }
        left.set(kind, false);
    }
    true
}

/// The kinds that an answer names.
pub(crate) fn kinds_of(types: SyncTypes<'_>) -> Kinds
    ensures { result ≡ kinds_of (types_left types.entry) }
{
    let mut named = Kinds::NONE;
    for kind in types {
        named.set(kind, true);
    }
    named
}

/// The answer to the request of this number names this kind too, or stays as it is.
fn got(paths: &mut Paths, number: u32, kind: Kind, named: bool)
    requires given { is_given number (paths.old).made ≡ true }
    requires may { named ≡ true → (names number kind (paths.old).made && not (is_named number kind (paths.old).made)) ≡ true }
    ensures words { paths.new ≡ record paths.old { made = naming_if named kind number (paths.old).made } }
    ensures given { is_given number (paths.new).made ≡ true }
{
    if named {
        let _ = paths.got_response(number, kind);
    }
}

/// The oldest request without an answer is answered by these kinds.
fn take_answer(paths: &mut Paths, named: Kinds)
    requires { (number : ℕ) × (behind (paths.old).made ≡ Some number) × MayName number named (paths.old).made }
    ensures { (number : ℕ) → behind (paths.old).made ≡ Some number → paths.new ≡ record paths.old { made = naming_if named.lossy kinds.Lossy number (naming_if named.reliable kinds.Reliable number (with_answer number giving (paths.old).made)) } }
{
    let Some(number) = paths.answer_begin() else {
        unreachable!()
    };
    got(paths, number, Kind::Reliable, named.reliable);
    got(paths, number, Kind::Lossy, named.lossy);
}

impl Session {
    ghost use Rattle.std.specs.Prelude.{◌≡◌, OnOk, IfErr, OnErr, None, IfSome, IsSome};
    ghost use Rattle.mt_base.specs.Trace.{Trace, ◌▷◌};
    ghost use Rattle.dvc_pdus.specs.ListViews.{types_left};
    ghost use Rattle.dvc_pdus.specs.Value.{SyncResponse};
    ghost use Rattle.mt_endpoint.specs.Acts.{Act, Hears, Spoken};
    ghost use Rattle.mt_endpoint.specs.Faults.{answers_fault, main_fault};
    ghost use Rattle.mt_endpoint.specs.Moving.{unanswered_in};
    ghost use Rattle.end_session.specs.Causes.{IsCause, why_in, why_of};
    ghost use Rattle.end_session.specs.Standing.{Gone, Stands};

    /// A server hears the answer to its oldest Soft-Sync request that has none (MS-RDPEDYC section 2.2.5.2): what
    /// comes for the channels that the request lists under the kinds that the answer names comes through
    /// those tunnels from now on. What is refused is an answer ahead of the capabilities or to no
    /// request, one that names a kind that its request doesn't, or twice, and any at a client. Takes no
    /// memory.
    pub fn hear_moved(&mut self, types: SyncTypes<'_>) -> Result<(), Cause>
        ensures heard { (t : Trace Act) (gone : Gone) → Stands self.old t gone → OnOk result ((main_fault (self.old).role t (Spoken (SyncResponse (types_left types.entry))) ≡ None) × Stands self.new (t ▷ Hears (Spoken (SyncResponse (types_left types.entry)))) gone) }
        ensures refused { (t : Trace Act) (gone : Gone) → Stands self.old t gone → IfErr result (λ cause. IsCause (main_fault (self.old).role t (Spoken (SyncResponse (types_left types.entry)))) cause) }
        ensures named { IfErr result (λ cause. IsSome (why_of cause)) }
        ensures unchanged { OnErr result (self.new ≡ self.old) }
        ensures same { ((self.new).role ≡ (self.old).role) × ((self.new).broken ≡ (self.old).broken) }
    {
        if let Some(cause) = self.moved_cause(types) {
            return Err(cause);
        }
        take_answer(&mut self.paths, kinds_of(types));
        Ok(())
    }

    /// What there is against an answer. It is no want of memory.
    fn moved_cause(&self, types: SyncTypes<'_>) -> Option<Cause>
        ensures found { (t : Trace Act) (gone : Gone) → Stands self.now t gone → main_fault (self.now).role t (Spoken (SyncResponse (types_left types.entry))) ≡ why_in result }
        ensures named { IfSome result (λ cause. IsSome (why_of cause)) }
    {
        if !self.is_ready {
            return Some(Cause::Unexpected);
        }
        match self.role {
            Role::Client => Some(Cause::Unexpected),
            Role::Server => self.answer_cause(types),
        }
    }

    /// What there is against an answer by the requests that have none. It is no want of memory.
    fn answer_cause(&self, types: SyncTypes<'_>) -> Option<Cause>
        ensures found { answers_fault (unanswered_in ((self.now).paths).made) (types_left types.entry) ≡ why_in result }
        ensures named { IfSome result (λ cause. IsSome (why_of cause)) }
    {
        let Some(number) = self.paths.awaited() else {
            return Some(Cause::BadSyncAnswer);
        };
        let named = Kinds {
            reliable: self.paths.asks(number, Kind::Reliable),
            lossy: self.paths.asks(number, Kind::Lossy),
        };
        if is_answer_to(named, types) {
            None
        } else {
            Some(Cause::BadSyncAnswer)
        }
    }
}
