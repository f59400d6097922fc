//! The messages of an end's own files are sent on channel 1.

ghost use Rattle.std.specs.Prelude.{◌≡◌, ◌≢◌, ◌≤◌, ◌∷◌, ◌++◌, [], ℕ, List, Some, None, length, OnOk, OnErr, IfErr, IsErrOf, Ok};
ghost use Rattle.mt_base.specs.declared.kinds.Role.{Role as Side};
ghost use Rattle.mt_base.specs.Trace.{Trace, ◌▷◌};
ghost use Rattle.mt_outside.specs.Faults.{Rose};
ghost use Rattle.mt_endpoint.specs.Acts.{Sends};
ghost use Rattle.end_calls.specs.Calls.{Entry, Own, acts, past};
ghost use Rattle.end_calls.specs.Law.{unsent};
ghost use Rattle.end_calls.specs.Refusing.{why_not_sent};
ghost use Rattle.end_calls.specs.declared.refusal.SendRefusal.{SendRefusal as Why};
ghost use Rattle.endpoint.specs.Attached.{load_in};
ghost use Rattle.endpoint.specs.Laws.{KeepsLaws};
ghost use Rattle.endpoint.specs.Standing.{EndStands};
ghost use Rattle.file_messages.specs.Files.{Message, File};
ghost use Rattle.file_transfer.specs.Sending.{HasSent, Follow, to_do};
ghost use Rattle.file_transfer.specs.declared.outgoing.Stage.TheVariants as stage;
ghost use Rattle.file_transfer.specs.declared.outgoing.MakeFault.{MakeFault};
ghost use Rattle.file_session.specs.Messages.{sent};
ghost use Rattle.file_session.specs.Sending.{FollowsOn, GoesOn, SendsOn, SentSome};

use carrier::{Carrier, Post};
use end_calls::SendRefusal;
use endpoint::Endpoint;
use file_transfer::{MakeFault, Outgoing};
use mt_outside::FileStore;

/// Sends the message that was made, where there is one.
#[tactic(auto, using(crate::proofs::LawsKept::laws_same))]
fn send_next<C: Carrier + Drop, P: Post + Drop>(
    end: &mut Endpoint<C, P>,
    outgoing: &mut Outgoing,
) -> Result<(), SendRefusal>
    ensures laws { KeepsLaws C.law P.law end.old end.new }
    ensures none { (outgoing.old).draft ≡ None → (result ≡ Ok tt) × (end.new ≡ end.old) }
    ensures sent { (message : Message) → (outgoing.old).draft ≡ Some message → (role : Side) (t : Trace Entry) → EndStands C.stands C.left C.condition P.stands P.left P.condition end.old role t → OnOk result (EndStands C.stands C.left C.condition P.stands P.left P.condition end.new role (t ▷ Own (Sends 1 message))) }
    ensures passed { (messages : List Message) (files : List File) → HasSent outgoing.old messages files → OnOk result ((message : Message) → (outgoing.old).draft ≡ Some message → HasSent outgoing.new (messages ++ message ∷ []) files) }
    ensures same { (messages : List Message) (files : List File) → HasSent outgoing.old messages files → (outgoing.old).draft ≡ None → HasSent outgoing.new messages files }
    ensures follows { (contents : List (List ℕ)) (files : List File) → Follow outgoing.old contents files → Follow outgoing.new contents files }
    ensures files { (outgoing.new).files.items ≡ (outgoing.old).files.items }
    ensures goes { to_do outgoing.new ≡ to_do outgoing.old }
    ensures emptied { OnOk result ((outgoing.new).draft ≡ None) }
    ensures refused { (role : Side) (t : Trace Entry) → EndStands C.stands C.left C.condition P.stands P.left P.condition end.old role t →
        IfErr result (λ why. (message : Message) × ((outgoing.old).draft ≡ Some message) × (why_not_sent (past role t).broken role (acts role t) (record { unsent = length (unsent role t); reliable = load_in C.load end.old.reliable; lossy = load_in P.load end.old.lossy }) 1 message ≡ Some why)) }
    ensures unchanged { OnErr result ((end.new ≡ end.old) × (outgoing.new ≡ outgoing.old)) }
{
    let Some(message) = outgoing.next() else {
        return Ok(());
    };
    match end.send(1, message) {
        Ok(()) => {
            outgoing.pass();
            Ok(())
        }
        Err(refusal) => Err(refusal),
    }
}

/// Makes the next message, where none waits.
fn make_next<F: FileStore>(outgoing: &mut Outgoing, store: &mut F) -> Result<(), MakeFault>
    requires held { (messages : List Message) × (files : List File) × HasSent outgoing.old messages files }
    requires going { (outgoing.old).draft ≡ None → (outgoing.old).stage ≢ stage.Ended }
    ensures never_falls { F.faults store.old ≤ F.faults store.new }
    ensures cause { IsErrOf result MakeFault.Failed → Rose (F.faults store.old) (F.faults store.new) }
    ensures counts { ¬ IsErrOf result MakeFault.Failed → F.faults store.new ≡ F.faults store.old }
    ensures same { F.told store.new ≡ F.told store.old }
    ensures files { (outgoing.new).files.items ≡ (outgoing.old).files.items }
    ensures sent { (messages : List Message) (files : List File) → HasSent outgoing.old messages files →
        OnOk result ((later : List File) × HasSent outgoing.new messages later × FollowsOn (F.told store.old) outgoing.old outgoing.new files later) }
    ensures goes { OnOk result (GoesOn outgoing.old outgoing.new) }
{
    if outgoing.next().is_some() {
        return Ok(());
    }
    outgoing.make(store)
}

/// Sends the messages of the own files that were not sent yet, in order, up to one that is refused, as where a queue is
/// full: that one is sent by a later call. Gives the refusal, and `None` where all are sent. The messages are made as
/// the store is read; after a fault they are not used again.
pub fn send_files<C: Carrier + Drop, P: Post + Drop, F: FileStore>(
    end: &mut Endpoint<C, P>,
    outgoing: &mut Outgoing,
    store: &mut F,
) -> Result<Option<SendRefusal>, MakeFault>
    requires held { (messages : List Message) × (files : List File) × HasSent outgoing.old messages files }
    ensures laws { KeepsLaws C.law P.law end.old end.new }
    ensures never_falls { F.faults store.old ≤ F.faults store.new }
    ensures cause { IsErrOf result MakeFault.Failed → Rose (F.faults store.old) (F.faults store.new) }
    ensures counts { ¬ IsErrOf result MakeFault.Failed → F.faults store.new ≡ F.faults store.old }
    ensures same { F.told store.new ≡ F.told store.old }
    ensures files { (outgoing.new).files.items ≡ (outgoing.old).files.items }
    ensures calls { (role : Side) (t : Trace Entry) → EndStands C.stands C.left C.condition P.stands P.left P.condition end.old role t → SendsOn (EndStands C.stands C.left C.condition P.stands P.left P.condition end.new role) t }
    ensures sent { (role : Side) (t : Trace Entry) (files : List File) → EndStands C.stands C.left C.condition P.stands P.left P.condition end.old role t → HasSent outgoing.old (sent t) files →
        OnOk result (SentSome (EndStands C.stands C.left C.condition P.stands P.left P.condition end.new role) t files (F.told store.old) outgoing.old outgoing.new) }
    ensures done { result ≡ Ok None → ((outgoing.new).stage ≡ stage.Ended) × ((outgoing.new).draft ≡ None) }
    ensures refused { (role : Side) (t : Trace Entry) (why : Why) → EndStands C.stands C.left C.condition P.stands P.left P.condition end.new role t → result ≡ Ok (Some why) →
        (message : Message) × ((outgoing.new).draft ≡ Some message) × (why_not_sent (past role t).broken role (acts role t) (record { unsent = length (unsent role t); reliable = load_in C.load end.new.reliable; lossy = load_in P.load end.new.lossy }) 1 message ≡ Some why) }
{
    while !outgoing.is_done() {
        match make_next(outgoing, store) {
            Ok(()) => {}
            Err(fault) => return Err(fault),
        }
        match send_next(end, outgoing) {
            Ok(()) => {}
            Err(refusal) => return Ok(Some(refusal)),
        }
    }
    Ok(None)
}
