//! What came on channel 1 is taken, and its files are kept.

ghost use Rattle.std.specs.Prelude.{◌≡◌, ◌≤◌, ◌∷◌, ◌++◌, [], ℕ, List, Option, true, false, Bool, Ok, OnOk, OnErr, IsErrOf, string_bytes};
ghost use Rattle.mt_base.specs.declared.kinds.Role.{Role as Side};
ghost use Rattle.mt_base.specs.Trace.{Trace, ◌▷◌};
ghost use Rattle.dvc_channels.specs.Acts.{untaken};
ghost use Rattle.mt_outside.specs.Faults.{Rose};
ghost use Rattle.mt_endpoint.specs.Acts.{Takes};
ghost use Rattle.mt_endpoint.specs.Channels.{table};
ghost use Rattle.end_calls.specs.Calls.{Entry, Own, acts};
ghost use Rattle.endpoint.specs.Laws.{KeepsLaws};
ghost use Rattle.endpoint.specs.Standing.{EndStands};
ghost use Rattle.file_messages.specs.Files.{Message, File, HaveCome};
ghost use Rattle.file_transfer.specs.Keeping.{HasKept};
ghost use Rattle.file_transfer.specs.declared.incoming.KeepFault.{KeepFault};
ghost use Rattle.file_session.specs.Messages.{handed, with_takes};
ghost use Rattle.file_session.specs.Taking.{HandsOut, KeepsOn, TookSome};

use carrier::{Carrier, Post};
use endpoint::Endpoint;
use file_transfer::{Incoming, KeepFault};
use mt_outside::FileStore;

/// Takes the oldest whole message of channel 1, where there is one, and keeps what it carries. Tells whether there was
/// one.
fn take_one<C: Carrier + Drop, P: Post + Drop, F: FileStore>(
    end: &mut Endpoint<C, P>,
    incoming: &mut Incoming,
    store: &mut F,
) -> Result<bool, KeepFault>
    ensures laws { KeepsLaws C.law P.law end.old end.new }
    ensures never_falls { F.faults store.old ≤ F.faults store.new }
    ensures cause { IsErrOf result KeepFault.Failed → Rose (F.faults store.old) (F.faults store.new) }
    ensures counts { ¬ IsErrOf result KeepFault.Failed → F.faults store.new ≡ F.faults store.old }
    ensures prefix { string_bytes (incoming.new).arrivals.prefix ≡ string_bytes (incoming.old).arrivals.prefix }
    ensures none { result ≡ Ok false → (end.new ≡ end.old) × (incoming.new ≡ incoming.old) × (F.told store.new ≡ F.told store.old) }
    ensures all { (role : Side) (t : Trace Entry) → EndStands C.stands C.left C.condition P.stands P.left P.condition end.old role t → result ≡ Ok false → untaken (table role (acts role t)) 1 ≡ [] }
    ensures some { (role : Side) (t : Trace Entry) → EndStands C.stands C.left C.condition P.stands P.left P.condition end.old role t → ¬ (result ≡ Ok false) →
        (message : Message) × (rest : List Message) × EndStands C.stands C.left C.condition P.stands P.left P.condition end.new role (t ▷ Own (Takes 1 message)) × (untaken (table role (acts role t)) 1 ≡ message ∷ rest)
        × ((messages : List Message) (files : List File) → HasKept incoming.old messages files →
        OnOk result ((later : List File) × HasKept incoming.new (messages ++ message ∷ []) later × KeepsOn (string_bytes (incoming.old).arrivals.prefix) files later (F.told store.old) (F.told store.new)))
        × (IsErrOf result KeepFault.BadMessage → (messages : List Message) (files : List File) → HasKept incoming.old messages files → (ended : Bool) (others : List File) → ¬ HaveCome ended (messages ++ message ∷ []) others) }
{
    let Some(message) = end.take(1) else {
        return Ok(false);
    };
    match incoming.read(message.bytes(), store) {
        Ok(()) => Ok(true),
        Err(fault) => Err(fault),
    }
}

/// Takes every whole message of channel 1, in order, and keeps the files that they carry, up to one that no list of
/// files has at its place. After a fault neither the files that came nor the store are used again.
pub fn take_files<C: Carrier + Drop, P: Post + Drop, F: FileStore>(
    end: &mut Endpoint<C, P>,
    incoming: &mut Incoming,
    store: &mut F,
) -> Result<(), KeepFault>
    requires stands { (role : Side) × (t : Trace Entry) × EndStands C.stands C.left C.condition P.stands P.left P.condition end.old role t }
    ensures laws { KeepsLaws C.law P.law end.old end.new }
    ensures never_falls { F.faults store.old ≤ F.faults store.new }
    ensures cause { IsErrOf result KeepFault.Failed → Rose (F.faults store.old) (F.faults store.new) }
    ensures counts { ¬ IsErrOf result KeepFault.Failed → F.faults store.new ≡ F.faults store.old }
    ensures prefix { string_bytes (incoming.new).arrivals.prefix ≡ string_bytes (incoming.old).arrivals.prefix }
    ensures calls { (role : Side) (t : Trace Entry) → EndStands C.stands C.left C.condition P.stands P.left P.condition end.old role t → HandsOut (EndStands C.stands C.left C.condition P.stands P.left P.condition end.new role) t }
    ensures took { (role : Side) (t : Trace Entry) (files : List File) → EndStands C.stands C.left C.condition P.stands P.left P.condition end.old role t → HasKept incoming.old (handed t) files →
        OnOk result (TookSome (EndStands C.stands C.left C.condition P.stands P.left P.condition end.new role) t (string_bytes (incoming.old).arrivals.prefix) files incoming.new (F.told store.old) (F.told store.new)) }
    ensures all { (role : Side) (t : Trace Entry) → EndStands C.stands C.left C.condition P.stands P.left P.condition end.new role t → OnOk result (untaken (table role (acts role t)) 1 ≡ []) }
    ensures bad { IsErrOf result KeepFault.BadMessage → (role : Side) (t : Trace Entry) (files : List File) → EndStands C.stands C.left C.condition P.stands P.left P.condition end.old role t → HasKept incoming.old (handed t) files →
        (messages : List Message) × EndStands C.stands C.left C.condition P.stands P.left P.condition end.new role (with_takes t messages) × ((ended : Bool) (others : List File) → ¬ HaveCome ended (handed (with_takes t messages)) others) }
{
    'messages: loop {
        match take_one(end, incoming, store) {
            Ok(true) => {}
            Ok(false) => return Ok(()),
            Err(fault) => return Err(fault),
        }
    }
}
