//! Laws of messages and their pieces.

ghost use Rattle.std.specs.Prelude.{◌≡◌, ◌<◌, ◌≤◌, ◌^◌, ◌++◌, ℕ, List, [], ◌∷◌, length, flat_map, All, Option, None};
ghost use Rattle.mt_base.specs.declared.kinds.Role.{Role};
ghost use Rattle.dvc_pdus.specs.Value.{Pdu, IsPdu, AreBytes, spelled};
ghost use Rattle.dvc_channels.specs.Acts.{IsData};
ghost use Rattle.dvc_channels.specs.Pieces.{Piece, Part, pieces_of, messages, messages_from, under_way, under_way_from};
ghost use Rattle.dvc_channels.specs.Cutting.{Are, InOrder};
ghost use Rattle.dvc_channels.specs.Fragments.{fragments_of};
ghost use Rattle.dvc_channels.specs.Carrying.{Carries};

/// Pieces in order are those of their whole messages and of the message under way, and of no other
/// messages.
pub fn one_cutting()
    ensures cut { (pieces : List Piece) → InOrder None pieces → Are pieces (messages pieces) (under_way pieces) }
    ensures one { (pieces : List Piece) (whole : List (List ℕ)) (part : Option Part) → Are pieces whole part → (whole ≡ messages pieces) × (part ≡ under_way pieces) }
{}

/// Further pieces only add messages.
pub fn more_pieces_add()
    ensures messages { (pieces more : List Piece) → messages (pieces ++ more) ≡ messages pieces ++ messages_from (under_way pieces) more }
    ensures under_way { (pieces more : List Piece) → under_way (pieces ++ more) ≡ under_way_from (under_way pieces) more }
    ensures in_order { (pieces more : List Piece) → InOrder None (pieces ++ more) → InOrder None pieces }
{}

/// The PDUs of messages, one message behind the other, are in order and make these messages.
pub fn fragments_make_messages()
    ensures in_order { (id : ℕ) (sent : List (List ℕ)) → InOrder None (flat_map pieces_of (flat_map (fragments_of id) sent)) }
    ensures messages { (id : ℕ) (sent : List (List ℕ)) → messages (flat_map pieces_of (flat_map (fragments_of id) sent)) ≡ sent }
    ensures whole { (id : ℕ) (sent : List (List ℕ)) → under_way (flat_map pieces_of (flat_map (fragments_of id) sent)) ≡ None }
{}

/// Each PDU of a message is one that an end may send and take, in at most 1,600 bytes.
pub fn fragments_fit()
    ensures sent { (from : Role) (id : ℕ) (message : List ℕ) → id < 2 ^ 32 → length message < 2 ^ 32 → AreBytes message → All (IsPdu from) (fragments_of id message) }
    ensures taken { (id : ℕ) (message : List ℕ) → All IsData (fragments_of id message) }
{}

/// The PDUs of a message carry it. All of them but the last have 1,600 bytes, and no shorter list of
/// PDUs carries it.
pub fn fragments_are_fewest()
    ensures carried { (id : ℕ) (message : List ℕ) → Carries id (fragments_of id message) message }
    ensures full { (id : ℕ) (message : List ℕ) (before : List Pdu) (last : Pdu) → fragments_of id message ≡ before ++ last ∷ [] → All (λ pdu. length (spelled pdu) ≡ 1600) before }
    ensures fewest { (id : ℕ) (message : List ℕ) (pdus : List Pdu) → Carries id pdus message → length (fragments_of id message) ≤ length pdus }
{}
