//! What holds of paths over requests and their answers.

ghost use Rattle.std.specs.Prelude.{◌≡◌, ◌<◌, ◌≤◌, ◌++◌, ◌∷◌, [], ℕ, List, length, None, Some, if◌then◌else◌, nat_lt};
ghost use Rattle.mt_base.specs.declared.kinds.Kind.{Kind};
ghost use Rattle.mt_base.specs.declared.kinds.Kind.TheVariants.{Reliable, Lossy};
ghost use Rattle.soft_sync.specs.declared.kinds.Kinds.{Kinds};
ghost use Rattle.soft_sync.specs.declared.kinds.Path.TheVariants.{Main, Tunnel};
ghost use Rattle.soft_sync.specs.Exchanges.{Request, exchanges, unanswered, behind};
ghost use Rattle.soft_sync.specs.Words.{outward, inward};
ghost use Rattle.soft_sync.specs.Session.{server, client, first, second, reliable_alone};

/// What a server sends for a channel goes on the path on which a client awaits it, where both know
/// the same requests and answers; and what the client sends, on that on which the server does.
pub fn ends_agree()
    ensures to_client { (id : ℕ) (requests : List Request) (answers : List Kinds) → outward id (server requests answers) ≡ inward id (client requests answers) }
    ensures to_server { (id : ℕ) (requests : List Request) (answers : List Kinds) → outward id (client requests answers) ≡ inward id (server requests answers) }
{}

/// Where requests are answered one after the other, one more request has no answer yet, and the
/// oldest without an answer is the first behind those that have one.
pub fn answers_come_in_order()
    ensures asked { (requests : List Request) (answers : List Kinds) (request : Request) → length answers ≤ length requests → exchanges (requests ++ request ∷ []) answers ≡ exchanges requests answers ++ unanswered request ∷ [] }
    ensures oldest { (requests : List Request) (answers : List Kinds) → length answers ≤ length requests → behind (exchanges requests answers) ≡ (if nat_lt (length answers) (length requests) then Some (length answers) else None) }
{}

/// A session by hand: the server asks for channel 1 on the reliable tunnel and for channel 2 on the
/// lossy one, the answer names the reliable tunnel alone, and the server asks for channel 3.
pub fn a_session()
    ensures asked { (outward 1 (server (first ∷ []) []) ≡ Tunnel Reliable) × (inward 1 (server (first ∷ []) []) ≡ Main) × (outward 2 (server (first ∷ []) []) ≡ Tunnel Lossy) }
    ensures answered { (inward 1 (server (first ∷ []) (reliable_alone ∷ [])) ≡ Tunnel Reliable) × (inward 2 (server (first ∷ []) (reliable_alone ∷ [])) ≡ Main) }
    ensures asked_again { (outward 3 (server (first ∷ second ∷ []) (reliable_alone ∷ [])) ≡ Tunnel Reliable) × (inward 3 (server (first ∷ second ∷ []) (reliable_alone ∷ [])) ≡ Main) × (outward 3 (client (first ∷ second ∷ []) (reliable_alone ∷ [])) ≡ Main) }
{}
