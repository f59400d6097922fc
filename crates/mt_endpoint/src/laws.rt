//! Laws of an end, and of two.

ghost use Rattle.std.specs.Prelude.{◌≡◌, ◌≢◌, ℕ, List, [], ◌∷◌, ◌++◌, None, Some, not, true, false};
ghost use Rattle.mt_base.specs.Trace.{Trace};
ghost use Rattle.mt_base.specs.Ends.{other};
ghost use Rattle.mt_base.specs.declared.kinds.Kind.{Kind};
ghost use Rattle.mt_base.specs.declared.kinds.Kind.TheVariants.{Lossy, Reliable};
ghost use Rattle.mt_base.specs.declared.kinds.Role.{Role};
ghost use Rattle.mt_base.specs.declared.kinds.Role.TheVariants.{Client, Server};
ghost use Rattle.dvc_pdus.specs.Value.{Pdu};
ghost use Rattle.mt_base.specs.Prefix.{IsPrefixOf};
ghost use Rattle.mt_endpoint.specs.Acts.{Act, Heard, Spoken, Drawn};
ghost use Rattle.mt_endpoint.specs.Alone.{EndOfActs};
ghost use Rattle.mt_endpoint.specs.Asking.{WasAskedFor};
ghost use Rattle.mt_endpoint.specs.Channels.{is_closed};
ghost use Rattle.mt_endpoint.specs.Holding.{Held, held, is_through, only};
ghost use Rattle.mt_endpoint.specs.Orders.{AnswersFit, EachMay, MayAsk, MayCreate, MayList, MayTell, answers_of, told_by};
ghost use Rattle.mt_endpoint.specs.Faults.{is_moved, is_moved_whole, late_fault, main_fault, release_fault, tunnel_fault, unknown_fault};
ghost use Rattle.mt_endpoint.specs.Growing.{grown};
ghost use Rattle.mt_endpoint.specs.Meeting.{AreJoined, Comes, HasLeft, Meet, is_control};
ghost use Rattle.mt_endpoint.specs.Moving.{all_told, inward, read_by};
ghost use Rattle.mt_endpoint.specs.Resting.{Rests};
ghost use Rattle.mt_endpoint.specs.Said.{Brings, Ends, said};
ghost use Rattle.mt_endpoint.specs.World.{IsStep, NetOfActs, Safe, SafeWay, begins, draws, fault_of, is_begun, side};
ghost use Rattle.mt_endpoint.specs.Sessions.{AnswersInOrder, ClosesBehind, MovesTwice, PicksSome, answered, both_moved, closed, lossy};
ghost use Rattle.mt_endpoint.specs.Session.{Shows};
ghost use Rattle.mt_endpoint.specs.Tunnels.{Request, asked, is_open};
ghost use Rattle.mt_endpoint.specs.Writing.{carried, spoken};

/// A session by hand, worked out on the definitions: a channel and a tunnel are created, the channel
/// moves to the tunnel, and a message that came through the tunnel ahead of the word is held and then
/// delivered.
pub fn a_session_moves_a_channel()
    ensures { Shows }
{}

/// Further ones. A close that stands behind held data is read after them. A second request moves a
/// second channel. Requests that are read before the tunnel is open are answered in their order when
/// it opens. A lossy tunnel delivers some of what was sent, in order.
pub fn sessions_by_hand()
    ensures close { ClosesBehind }
    ensures twice { MovesTwice }
    ensures waiting { AnswersInOrder }
    ensures lossy { PicksSome }
{}

/// The sessions of [`sessions_by_hand`] are of two ends that keep what their calls ask for, each of which
/// takes what left the other: [`two_ends`] speaks of them.
pub fn sessions_are_of_two_ends()
    ensures close { NetOfActs closed }
    ensures twice { NetOfActs both_moved }
    ensures waiting { NetOfActs answered }
    ensures lossy { NetOfActs lossy }
{}

/// An end by itself, whatever the other end does. After a step that keeps what its call asks for, and of
/// which what is read has no fault, each act stands where it may, those that it makes due among them.
/// That holds also where a release meets a fault, with the acts up to that fault.
pub fn an_end_keeps_its_law()
    ensures { (role : Role) (t : Trace Act) (act : Act) → EndOfActs role t → begins act ≡ not (is_begun t)
        → IsStep role t act → fault_of role t act → EndOfActs role (grown role t act).acts }
{}

/// Between the steps of an end nothing is held of a channel whose word is read, as long as none of them
/// has met a fault: what is pulled behind the word is released at once.
pub fn nothing_rests_behind_its_word()
    ensures { (role : Role) (t : Trace Act) (act : Act) → EndOfActs role t → begins act ≡ not (is_begun t)
        → IsStep role t act → fault_of role t act → Rests role t → (grown role t act).fault ≡ None → Rests role (grown role t act).acts }
{}

/// On the main stream a server asks for a tunnel of each kind at most once, and a client asks for none;
/// a client answers, and a server does not (MS-RDPBCGR sections 2.2.15.1 and 2.2.15.2).
pub fn a_tunnel_is_asked_for_once()
    ensures { (role : Role) (t : Trace Act) → EndOfActs role t → EachMay (MayAsk role) [] (spoken role t) }
{}

/// The first channel PDU of an end tells its capabilities, and no other does (MS-RDPEDYC section
/// 3.1.5.1.1). A server tells them as it begins, a client as it reads those of the server.
pub fn capabilities_come_first_and_once()
    ensures { (role : Role) (t : Trace Act) → EndOfActs role t → EachMay MayTell [] (spoken role t) }
{}

/// A channel's creation comes first (MS-RDPEDYC section 3.1.5.2). A server creates each channel once,
/// and never more than 256. A client does not answer again for a channel that it accepted. Data and a
/// close on the main stream, and a Soft-Sync request, are for channels that the server created before,
/// or that the client accepted before.
pub fn creations_come_first()
    ensures { (role : Role) (t : Trace Act) → EndOfActs role t → EachMay (MayCreate role) [] (spoken role t) }
{}

/// Soft-Sync answers fit their requests (MS-RDPEDYC section 3.1.5.3): the k-th answer that an end
/// writes is to the k-th request that it read, and names only kinds of tunnel that this one names, each
/// once. So there are never more answers than requests.
pub fn answers_fit_requests()
    ensures { (role : Role) (t : Trace Act) → EndOfActs role t
        → AnswersFit (all_told read_by t) (told_by answers_of (spoken role t)) }
{}

/// A channel moves once: a Soft-Sync request lists only channels that none before it listed, each once
/// (MS-RDPEDYC section 2.2.5.1.1), and no more than 256 requests are made.
pub fn a_channel_is_listed_once()
    ensures { (role : Role) (t : Trace Act) → EndOfActs role t → EachMay MayList [] (spoken role t) }
{}

/// What a server writes on the main stream beside data and closes is no fault at the client: neither
/// requests for tunnels, nor capabilities, nor creations, nor Soft-Sync requests. Each end has read
/// a front of what the other has written, and the frame is the next that comes.
pub fn a_client_meets_no_fault()
    ensures { (here there : Trace Act) (heard : Heard) → Meet Client here there → Comes Client here there heard
        → is_control heard ≡ true → main_fault Client here heard ≡ None }
{}

/// What a client writes on the main stream beside data and closes is no fault at the server: neither
/// answers about tunnels, nor capabilities, nor answers for channels, nor Soft-Sync answers. Each end
/// has read a front of what the other has written, and the frame is the next that comes.
pub fn a_server_meets_no_fault()
    ensures { (here there : Trace Act) (heard : Heard) → Meet Server here there → Comes Server here there heard
        → is_control heard ≡ true → main_fault Server here heard ≡ None }
{}

/// Nothing of a channel comes too late on the main stream: behind the word that moves the channel to a
/// tunnel come no data of it, and no close where the tunnel is reliable (MS-RDPEDYC section 3.1.5.3).
pub fn nothing_comes_too_late()
    ensures of_data { (role : Role) (here there : Trace Act) (pdu : Pdu) (id : ℕ) → Meet role here there
        → Comes role here there (Spoken pdu) → said pdu ≡ Brings id
        → late_fault role here id (is_moved (inward id here)) ≡ None }
    ensures of_close { (role : Role) (here there : Trace Act) (pdu : Pdu) (id : ℕ) → Meet role here there
        → Comes role here there (Spoken pdu) → said pdu ≡ Ends id
        → late_fault role here id (is_moved_whole (inward id here)) ≡ None }
{}

/// A close of the other end on the main stream is no fault, and data are for a channel that takes them:
/// it was created, and is open or closed by now.
pub fn a_close_is_no_fault()
    ensures of_close { (role : Role) (here there : Trace Act) (pdu : Pdu) (id : ℕ) → Meet role here there
        → Comes role here there (Spoken pdu) → said pdu ≡ Ends id → main_fault role here (Spoken pdu) ≡ None }
    ensures of_data { (role : Role) (here there : Trace Act) (pdu : Pdu) (id : ℕ) → Meet role here there
        → Comes role here there (Spoken pdu) → said pdu ≡ Brings id → unknown_fault role here id ≡ None }
{}

/// No frame of the other end on the main stream is a fault, data among them: each piece of a message
/// follows those before it, and none tells more than 1,048,576 bytes (MS-RDPEDYC section 3.1.5.1.4).
/// Each end has read a front of what the other has written, and the frame is the next that comes.
pub fn no_frame_is_a_fault()
    ensures { (role : Role) (here there : Trace Act) (heard : Heard) → Meet role here there → Comes role here there heard
        → main_fault role here heard ≡ None }
{}

/// What is held of a channel is taken as it is released. The channel's word, by which it moves to the
/// reliable tunnel, was read, and the channel is not closed: then the first PDU that is held for it is
/// refused by nothing. By the lossy tunnel only what the channel takes is released, and the rest is
/// dropped. What this end read and pulled left the other.
pub fn no_release_is_a_fault()
    ensures { (role : Role) (here there : Trace Act) (id : ℕ) (first : Held) (rest : List Held) → Meet role here there
        → HasLeft (other role) there here → is_through Reliable (inward id here) ≡ true → is_closed role id here ≡ false
        → only id (held role Reliable here) ≡ first ∷ rest → release_fault role here first.pdu ≡ None }
{}

/// At any moment of two ends that met no fault and of which each took what left the other: what is
/// delivered on a channel is the front of what the other end sent. Where the sender moved the channel
/// to the lossy tunnel, it is the front of what was sent before that, or all of that and then some of
/// what was sent afterwards, in order. This holds in both directions, across the move, with what is
/// held ahead of its word, a close behind it, and requests that wait for their answer.
pub fn delivered_was_sent()
    ensures { (server client : Trace Act) → AreJoined server client → (id : ℕ)
        → SafeWay Client id server client × SafeWay Server id client server }
{}

/// No PDU that is pulled from the reliable tunnel is a fault: there is one create request and one answer
/// to it (MS-RDPEMT sections 2.2.2.1 and 2.2.2.2), data stand behind the answer 0, and are for a channel
/// that takes them (MS-RDPEDYC section 3.1.5.3). Each end has read and pulled a front of what the other
/// has written, and the PDU is the next that is pulled.
pub fn no_tunnel_pdu_is_a_fault()
    ensures { (role : Role) (here there : Trace Act) (drawn : Drawn) → Meet role here there → HasLeft role here there
        → IsPrefixOf (draws Reliable here ++ drawn ∷ []) (carried Reliable (other role) there) → tunnel_fault role here drawn ≡ None }
{}

/// Two ends, step by step, each of which keeps what its calls ask for and takes what left the other. What
/// is delivered on a channel was sent on it, as [`delivered_was_sent`] says, and no act meets a fault,
/// neither as it is read nor as what is held is released. Each act of an end, those that others make due
/// among them, stands where it may.
pub fn two_ends()
    ensures safe { (w : Trace (Role × Act)) → NetOfActs w → Safe w }
    ensures ends { (w : Trace (Role × Act)) → NetOfActs w → EndOfActs Server (side Server w) × EndOfActs Client (side Client w) }
{}

/// A tunnel that is open at either end was asked for: the server asked for a tunnel of its kind, and
/// pulled from its link a create request with the id and the cookie that it had asked for (MS-RDPEMT
/// section 2.2.2.1). The tunnels of the two kinds are asked for under different ids.
pub fn an_open_tunnel_was_asked_for()
    ensures open_one { (w : Trace (Role × Act)) → NetOfActs w → (role : Role) (kind : Kind)
        → is_open role kind (side role w) ≡ true → WasAskedFor kind (side Server w) }
    ensures apart { (w : Trace (Role × Act)) → NetOfActs w → (one second : Request)
        → asked Reliable (side Server w) ≡ Some one → asked Lossy (side Server w) ≡ Some second → one.id ≢ second.id }
{}
