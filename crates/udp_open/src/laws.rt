//! What holds of an opening over all its calls, and of two that meet.

ghost use Rattle.std.specs.Prelude.{◌≡◌, ◌+◌, Bool, true, Some, is_some, length};
ghost use Rattle.mt_base.specs.declared.kinds.Role.{Role};
ghost use Rattle.mt_base.specs.declared.kinds.Role.TheVariants.{Server, Client};
ghost use Rattle.mt_base.specs.Trace.{Trace, ◌▷◌};
ghost use Rattle.carrier.specs.Entries.{Entry, given};
ghost use Rattle.carrier.specs.Joined.{Step, half};
ghost use Rattle.udp_open.specs.declared.settings.OpenSettings.{OpenSettings};
ghost use Rattle.udp_open.specs.declared.agreement.Agreement.{Agreement};
ghost use Rattle.udp_open.specs.Handshake.{agreed, is_closed, Opens};
ghost use Rattle.udp_open.specs.OpeningView.{IsSilent};
ghost use Rattle.udp_open.specs.Agreeing.{Meet, AgreesWith, SendsDue};
ghost use Rattle.udp_open.specs.LinkView.{Link, StandsLink, condition_in, left_in};
ghost use Rattle.udp_open.specs.LinkTrace.{LinkFaithful};
ghost use Rattle.udp_open.specs.OfTrace.{left_after, queued_after, settled_after, state_after};

/// Two ends that open a link with each other, over a network that loses, copies and reorders
/// datagrams and makes none, agree on the lower of their versions, and each knows the initial number
/// of the other. Where the client agreed, the server did before.
pub fn both_agree()
    ensures agree { (settings : Role → OpenSettings) (w : Trace Step) (s : Role) (a : Agreement) →
        Meet settings w → agreed (settings s) (half s w) ≡ Some a → AgreesWith settings s a }
    ensures server_first { (settings : Role → OpenSettings) (w : Trace Step) → Meet settings w →
        is_some (agreed (settings Client) (half Client w)) ≡ true →
        is_some (agreed (settings Server) (half Server w)) ≡ true }
{}

/// What an opening sends by itself is what it has due.
pub fn openings_are_due()
    ensures { (settings : OpenSettings) (t : Trace Entry) → Opens settings t → SendsDue settings t }
{}

/// What was agreed on stays, whatever comes afterwards.
pub fn agreements_stay()
    ensures { (settings : OpenSettings) (t : Trace Entry) (e : Entry) (a : Agreement) →
        agreed settings t ≡ Some a → agreed settings (t ▷ e) ≡ Some a }
{}

/// A closed opening stays closed: it takes nothing and sends nothing any more.
pub fn closed_for_good()
    ensures { (settings : OpenSettings) (t : Trace Entry) (e : Entry) →
        is_closed settings t ≡ true → Opens settings (t ▷ e) →
        IsSilent e × (is_closed settings (t ▷ e) ≡ true) }
{}

/// Of a link that stands for a trace: what is left to be pulled are the bytes of the parts that its
/// machine accepted in order, without those that were pulled; and it is closed exactly after the 17th
/// expiry in a row, of its SYN or of its machine. How many bytes are queued after a trace is said by
/// `queued` of the link: with the bytes of the settled parts they are all that was given, also before
/// the link had opened.
pub fn a_link_is_its_trace()
    ensures queued { (settings : OpenSettings) (t : Trace Entry) → LinkFaithful settings t
        → queued_after settings t + settled_after settings t ≡ length (given t) }
    ensures left { (l : Link) (t : Trace Entry) → StandsLink l t → left_in l ≡ left_after l.opening.settings t }
    ensures state { (l : Link) (t : Trace Entry) → StandsLink l t → condition_in l ≡ state_after l.opening.settings t }
{}
