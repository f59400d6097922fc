//! Laws of a pair of ends with their links.

ghost use Rattle.std.specs.Prelude.{◌≡◌, ℕ};
ghost use Rattle.mt_base.specs.declared.kinds.Kind.{Kind};
ghost use Rattle.mt_base.specs.declared.kinds.Kind.TheVariants as kinds;
ghost use Rattle.mt_base.specs.declared.kinds.Role.{Role};
ghost use Rattle.mt_base.specs.Ends.{other};
ghost use Rattle.mt_base.specs.Trace.{Trace};
ghost use Rattle.carrier.specs.Joined.{Timely};
ghost use Rattle.udp_open.specs.LinkView.{Link, StandsLink, condition_in, left_in};
ghost use Rattle.udp_open.specs.declared.settings.OpenSettings.{OpenSettings};
ghost use Rattle.lossy_mode.specs.LossyView.{Lossy, StandsThin, condition_of};
ghost use Rattle.end_calls.specs.Calls.{Entry};
ghost use Rattle.endpoint.specs.Laws.{HasLawOf, KeepsLaw};
ghost use Rattle.end_wires.specs.Wires.{AreInTime};
ghost use Rattle.end_net.specs.Network.{Network, SafeNetwork, steps};
ghost use Rattle.end_pair.specs.Joined.{Joined, PairStands, end_of, made};
ghost use Rattle.end_pair.specs.Laws.{PairKeepsLaws};
ghost use Rattle.end_pair.specs.declared.pair.TheConstants.{LATE};
ghost use Rattle.linked_ends.specs.UsesLinks.{KeepsTo, KeepsToLossy, SuitLinks, UsesLinks, link_law, lossy_law, parts_left};

use end_net::two_ends;
use end_pair::Pair;
use lossy_mode::LossyCore;
use udp_open::UdpLink;

/// Where each datagram that came at an end was given by the other one, fewer than `late` before, that is so on each
/// of the links.
pub fn what_comes_in_time()
    ensures { (late : ℕ) (kind : Kind) (w : Trace (Role × Entry)) → AreInTime late w → Timely late (steps kind w) }
{}

/// What keeps the laws of the links of a pair, as each of its calls but an attachment does, keeps those of the settings
/// of its sides.
pub fn links_stay_as_they_were_made()
    ensures { (settings : Kind → Role → OpenSettings) (old new : Joined Link Lossy) → PairKeepsLaws link_law lossy_law old new → UsesLinks settings old → UsesLinks settings new }
{}

/// A link that was made with these settings keeps their law.
pub fn a_new_link_keeps_its_settings()
    ensures reliable { (settings : OpenSettings) (link : Link) → (link.opening).settings ≡ settings → KeepsTo settings link }
    ensures lossy { (settings : OpenSettings) (link : Lossy) → (link.opening).settings ≡ settings → KeepsToLossy settings link }
{}

/// Two ends that were made have no link: they keep to any settings that suit links.
pub fn no_links_keep_any_settings()
    ensures { (settings : Kind → Role → OpenSettings) (pair : Joined Link Lossy) → SuitLinks settings
        → PairStands StandsLink left_in condition_in StandsThin parts_left condition_of pair made → UsesLinks settings pair }
{}

/// An end that gets a link which keeps the law of the settings of its side and kind: the pair goes on to keep to the
/// settings, by the clauses of the attachment.
pub fn a_link_that_is_attached_keeps_its_settings()
    ensures reliable { (settings : Kind → Role → OpenSettings) (side : Role) (link : Link) (old new : Joined Link Lossy)
        → KeepsTo (settings kinds.Reliable side) link → HasLawOf link_law link (end_of side new).reliable
        → KeepsLaw lossy_law (end_of side old).lossy (end_of side new).lossy → end_of (other side) new ≡ end_of (other side) old
        → UsesLinks settings old → UsesLinks settings new }
    ensures lossy { (settings : Kind → Role → OpenSettings) (side : Role) (link : Lossy) (old new : Joined Link Lossy)
        → KeepsToLossy (settings kinds.Lossy side) link → HasLawOf lossy_law link (end_of side new).lossy
        → KeepsLaw link_law (end_of side old).reliable (end_of side new).reliable → end_of (other side) new ≡ end_of (other side) old
        → UsesLinks settings old → UsesLinks settings new }
{}

/// Two ends with links over UDP that keep to these settings. Their calls are those of two ends over a network; so what
/// each of them delivers the other sent, and all else holds that holds of such ends.
pub fn what_is_delivered_was_sent(pair: &Pair<UdpLink, LossyCore>)
    ensures network { (settings : Kind → Role → OpenSettings) (w : Trace (Role × Entry))
        → PairStands StandsLink left_in condition_in StandsThin parts_left condition_of pair.now w
        → UsesLinks settings pair.now → Network LATE settings w }
    ensures safe { (settings : Kind → Role → OpenSettings) (w : Trace (Role × Entry))
        → PairStands StandsLink left_in condition_in StandsThin parts_left condition_of pair.now w
        → UsesLinks settings pair.now → SafeNetwork settings w }
{
    two_ends();
    what_comes_in_time();
}
