//! The law of two joined links, from their opening on.

ghost use Rattle.std.specs.Prelude.{◌≡◌, ℕ, Some};
ghost use Rattle.mt_base.specs.declared.kinds.Role.{Role};
ghost use Rattle.mt_base.specs.declared.kinds.Role.TheVariants.{Server, Client};
ghost use Rattle.mt_base.specs.Trace.{Trace};
ghost use Rattle.carrier.specs.Entries.{given, pulled};
ghost use Rattle.carrier.specs.Joined.{Step, half};
ghost use Rattle.udp_open.specs.declared.settings.OpenSettings.{OpenSettings};
ghost use Rattle.udp_open.specs.Handshake.{agreed};
ghost use Rattle.udp_open.specs.OneLink.{one_agreement, one_link, one_settings};
ghost use Rattle.udp_open.specs.ThirdLink.{third_agreement, third_link, third_settings};
ghost use Rattle.udp_open.specs.TwoLinks.{AgreesIn, JoinedLinks, LinkNet, LinkPassed, LinkPulled, MachinesRead, PartsArrive};

use crate::link::UdpLink;
use link_core::links_join;

/// Two ends of one link, which opens in any version and then carries bytes, joined by a network that
/// loses, copies and reorders datagrams and makes none, and that brings none too late: fewer than
/// 2^31 - 64 datagrams are sent after one that comes, or 28,160 where both ends offer 0x0101. An end
/// that agreed has the lower of the two versions and the initial number of the other end. Each datagram
/// that comes at its machine comes in time, and is read as it was meant; a part that is settled at one
/// end was accepted at the other, with the same bytes; and the bytes that one end passed, or that were
/// pulled of it, are the first of those that were given to the other, also before it had opened.
pub fn two_links()
    ensures agree { (late : ℕ) (settings : Role → OpenSettings) (w : Trace Step)
        → LinkNet late settings w → (s : Role) → AgreesIn settings w s }
    ensures read { (late : ℕ) (settings : Role → OpenSettings) (w : Trace Step)
        → LinkNet late settings w → MachinesRead late settings w }
    ensures arrive { (late : ℕ) (settings : Role → OpenSettings) (w : Trace Step)
        → LinkNet late settings w → (s : Role) → PartsArrive settings w s }
    ensures prefix { (late : ℕ) (settings : Role → OpenSettings) (w : Trace Step)
        → LinkNet late settings w → (s : Role) → LinkPassed settings w s }
    ensures pulled { (late : ℕ) (settings : Role → OpenSettings) (w : Trace Step)
        → LinkNet late settings w → (s : Role) → LinkPulled w s }
{
    links_join();
}

/// What was pulled of one of two joined links is the beginning of what was given to the other.
pub fn pulled_was_given(server: &UdpLink, client: &UdpLink)
    ensures client { (late : ℕ) (w : Trace Step) → JoinedLinks late server.now client.now w → LinkPulled w Server }
    ensures server { (late : ℕ) (w : Trace Step) → JoinedLinks late server.now client.now w → LinkPulled w Client }
{
    two_links();
}

/// A small link meets what [`two_links`] asks: both ends agree, and a byte arrives that the server
/// was given before it had opened.
pub fn a_link_opens()
    ensures met { LinkNet 1024 one_settings one_link }
    ensures agree { (s : Role) → agreed (one_settings s) (half s one_link) ≡ Some (one_agreement s) }
    ensures arrives { pulled (half Client one_link) ≡ given (half Server one_link) }
{}

/// So does a small link of version 0x0101, at which the SYN and its answer come twice: the copy of the
/// SYN+ACK is no packet to the client's machine, and was sent by no machine.
pub fn a_third_link_opens()
    ensures met { LinkNet 1024 third_settings third_link }
    ensures agree { (s : Role) → agreed (third_settings s) (half s third_link) ≡ Some (third_agreement s) }
    ensures arrives { pulled (half Client third_link) ≡ given (half Server third_link) }
{}
