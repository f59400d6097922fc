//! Laws of two ends over a network.

ghost use Rattle.std.specs.Prelude.{◌≡◌, ◌≢◌, ℕ, List};
ghost use Rattle.mt_base.specs.declared.kinds.Kind.{Kind};
ghost use Rattle.mt_base.specs.declared.kinds.Kind.TheVariants.{Reliable, Lossy};
ghost use Rattle.mt_base.specs.declared.kinds.Role.{Role};
ghost use Rattle.mt_base.specs.Trace.{Trace};
ghost use Rattle.mt_endpoint.specs.Acts.{Act};
ghost use Rattle.udp_open.specs.declared.settings.OpenSettings.{OpenSettings};
ghost use Rattle.end_calls.specs.Calls.{Entry};
ghost use Rattle.end_calls.specs.Session.{capable};
ghost use Rattle.end_net.specs.Example.{settings_by_hand};
ghost use Rattle.end_net.specs.Network.{Network, SafeNetwork};
ghost use Rattle.end_net.specs.Opened.{OpenedBy};

use end_calls::{two_ends_by_hand, two_ends_in_bytes};
use lossy_mode::{a_lossy_link_carries_a_part, lossy_links_join};
use udp_open::{a_link_opens, two_links};

/// Two ends of a session, over a main stream that loses nothing and links whose datagrams are lost, copied and
/// reordered, and none made. On each channel and in each direction what is delivered on the main stream or by a
/// reliable tunnel is the front of what was sent, each message once, also across the channel's move; by a lossy
/// tunnel some of it, in order. Neither end has a fault but want of memory; what waits and what is held keeps its
/// limits. A part counts as settled only where it was received. Two ends of a link that agreed have the same version
/// and know each other's initial number. And each open tunnel was opened by a request that the server issued.
pub fn two_ends()
    ensures { (late : ℕ) (settings : Kind → Role → OpenSettings) (w : Trace (Role × Entry)) → Network late settings w → SafeNetwork settings w }
{
    two_links();
    lossy_links_join();
    two_ends_in_bytes();
}

/// No two tunnels are opened by one request.
pub fn one_request_opens_one_tunnel()
    ensures { (t : Trace Act) (id other : ℕ) (cookie word : List ℕ) → OpenedBy Reliable id cookie t → OpenedBy Lossy other word t → id ≢ other }
{}

/// Two ends that tell each other their capabilities, before any tunnel is asked for: [`two_ends`] speaks of them.
pub fn a_network_by_hand()
    ensures { Network 1024 settings_by_hand capable }
{
    a_link_opens();
    a_lossy_link_carries_a_part();
    two_ends_by_hand();
}
