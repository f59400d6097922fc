//! The law of two joined links, for links of the first layout.

ghost use Rattle.std.specs.Prelude.{◌≡◌, ◌+◌, ◌<◌, ◌≤◌, ◌^◌, ◌++◌, ℕ, List};
ghost use Rattle.mt_base.specs.declared.kinds.Role.{Role};
ghost use Rattle.mt_base.specs.declared.kinds.Role.TheVariants.{Server, Client};
ghost use Rattle.mt_base.specs.Trace.{Trace};
ghost use Rattle.mt_windows.specs.ArrivedView.{left_of};
ghost use Rattle.mt_windows.specs.declared.limits.TheConstants.{WINDOW};
ghost use Rattle.carrier.specs.Entries.{given, pulled};
ghost use Rattle.carrier.specs.Joined.{Step, half};
ghost use Rattle.carrier.specs.TwoLinks.{AllRead, CutsNear, LowestArrived, Margins, PassedWasGiven, PulledWasGiven, SettledArrive};
ghost use Rattle.udp1_core.specs.FirstLink.{FirstLink, JoinedMachines, link_layouts};

use crate::link::Udp1Core;
use carrier::joined_links;

/// The two ends of a link, of whatever version and initial numbers, tell their numbers apart as long
/// as fewer than 2^31 - 64 datagrams are sent after one that comes. So each is read as it was meant;
/// a part that is settled was accepted at the other end, with the same bytes; the bytes that one end
/// passed, or pulled, are the first of those that the other was given; no part below the lowest
/// unsettled one is missing at the other end; and the parts that were cut never run more than two
/// windows ahead of those that were drained.
pub fn first_links_join()
    ensures margins { (late server client version : ℕ) → server < 2 ^ 32 → client < 2 ^ 32
        → WINDOW + late ≤ 2 ^ 31 → Margins late (link_layouts server client version) }
    ensures read { (late server client version : ℕ) (w : Trace Step) →
        FirstLink late server client version w
        → AllRead late (link_layouts server client version) w }
    ensures arrive { (late server client version : ℕ) (w : Trace Step) →
        FirstLink late server client version w
        → (s : Role) → SettledArrive (link_layouts server client version) w s }
    ensures prefix { (late server client version : ℕ) (w : Trace Step) →
        FirstLink late server client version w
        → (s : Role) → PassedWasGiven (link_layouts server client version) w s }
    ensures pulled { (late server client version : ℕ) (w : Trace Step) →
        FirstLink late server client version w
        → (s : Role) → PulledWasGiven (link_layouts server client version) w s }
    ensures apart { (late server client version : ℕ) (w : Trace Step) →
        FirstLink late server client version w
        → (s : Role) → LowestArrived (link_layouts server client version) w s }
    ensures ahead { (late server client version : ℕ) (w : Trace Step) →
        FirstLink late server client version w
        → (s : Role) → CutsNear (link_layouts server client version) w s }
{
    joined_links();
}

/// What was pulled at one of two joined machines is the beginning of what was given to the other.
pub fn pulled_was_given(server: &Udp1Core, client: &Udp1Core)
    ensures client { (late a b version : ℕ) (w : Trace Step) →
        JoinedMachines late a b version server.now client.now w
        → (more : List ℕ) × (given (half Server w) ≡ pulled (half Client w) ++ more) }
    ensures server { (late a b version : ℕ) (w : Trace Step) →
        JoinedMachines late a b version server.now client.now w
        → (more : List ℕ) × (given (half Client w) ≡ pulled (half Server w) ++ more) }
{
    first_links_join();
}
