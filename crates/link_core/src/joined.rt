//! The law of two joined links of one version.

ghost use Rattle.std.specs.Prelude.{◌≡◌, ◌+◌, ◌<◌, ◌≤◌, ◌^◌, ◌++◌, ℕ, List};
ghost use Rattle.mt_base.specs.declared.kinds.Role.{Role};
ghost use Rattle.mt_base.specs.declared.kinds.Role.TheVariants.{Server, Client};
ghost use Rattle.mt_base.specs.Trace.{Trace};
ghost use Rattle.carrier.specs.Entries.{given, pulled};
ghost use Rattle.carrier.specs.Joined.{Step, half};
ghost use Rattle.carrier.specs.TwoLinks.{AllRead, CutsNear, KnownWereSeen, LowestArrived, Margins, PassedWasGiven, PulledWasGiven, SeenWereMade, SettledArrive};
ghost use Rattle.link_core.specs.JoinedCores.{JoinedCores, OneLink, ahead, link_layouts, room};

use crate::link::LinkCore;
use carrier::joined_links;

/// The two ends of a link, of whatever version and initial numbers, tell their numbers apart as long
/// as fewer than 2^31 - 64 datagrams are sent after one that comes, or 28,160 in version 0x0101. So
/// each is read as it was meant; a part that is settled was accepted at the other end, with the same
/// bytes; the bytes that one end passed, or pulled, are the first of those that the other was given;
/// no part below the lowest unsettled one is missing at the other end; and the parts that were cut
/// never run more than two windows ahead of those that were drained. In version 0x0101 each
/// transmission that was seen was made by the other end, and its part accepted; and each one that is
/// known as told was seen.
pub fn links_join()
    ensures margins { (late server client version : ℕ) → server < 2 ^ 32 → client < 2 ^ 32
        → ahead version + late ≤ room version → Margins late (link_layouts server client version) }
    ensures read { (late server client version : ℕ) (w : Trace Step) →
        OneLink late server client version w
        → AllRead late (link_layouts server client version) w }
    ensures arrive { (late server client version : ℕ) (w : Trace Step) →
        OneLink late server client version w
        → (s : Role) → SettledArrive (link_layouts server client version) w s }
    ensures prefix { (late server client version : ℕ) (w : Trace Step) →
        OneLink late server client version w
        → (s : Role) → PassedWasGiven (link_layouts server client version) w s }
    ensures pulled { (late server client version : ℕ) (w : Trace Step) →
        OneLink late server client version w
        → (s : Role) → PulledWasGiven (link_layouts server client version) w s }
    ensures apart { (late server client version : ℕ) (w : Trace Step) →
        OneLink late server client version w
        → (s : Role) → LowestArrived (link_layouts server client version) w s }
    ensures ahead { (late server client version : ℕ) (w : Trace Step) →
        OneLink late server client version w
        → (s : Role) → CutsNear (link_layouts server client version) w s }
    ensures seen { (late server client version : ℕ) (w : Trace Step) →
        OneLink late server client version w
        → (s : Role) → SeenWereMade (link_layouts server client version) w s }
    ensures known { (late server client version : ℕ) (w : Trace Step) →
        OneLink late server client version w
        → (s : Role) → KnownWereSeen (link_layouts server client version) w s }
{
    joined_links();
}

/// What was pulled at one of two joined links is the beginning of what was given to the other.
pub fn pulled_was_given(server: &LinkCore, client: &LinkCore)
    ensures client { (late a b version : ℕ) (w : Trace Step) →
        JoinedCores late a b version server.now client.now w
        → (more : List ℕ) × (given (half Server w) ≡ pulled (half Client w) ++ more) }
    ensures server { (late a b version : ℕ) (w : Trace Step) →
        JoinedCores late a b version server.now client.now w
        → (more : List ℕ) × (given (half Client w) ≡ pulled (half Server w) ++ more) }
{
    links_join();
}
