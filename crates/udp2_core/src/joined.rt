//! The law of two joined links, for links of the second layout.

ghost use Rattle.std.specs.Prelude.{◌≡◌, ◌+◌, ◌<◌, ◌≤◌, ◌^◌, ◌++◌, ℕ, List, [], ◌∷◌, true};
ghost use Rattle.mt_base.specs.declared.kinds.Role.{Role};
ghost use Rattle.mt_base.specs.declared.kinds.Role.TheVariants.{Server, Client};
ghost use Rattle.mt_base.specs.Trace.{Trace};
ghost use Rattle.mt_windows.specs.Arrived.{passed};
ghost use Rattle.mt_windows.specs.Sending.{settled};
ghost use Rattle.mt_windows.specs.declared.limits.TheConstants.{SPAN, TELL};
ghost use Rattle.carrier.specs.Entries.{given, pulled};
ghost use Rattle.carrier.specs.Joined.{Step, half};
ghost use Rattle.carrier.specs.Receiving.{accepted};
ghost use Rattle.carrier.specs.TwoLinks.{AllRead, CutsNear, KnownWereSeen, LowestArrived, Margins, Net, PassedWasGiven, PulledWasGiven, SeenWereMade, SettledArrive, acts_of, windows_of};
ghost use Rattle.udp2_core.specs.SecondLink.{JoinedMachines, SecondLink, second_layouts};
ghost use Rattle.udp2_core.specs.Wrapping.{wrapping_layouts, wrapping_world};

use crate::link::Udp2Core;
use carrier::joined_links;

/// The two ends of a link tell their numbers of 16 bits apart as long as fewer than 28,160 datagrams
/// are sent after one that comes. So each part, transmission, telling and floor is read as it was
/// meant; a part that is settled was accepted at the other end, with the same bytes; the bytes that
/// one end passed, or pulled, are the first of those that the other was given; no part below the
/// lowest unsettled one is missing at the other end; the parts that were cut never run more than two
/// windows ahead of those that were drained; each transmission that was seen was made by the other
/// end, and its part accepted; and each one that is known as told was seen.
pub fn second_links_join()
    ensures margins { (late : ℕ) → SPAN + TELL + late ≤ 2 ^ 15 → Margins late second_layouts }
    ensures read { (late : ℕ) (w : Trace Step) → SecondLink late w → AllRead late second_layouts w }
    ensures arrive { (late : ℕ) (w : Trace Step) → SecondLink late w
        → (s : Role) → SettledArrive second_layouts w s }
    ensures prefix { (late : ℕ) (w : Trace Step) → SecondLink late w
        → (s : Role) → PassedWasGiven second_layouts w s }
    ensures pulled { (late : ℕ) (w : Trace Step) → SecondLink late w
        → (s : Role) → PulledWasGiven second_layouts w s }
    ensures apart { (late : ℕ) (w : Trace Step) → SecondLink late w
        → (s : Role) → LowestArrived second_layouts w s }
    ensures ahead { (late : ℕ) (w : Trace Step) → SecondLink late w
        → (s : Role) → CutsNear second_layouts w s }
    ensures seen { (late : ℕ) (w : Trace Step) → SecondLink late w
        → (s : Role) → SeenWereMade second_layouts w s }
    ensures known { (late : ℕ) (w : Trace Step) → SecondLink late w
        → (s : Role) → KnownWereSeen second_layouts w s }
{
    joined_links();
}

/// A small world of this layout whose numbers wrap meets what [`joined_links`] asks. At a link the
/// numbers begin at 1; here the first ones are free, and those of the server begin at 65,535. So its
/// second part and transmission are shown as 0. The first two parts come in the other order, and one of
/// them twice; the third is lost, and sent again under a transmission of its own. All three are passed
/// and settled, by an acknowledgement and by a vector.
pub fn numbers_wrap()
    ensures met { Net 1024 wrapping_layouts wrapping_world }
    ensures passes { passed (accepted (wrapping_layouts Client) (half Client wrapping_world))
        ≡ 0x41 ∷ 0x42 ∷ 0x43 ∷ [] }
    ensures settles { (p : ℕ) → p < 3
        → settled (windows_of wrapping_layouts Server) (acts_of wrapping_layouts wrapping_world Server) p ≡ true }
{}

/// What was pulled at one of two joined machines is the beginning of what was given to the other.
pub fn pulled_was_given(server: &Udp2Core, client: &Udp2Core)
    ensures client { (late : ℕ) (w : Trace Step) → JoinedMachines late server.now client.now w
        → (more : List ℕ) × (given (half Server w) ≡ pulled (half Client w) ++ more) }
    ensures server { (late : ℕ) (w : Trace Step) → JoinedMachines late server.now client.now w
        → (more : List ℕ) × (given (half Client w) ≡ pulled (half Server w) ++ more) }
{
    second_links_join();
}
