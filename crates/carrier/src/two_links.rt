//! The law of two joined links.

ghost use Rattle.std.specs.Prelude.{◌≡◌, ◌<◌, ◌^◌, ℕ, true, false, [], ◌∷◌};
ghost use Rattle.mt_base.specs.declared.kinds.Role.{Role};
ghost use Rattle.mt_base.specs.declared.kinds.Role.TheVariants.{Server, Client};
ghost use Rattle.mt_base.specs.Trace.{Trace};
ghost use Rattle.mt_windows.specs.Arrived.{passed};
ghost use Rattle.mt_windows.specs.Sending.{settled};
ghost use Rattle.carrier.specs.Faithful.{HasRoom};
ghost use Rattle.carrier.specs.Joined.{Step, half};
ghost use Rattle.carrier.specs.Layout.{Bounds, Layout};
ghost use Rattle.carrier.specs.Receiving.{accepted};
ghost use Rattle.carrier.specs.SmallWorld.{seen_layouts, seen_world, small_layouts, small_world};
ghost use Rattle.carrier.specs.TwoLinks.{AllRead, CutsNear, Enough, KnownWereSeen, LowestArrived, Net, PassedWasGiven, PulledWasGiven, SeenWereMade, SettledArrive, acts_of, windows_of};

/// Two ends of a link, whether parts are told or transmissions, joined by a network that loses, copies
/// and reorders datagrams and makes none, and that brings none too late: each datagram is read as it
/// was meant, whatever numbers share its low parts, and its numbers lie within the margins; a part
/// that is settled at one end was accepted at the other, with the same bytes; and the bytes that one
/// end passed, or pulled, are the first of those that the other was given. No part below the lowest
/// unsettled one is missing at the other end, and the parts that were cut never run more than two
/// windows ahead of those that were drained. Where transmissions are told, each one that was seen at
/// an end was made by the other, and its part was accepted; and each one that is known as told was
/// seen.
pub fn joined_links()
    ensures read { (late : ℕ) (layouts : Role → Layout) (w : Trace Step)
        → Net late layouts w → AllRead late layouts w }
    ensures arrive { (late : ℕ) (layouts : Role → Layout) (w : Trace Step)
        → Net late layouts w → (s : Role) → SettledArrive layouts w s }
    ensures prefix { (late : ℕ) (layouts : Role → Layout) (w : Trace Step)
        → Net late layouts w → (s : Role) → PassedWasGiven layouts w s }
    ensures pulled { (late : ℕ) (layouts : Role → Layout) (w : Trace Step)
        → Net late layouts w → (s : Role) → PulledWasGiven layouts w s }
    ensures apart { (late : ℕ) (layouts : Role → Layout) (w : Trace Step)
        → Net late layouts w → (s : Role) → LowestArrived layouts w s }
    ensures ahead { (late : ℕ) (layouts : Role → Layout) (w : Trace Step)
        → Net late layouts w → (s : Role) → CutsNear layouts w s }
    ensures seen { (late : ℕ) (layouts : Role → Layout) (w : Trace Step)
        → Net late layouts w → (s : Role) → SeenWereMade layouts w s }
    ensures known { (late : ℕ) (layouts : Role → Layout) (w : Trace Step)
        → Net late layouts w → (s : Role) → KnownWereSeen layouts w s }
{}

/// With 16 bits the bounds leave room between numbers that have the same low part: with a window of
/// 64 parts where fewer than 1,024 datagrams overtake one, and with one of 512 where fewer than 8,192
/// do.
pub fn sixteen_bits_are_enough()
    ensures small { (bounds : Bounds) → bounds.windows.window ≡ 64
        → bounds.windows.span ≡ 4096 → bounds.tell ≡ 512 → Enough 1024 (2 ^ 15) false bounds }
    ensures wide { (bounds : Bounds) → bounds.windows.window ≡ 512
        → bounds.windows.span ≡ 4096 → bounds.tell ≡ 512 → Enough 8192 (2 ^ 15) false bounds }
{}

/// A small world meets what [`joined_links`] asks, and its layouts what
/// [`crate::faithful::faithful_links`] asks: its numbers wrap, its datagrams come in another order
/// and twice, and one is lost; and all three parts are passed.
pub fn a_small_world()
    ensures met { Net 2 small_layouts small_world }
    ensures asks { (s : Role) → HasRoom (small_layouts s) }
    ensures passes { passed (accepted (small_layouts Client) (half Client small_world))
        ≡ 10 ∷ 20 ∷ 30 ∷ [] }
{}

/// Another one whose ends tell transmissions meets the same: the numbers of its parts and of its
/// transmissions wrap, its datagrams come in another order and twice, and one is lost; and all three
/// parts are passed.
pub fn a_small_world_of_transmissions()
    ensures met { Net 3 seen_layouts seen_world }
    ensures asks { (s : Role) → HasRoom (seen_layouts s) }
    ensures passes { passed (accepted (seen_layouts Client) (half Client seen_world))
        ≡ 10 ∷ 20 ∷ 30 ∷ [] }
    ensures settles { (p : ℕ) → p < 3
        → settled (windows_of seen_layouts Server) (acts_of seen_layouts seen_world Server) p ≡ true }
{}
