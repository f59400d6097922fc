//! The law of two joined lossy links, from their opening on.

ghost use Rattle.std.specs.Prelude.{◌≡◌, ℕ};
ghost use Rattle.mt_base.specs.declared.kinds.Role.{Role};
ghost use Rattle.mt_base.specs.declared.kinds.Role.TheVariants.{Server, Client};
ghost use Rattle.mt_base.specs.Trace.{Trace};
ghost use Rattle.carrier.specs.Entries.{posted};
ghost use Rattle.carrier.specs.Joined.{Step, half};
ghost use Rattle.carrier.specs.PerfectThin.{handed};
ghost use Rattle.udp_open.specs.declared.settings.OpenSettings.{OpenSettings};
ghost use Rattle.udp_open.specs.TwoLinks.{AgreesIn};
ghost use Rattle.lossy_mode.specs.OneLossy.{lossy_settings, one_lossy};
ghost use Rattle.lossy_mode.specs.TwoLossy.{HandedPicked, KindIn, LossyNet, Picked};

/// Two ends of one lossy link, joined by a network that loses, copies and reorders datagrams and
/// makes none, and that brings none too late; however many are lost in a row, and however often the
/// numbers shown have passed their modulus. An end that agreed has the lower of the two versions and
/// the initial number of the other end, and the client's link is a lossy one as the server's is. The
/// parts that one end accepted are some of the first ones that the other sent, each at most once, in
/// their order and with their bytes; so are those that it handed out of those that were posted.
pub fn lossy_links_join()
    ensures agree { (late : ℕ) (settings : Role → OpenSettings) (w : Trace Step)
        → LossyNet late settings w → (s : Role) → AgreesIn settings w s }
    ensures kind { (late : ℕ) (settings : Role → OpenSettings) (w : Trace Step)
        → LossyNet late settings w → (s : Role) → KindIn settings w s }
    ensures accepted { (late : ℕ) (settings : Role → OpenSettings) (w : Trace Step)
        → LossyNet late settings w → (s : Role) → Picked settings w s }
    ensures handed { (late : ℕ) (settings : Role → OpenSettings) (w : Trace Step)
        → LossyNet late settings w → (s : Role) → HandedPicked w s }
{}

/// A small lossy link meets what [`lossy_links_join`] asks: a part arrives that the server was given
/// before it had opened.
pub fn a_lossy_link_carries_a_part()
    ensures met { LossyNet 1024 lossy_settings one_lossy }
    ensures arrives { handed (half Client one_lossy) ≡ posted (half Server one_lossy) }
{}
