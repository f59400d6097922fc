//! A law of an end's acts that its links rest on.

ghost use Rattle.std.specs.Prelude.{◌≡◌, ℕ, []};
ghost use Rattle.mt_base.specs.declared.kinds.Kind.{Kind};
ghost use Rattle.mt_base.specs.declared.kinds.Role.{Role};
ghost use Rattle.mt_base.specs.Trace.{Trace};
ghost use Rattle.soft_sync.specs.declared.kinds.Path.TheVariants.{Tunnel};
ghost use Rattle.mt_endpoint.specs.Acts.{Act};
ghost use Rattle.mt_endpoint.specs.Alone.{EndOfActs};
ghost use Rattle.mt_endpoint.specs.Moving.{outward};
ghost use Rattle.mt_endpoint.specs.World.{draws};

/// What an end sends on a channel goes through a tunnel only where something was pulled from the tunnel's link
/// (MS-RDPEDYC section 3.1.5.3): where an end has no link of a kind, nothing is sent through it.
pub fn nothing_goes_where_no_link_is()
    ensures { (role : Role) (t : Trace Act) (id : ℕ) (kind : Kind) → EndOfActs role t → outward id t ≡ Tunnel kind → draws kind t ≡ [] → ⊥ }
{}
