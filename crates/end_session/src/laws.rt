//! What is known of a tunnel, by the acts of an end.

ghost use Rattle.std.specs.Prelude.{◌≡◌};
ghost use Rattle.mt_base.specs.declared.kinds.Kind.{Kind};
ghost use Rattle.mt_base.specs.declared.kinds.Role.{Role};
ghost use Rattle.mt_base.specs.Trace.{Trace};
ghost use Rattle.mt_endpoint.specs.Acts.{Act};
ghost use Rattle.mt_endpoint.specs.Tunnels.{is_live, is_open, is_settled, refusal, tunnel};
ghost use Rattle.end_session.specs.Known.{known, is_live_in, is_open_in, is_settled_in, refusal_in, tunnel_in};

/// Of what acts have told of a tunnel, what [`Tunnel`](crate::Tunnel) reads off is what these acts made
/// of the tunnel.
pub fn a_tunnel_is_what_acts_made()
    ensures state { (role : Role) (kind : Kind) (t : Trace Act) → tunnel_in role (known role kind t) ≡ tunnel role kind t }
    ensures open_one { (role : Role) (kind : Kind) (t : Trace Act) → is_open_in role (known role kind t) ≡ is_open role kind t }
    ensures live { (role : Role) (kind : Kind) (t : Trace Act) → is_live_in role (known role kind t) ≡ is_live role kind t }
    ensures settled { (role : Role) (kind : Kind) (t : Trace Act) → is_settled_in role (known role kind t) ≡ is_settled role kind t }
    ensures refused { (role : Role) (kind : Kind) (t : Trace Act) → refusal_in role (known role kind t) ≡ refusal role kind t }
{}
