//! What is told of a tunnel goes to the one of its kind.

ghost use Rattle.std.specs.Prelude.{◌≡◌};
ghost use Rattle.mt_base.specs.declared.kinds.Kind.TheVariants as kinds;
ghost use Rattle.end_session.specs.AskedView.{request_of};
ghost use Rattle.end_session.specs.OfKind.{told_at, asking, attaching, refusing, silencing};

use crate::tunnel::{Asked, Tunnel};
use mt_base::Kind;

/// The tunnel of this kind is asked for.
pub(crate) fn ask(kind: Kind, reliable: &mut Tunnel, lossy: &mut Tunnel, asked: Asked)
    ensures reliable { reliable.new ≡ told_at kinds.Reliable kind (asking (request_of asked)) reliable.old }
    ensures lossy { lossy.new ≡ told_at kinds.Lossy kind (asking (request_of asked)) lossy.old }
{
    match kind {
        Kind::Reliable => reliable.ask(asked),
        Kind::Lossy => lossy.ask(asked),
    }
}

/// The tunnel of this kind gets its link.
pub(crate) fn attach(kind: Kind, reliable: &mut Tunnel, lossy: &mut Tunnel)
    ensures reliable { reliable.new ≡ told_at kinds.Reliable kind attaching reliable.old }
    ensures lossy { lossy.new ≡ told_at kinds.Lossy kind attaching lossy.old }
{
    match kind {
        Kind::Reliable => reliable.attach(),
        Kind::Lossy => lossy.attach(),
    }
}

/// The tunnel of this kind is refused with a code that isn't 0.
pub(crate) fn refuse(kind: Kind, reliable: &mut Tunnel, lossy: &mut Tunnel, hr: u32)
    ensures reliable { reliable.new ≡ told_at kinds.Reliable kind (refusing hr) reliable.old }
    ensures lossy { lossy.new ≡ told_at kinds.Lossy kind (refusing hr) lossy.old }
{
    match kind {
        Kind::Reliable => reliable.refuse(hr),
        Kind::Lossy => lossy.refuse(hr),
    }
}

/// The tunnel of this kind is silent after so many expiries.
pub(crate) fn silence(kind: Kind, reliable: &mut Tunnel, lossy: &mut Tunnel, expiries: u32)
    ensures reliable { reliable.new ≡ told_at kinds.Reliable kind (silencing expiries) reliable.old }
    ensures lossy { lossy.new ≡ told_at kinds.Lossy kind (silencing expiries) lossy.old }
{
    match kind {
        Kind::Reliable => reliable.set_silent(expiries),
        Kind::Lossy => lossy.set_silent(expiries),
    }
}
