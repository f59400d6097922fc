//! Writing a value whose fields are gone through one after the other.

ghost use Rattle.std.specs.Prelude.{◌≡◌, ◌++◌, List, [], length, drop, Err, IfErr, IfOk, OnErr, OnOk, ℕ, ◌≤◌};
ghost use Rattle.mt_base.specs.Filling.{Fills, fills};
ghost use Rattle.mt_base.specs.Writing.{joined, puts};

use crate::errors::NoRoom;
use crate::output::Out;
use crate::place::Place;
use crate::room::Room;

/// A value that is spelled by fields, which a walk puts at a place in order.
pub trait Spell {
    ghost fields: { Self → List (List ℕ) };

    ghost fits: { Self → Type 0 };

    /// Puts the fields of this value. The first that does not fit is [`NoRoom`] with its place and
    /// length, and those before it are put.
    fn spell<P: Place>(&self, place: &mut P) -> Result<(), NoRoom>
        requires { fits self.now }
        ensures same { P.lent place.new ≡ P.lent place.old }
        ensures filled { Fills (P.filling place.new) result (fills (fields self.now) (P.filling place.old)) };
}

/// Whether all fields of a value find a place in `out`.
fn find_room<S: Spell>(value: &S, out: &[u8]) -> Result<(), NoRoom>
    requires { S.fits value.now }
    ensures found { OnOk result (length (joined (S.fields value.now)) ≤ length out.now) }
    ensures refused { IfErr result (λ e. puts (S.fields value.now) (record { before = []; after = out.now }) ≡ Err e) }
{
    value.spell(&mut Room::new(out.len()))
}

/// Writes a value at the front of `out`, and gives the number of its bytes.
///
/// Where a field does not fit it is [`NoRoom`], with that field's place and length, and `out`
/// stays as it was.
pub fn write<S: Spell>(value: &S, out: &mut [u8]) -> Result<usize, NoRoom>
    requires { S.fits value.now }
    ensures ok { let text = joined (S.fields value.now) in IfOk result (λ n. (n ≡ length text) × (out.new ≡ text ++ drop n out.old)) }
    ensures no_room { IfErr result (λ e. puts (S.fields value.now) (record { before = []; after = out.old }) ≡ Err e) }
    ensures unchanged { OnErr result (out.new ≡ out.old) }
{
    find_room(value, out)?;
    let mut place = Out::new(out);
    value.spell(&mut place)?;
    Ok(place.at())
}
