use mt_base::{
    Cursor, Kind, NoMemory, NoRoom, Out, Place, Role, Room, Short, Spell, W16, W32, filling, near,
    nearness, stretch, write,
};
use std::test::*;

#[test]
fn reads_numbers_from_the_highest_byte_on(rt: HostRuntime) -> Result<(), Fail> {
    let mut from = Cursor::new(&[0x01, 0x02, 0x03, 0x04, 0x05, 0x06, 0x07, 0x08]);
    assert_eq!(rt; from.u8()?, 0x01);
    assert_eq!(rt; from.u16_be()?, 0x0203);
    assert_eq!(rt; from.u32_be()?, 0x0405_0607);
    assert_eq!(rt; from.at(), 7);
    Ok(())
}

#[test]
fn reads_numbers_from_the_lowest_byte_on(rt: HostRuntime) -> Result<(), Fail> {
    let mut from = Cursor::new(&[0x08, 0x09, 0x0a, 0x0b, 0x0c, 0x0d, 0x0e, 0x0f, 0x10]);
    assert_eq!(rt; from.u16_le()?, 0x0908);
    assert_eq!(rt; from.u24_le()?, 0x000c_0b0a);
    assert_eq!(rt; from.u32_le()?, 0x100f_0e0d);
    Ok(())
}

#[test]
fn reads_bytes_where_there_are_enough(rt: HostRuntime) -> Result<(), Fail> {
    let mut from = Cursor::new(&[0x11, 0x12]);
    assert_eq!(rt; from.take(3), Err(Short { at: 0, need: 3 }));
    assert_eq!(rt; from.rest(), [0x11, 0x12].as_slice());
    assert_eq!(rt; from.take(2)?, [0x11, 0x12].as_slice());
    assert_eq!(rt; from.u8(), Err(Short { at: 2, need: 1 }));
    Ok(())
}

#[test]
fn writes_each_field(rt: HostRuntime) -> Result<(), Fail> {
    let mut bytes = [0xff; 18];
    let mut out = Out::new(&mut bytes);
    out.put_u8(0x01)?;
    out.put_u16_be(0x0203)?;
    out.put_u32_be(0x0405_0607)?;
    out.put_u16_le(0x0908)?;
    out.put_u24_le(0x000c_0b0a)?;
    out.put_u32_le(0x100f_0e0d)?;
    assert_eq!(rt; out.put(&[1, 2, 3]), Err(NoRoom { at: 16, need: 3 }));
    out.put(&[0x11])?;
    assert_eq!(rt; out.at(), 17);
    assert_eq!(rt;
        bytes.as_slice(),
        [
            0x01, 0x02, 0x03, 0x04, 0x05, 0x06, 0x07, 0x08, 0x09, 0x0a, 0x0b, 0x0c, 0x0d, 0x0e,
            0x0f, 0x10, 0x11, 0xff,
        ]
        .as_slice()
    );
    Ok(())
}

#[test]
fn puts_fields_in_room(rt: HostRuntime) -> Result<(), Fail> {
    let mut room = Room::new(5);
    room.pass(1)?;
    room.put_u8(7)?;
    assert_eq!(rt; room.put_u32_be(1), Err(NoRoom { at: 2, need: 4 }));
    room.put_zeros(3)?;
    assert_eq!(rt; room.put(&[1]), Err(NoRoom { at: 5, need: 1 }));
    Ok(())
}

/// A byte, and so many zeros.
struct Padded(u8, usize);

impl Spell for Padded {
    ghost use Rattle.std.specs.Prelude.{[], ◌∷◌, replicate};

    ghost fields = { λ p. (p.0 ∷ []) ∷ replicate p.1 0 ∷ [] };

    ghost fits = { λ _. Unit {0} };

    fn spell<P: Place>(&self, place: &mut P) -> Result<(), NoRoom> {
        place.put(&[self.0])?;
        place.put_zeros(self.1)
    }
}

#[test]
fn writes_all_fields_or_none(rt: HostRuntime) -> Result<(), Fail> {
    let mut bytes = [0xff; 4];
    assert_eq!(rt;
        write(&Padded(1, 4), &mut bytes),
        Err(NoRoom { at: 1, need: 4 })
    );
    assert_eq!(rt; bytes, [0xff; 4]);
    assert_eq!(rt; write(&Padded(1, 2), &mut bytes), Ok(3));
    assert_eq!(rt; bytes, [1, 0, 0, 0xff]);
    Ok(())
}

#[test]
fn the_stretch_of_a_flag(rt: HostRuntime) {
    assert_eq!(rt; stretch(true, &[true, true, false, true]), 2);
    assert_eq!(rt; stretch(false, &[true]), 0);
    assert_eq!(rt; stretch(false, &[false; 63]), 63);
    assert_eq!(rt; stretch(false, &[false; 64]), 63);
}

#[test]
fn the_other_end(rt: HostRuntime) {
    assert_eq!(rt; Role::Server.other(), Role::Client);
    assert_eq!(rt; Role::Client.other(), Role::Server);
    assert!(rt; Kind::Reliable != Kind::Lossy);
    assert_eq!(rt; NoMemory, NoMemory);
    filling();
}

#[test]
fn numbers_near_a_reference(rt: HostRuntime) {
    assert_eq!(rt; near::<W16>(65_530, 3), Some(65_539));
    assert_eq!(rt; near::<W16>(2, 65_535), None);
    assert_eq!(rt; near::<W16>(40_000, 7_232), Some(7_232));
    assert_eq!(rt; near::<W16>(40_000, 7_231), Some(72_767));
    assert_eq!(rt; near::<W32>(4_294_967_290, 3), Some(4_294_967_299));
    assert_eq!(rt; near::<W32>(9, 4_294_967_295), None);
    nearness();
}
