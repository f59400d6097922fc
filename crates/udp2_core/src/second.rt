//! The second layout (MS-RDPEUDP2 section 2.2).

use crate::contents::read_contents;
use crate::head::write_fields;
use crate::settle::{settle_from, settle_last};
use carrier::Reason;
use link_machine::{Contents, Got, Numbers, Told, WireLayout};
use mt_base::W16;
use mt_windows::SendWindow;
use udp2_packets::{Body2, finish2};

/// The datagrams of the second layout.
pub struct Second;

impl WireLayout for Second {
    ghost use Rattle.std.specs.Prelude.{false, refl};
    ghost use Rattle.udp2_core.specs.ContentsView.{CanTell};
    ghost use Rattle.udp2_core.specs.SecondLayout.{second_wire};

    type Width = W16;

    ghost wire = { second_wire };

    ghost TELLS_PARTS = { false };

    const TELLS_PARTS: bool = false;

    ghost can_tell = { CanTell };

    fn read<'a>(datagram: &'a [u8], scratch: &'a mut [u8; 1232]) -> Result<Contents<'a>, Reason> {
        read_contents(datagram, scratch)
    }

    fn settle(window: &mut SendWindow<W16>, told: Told<'_>) -> bool {
        match told {
            Told::Nothing => false,
            Told::Last { named, count } => settle_last(window, named, count),
            Told::From { named, bytes } => settle_from(window, named, bytes),
            Told::Upto { .. } => unreachable!(),
        }
    }

    fn head(
        got: &Got<'_, W16>,
        tells: bool,
        above: Option<u64>,
        numbers: Option<Numbers>,
        out: &mut [u8; 1232],
    ) -> usize {
        write_fields(got, tells, above, numbers, out)
    }

    fn finish(out: &mut [u8; 1232], length: usize) -> usize {
        finish2(&Body2::Nothing, length.max(1), out)
    }

    fn is_wire() {}

    ghost modulus_is = { refl };

    ghost tells_parts_is = { refl };
}
