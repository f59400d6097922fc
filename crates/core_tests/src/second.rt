//! Stories of one end, and of two.

mod arrival;
mod laws;
mod refusals;
mod tellings;
mod timer;

use link_net::{Ending, Step, Story, play};
use mt_base::NoMemory;
use std::alloc::Global;
use udp2_core::Udp2Core;

/// The part 1 of two bytes, as the transmission 1.
const PART_1: [u8; 9] = [0x41, 0x04, 0x60, 1, 0, 1, 0, 0xe0, 0x42];

/// The transmission 1 was received.
const TELLS_1: [u8; 10] = [0, 0x01, 0x60, 1, 0, 0, 0, 0xe0, 0, 0];

/// Goes through these steps at one end of a new link; the inner `Err` has the place of the first that
/// does not hold.
fn goes(alloc: Global, steps: &[Step]) -> Result<Result<(), usize>, NoMemory> {
    let mut link = Udp2Core::new(alloc)?;
    Ok(play(&mut link, steps))
}

/// How this story ends for two links.
fn ends(alloc: Global, story: &Story) -> Result<Ending, NoMemory> {
    let near = Udp2Core::new(alloc)?;
    let far = Udp2Core::new(alloc)?;
    story.run(alloc, near, far)
}
