//! The laws of the layout and of its links, cited at two machines.

use std::test::*;
use udp2_core::*;

#[test]
fn laws_hold(rt: HostRuntime) -> Result<(), Fail> {
    second_layout_is_read();
    one_part_goes_over();
    numbers_wrap();
    second_links_keep();
    second_links_join();
    let server = Udp2Core::new(rt.alloc())?;
    let client = Udp2Core::new(rt.alloc())?;
    pulled_was_given(&server, &client);
    Ok(())
}
