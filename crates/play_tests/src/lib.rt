//! Tests of what the program does: scripts that are read, worlds in which they are played, the text
//! of a report, files that are shown, captures that are read and judged, and devices. They stand
//! apart from those crates, which are then proved once for their code and not a second time for
//! their tests.
//!
//! Below it stand `mt_script`, `play_report`, `channel_counts`, `mt_world`, `mt_show`, `capture_check`, `mt_outside` and
//! `mt_base`. No crate stands on it.
#![tactic(auto)]

#[cfg(test)]
mod captures;
#[cfg(test)]
mod devices;
#[cfg(test)]
mod judged;
#[cfg(test)]
mod real_devices;
#[cfg(test)]
mod report;
#[cfg(test)]
mod scripts;
#[cfg(test)]
mod shown;
#[cfg(test)]
mod worlds;
