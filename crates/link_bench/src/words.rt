//! The words of a call, as a run.

/// A layout of a link's datagrams.
#[derive(Clone, Copy)]
pub(crate) enum Layout {
    /// That of MS-RDPEUDP.
    First,
    /// That of MS-RDPEUDP2.
    Second,
}

/// What the words of a call ask for.
#[derive(Clone, Copy)]
pub(crate) enum Run {
    /// `first BYTES LOST AHEAD` or `second BYTES LOST AHEAD`: so many bytes go from one end of a link
    /// of that layout to the other, each datagram whose number can be divided by `lost` is lost, none
    /// where it is 0, and about `ahead` bytes are given before the first datagram goes.
    Cross {
        layout: Layout,
        bytes: usize,
        lost: u64,
        ahead: usize,
    },
    /// `copy BYTES TIMES`: so many bytes are copied so many times.
    Copy {
        bytes: usize,
        times: u64,
    },
}

/// The run that these words are, `None` where they are not those of one.
pub(crate) fn read_words(words: &Vec<String>) -> Option<Run> {
    match words.as_slice() {
        [name, bytes, lost, ahead] => Some(Run::Cross {
            layout: layout_named(name)?,
            bytes: bytes.as_str().parse().ok()?,
            lost: lost.as_str().parse().ok()?,
            ahead: ahead.as_str().parse().ok()?,
        }),
        [name, bytes, times] if name.as_str() == "copy" => Some(Run::Copy {
            bytes: bytes.as_str().parse().ok()?,
            times: times.as_str().parse().ok()?,
        }),
        _ => None,
    }
}

/// The layout of this name.
fn layout_named(name: &String) -> Option<Layout> {
    match name.as_str() {
        "first" => Some(Layout::First),
        "second" => Some(Layout::Second),
        _ => None,
    }
}
