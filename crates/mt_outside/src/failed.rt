//! What a device, or a whole read over one, answers beside a value.

/// The call failed, and the device's count of faults rose in it.
#[derive(Clone, Copy, Debug, PartialEq, Eq)]
pub struct Failed;

/// Why a whole file was not read.
#[derive(Clone, Copy, Debug, PartialEq, Eq)]
pub enum ReadFault {
    /// A read failed: the store's count of faults rose.
    Failed,
    /// The file has more bytes than the limit.
    TooLong,
    /// Memory ran out.
    NoMemory,
}
