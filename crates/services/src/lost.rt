/// Why a line isn't handed on.
#[derive(Clone, Copy)]
pub enum Lost {
    /// With its end it has more bytes than the limit.
    TooLong,
    OutOfMemory,
}
