/// What a field holds, by its wire type.
#[derive(Clone, Copy)]
pub enum Value<'a> {
    Varint(u64),
    /// Eight bytes, which nothing reads.
    Eight,
    Bytes(&'a [u8]),
    /// Four bytes, which nothing reads.
    Four,
}

/// A field of a message, whose body is borrowed from the message's bytes.
#[derive(Clone, Copy)]
pub struct Field<'a> {
    pub number: u32,
    pub value: Value<'a>,
    /// The place of its first byte in the message.
    pub start: usize,
    /// The place after its last byte.
    pub end: usize,
}
