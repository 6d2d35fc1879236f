//! What routers say to their neighbours.

ghost use Rattle.std.specs.Prelude.{◌≡◌, ◌≢◌, ◌+◌, ◌++◌, ◌≤◌, MatchOption, length, take};
ghost use Rattle.fr_node.specs.Bytes.{bytes_4, bytes_8, bytes_of, head_of};

/// A distance that is not known, since there is no way.
pub const CUT_OFF: u32 = u32::MAX;

/// How many bytes a message has.
pub const MESSAGE_LENGTH: usize = 64;

/// What a router says to a neighbour. It may be lost, delayed, repeated and overtaken.
#[derive(Clone, Copy, Debug, PartialEq, Eq)]
pub struct Message {
    /// The router that says it.
    pub from: u32,
    /// The neighbour that it is for.
    pub to: u32,
    /// The start of the router that says it: a greater number at each start.
    pub boot: u64,
    /// The greatest start of the neighbour that the router knows. 0 if it knows none, or has not heard the neighbour
    /// lately.
    pub echo: u64,
    /// The number of the router's last announcement.
    pub number: u64,
    /// The height that it announced under this number.
    pub height: u64,
    /// The greatest number that it has heard of the greatest start of the neighbour. 0 if it has heard none.
    pub heard: u64,
    /// The cost of the nearest route from the router to a gateway, by what it has heard. [`CUT_OFF`](crate::CUT_OFF) if
    /// it has no way.
    pub distance: u32,
    /// How many messages the router has said at this start, to all neighbours, with this one.
    pub stamp: u64,
}

/// The first four bytes of each message: the letters `FRN`, and the version of the form.
const HEADER: u32 = 0x4652_4e02;

impl Message {
    /// The message as bytes: the header, `from`, `to` and `distance` in 4 bytes each; then `boot`, `echo`, `number`,
    /// `height`, `heard` and `stamp` in 8 bytes each. The highest byte of each comes first. O(1).
    pub fn write(&self) -> [u8; MESSAGE_LENGTH]
        ensures { result ≡ bytes_of self.now }
    {
        let mut bytes = [0u8; MESSAGE_LENGTH];
        self.write_head(&mut bytes);
        self.write_numbers(&mut bytes);
        bytes
    }

    /// Writes the first 16 bytes.
    fn write_head(&self, bytes: &mut [u8])
        requires { length bytes.old ≡ MESSAGE_LENGTH }
        ensures { take 16 bytes.new ≡ head_of self.now }
    {
        write_u32(bytes, 0, HEADER);
        write_u32(bytes, 4, self.from);
        write_u32(bytes, 8, self.to);
        write_u32(bytes, 12, self.distance);
    }

    /// Writes the bytes from the 17th on.
    fn write_numbers(&self, bytes: &mut [u8])
        requires length { length bytes.old ≡ MESSAGE_LENGTH }
        requires head { take 16 bytes.old ≡ head_of self.now }
        ensures { bytes.new ≡ bytes_of self.now }
    {
        write_u64(bytes, 16, self.boot);
        write_u64(bytes, 24, self.echo);
        write_u64(bytes, 32, self.number);
        write_u64(bytes, 40, self.height);
        write_u64(bytes, 48, self.heard);
        write_u64(bytes, 56, self.stamp);
    }

    /// Reads a message. Returns `None` if the bytes are not a message, because of their number or their header. O(1).
    pub fn read(bytes: &[u8]) -> Option<Message>
        // Exactly the bytes of a message are read.
        ensures { MatchOption result ((m : Message) → bytes_of m ≢ bytes.now) (λ m. bytes_of m ≡ bytes.now) }
    {
        if bytes.len() != MESSAGE_LENGTH || read_u32(bytes, 0) != HEADER {
            return None;
        }
        Some(Message {
            from: read_u32(bytes, 4),
            to: read_u32(bytes, 8),
            distance: read_u32(bytes, 12),
            boot: read_u64(bytes, 16),
            echo: read_u64(bytes, 24),
            number: read_u64(bytes, 32),
            height: read_u64(bytes, 40),
            heard: read_u64(bytes, 48),
            stamp: read_u64(bytes, 56),
        })
    }
}

/// Writes a number in 4 bytes, from an index on.
fn write_u32(bytes: &mut [u8], at: usize, number: u32)
    requires { at + 4 ≤ length bytes.old }
    ensures { take (at + 4) bytes.new ≡ take at bytes.old ++ bytes_4 number }
{
    bytes[at..at + 4].copy_from_slice(&number.to_be_bytes());
}

/// Writes a number in 8 bytes, from an index on.
fn write_u64(bytes: &mut [u8], at: usize, number: u64)
    requires { at + 8 ≤ length bytes.old }
    ensures { take (at + 8) bytes.new ≡ take at bytes.old ++ bytes_8 number }
{
    bytes[at..at + 8].copy_from_slice(&number.to_be_bytes());
}

/// The number in the 4 bytes from an index on.
fn read_u32(bytes: &[u8], at: usize) -> u32
    requires { at + 4 ≤ length bytes.now }
    ensures { take (at + 4) bytes.now ≡ take at bytes.now ++ bytes_4 result }
{
    let mut four = [0u8; 4];
    four.copy_from_slice(&bytes[at..at + 4]);
    u32::from_be_bytes(four)
}

/// The number in the 8 bytes from an index on.
fn read_u64(bytes: &[u8], at: usize) -> u64
    requires { at + 8 ≤ length bytes.now }
    ensures { take (at + 8) bytes.now ≡ take at bytes.now ++ bytes_8 result }
{
    let mut eight = [0u8; 8];
    eight.copy_from_slice(&bytes[at..at + 8]);
    u64::from_be_bytes(eight)
}
