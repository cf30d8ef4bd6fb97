//! A job, with what it takes along.
use buf_pool::Buffer;

/// A source of an exclusive-or. A buffer that is named more than once is one source.
#[derive(Drop)]
pub struct Source {
    /// The buffer's number in its operation, by which it is put back.
    pub at: u32,
    /// Whether it counts: it is named an odd number of times. Pairs cancel out.
    pub counts: bool,
    /// The buffer.
    pub buffer: Buffer,
}

/// What is to be done, on so many sectors at the front of the job's buffers.
#[derive(Drop)]
pub enum Work<D> {
    /// Nothing: the commit and the terminator make no call.
    Nothing,
    /// Reads from sector `first` of the device on into the buffer.
    Read {
        disk: D,
        first: u64,
        buffer: Buffer,
        count: u32,
    },
    /// Writes the buffer from sector `first` of the device on.
    Write {
        disk: D,
        first: u64,
        buffer: Buffer,
        count: u32,
    },
    /// Makes the target the exclusive-or of the job's sources that count.
    Sum {
        to: Buffer,
        count: u32,
    },
}

/// A node that was fired, with what it works on.
///
/// Its device and its buffers are in the job alone until it is brought back.
#[derive(Drop)]
pub struct Job<D> {
    /// The client whose operation it is a node of.
    pub client: u32,
    /// The node's number in its graph.
    pub node: u32,
    /// What is to be done.
    pub work: Work<D>,
    /// The sources of an exclusive-or. Each job takes such a list along, most of them an empty one.
    pub sources: Vec<Source>,
}
