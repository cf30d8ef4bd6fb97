//! Operations on blocks, and how a part of one may end.
ghost use Rattle.std.specs.Prelude.{◌≡◌, ◌<◌, ◌≤◌, ◌%◌, drop, nat_eq, IsTrue};
ghost use Rattle.std.specs.List.{list_all};

/// The bytes of a sector. A block is one sector.
pub const SECTOR: usize = 512;

/// Blocks in a row.
#[derive(Clone, Copy, Debug, PartialEq, Eq)]
pub struct Span {
    /// The first block.
    pub first: u64,
    /// How many blocks.
    pub count: u32,
}

/// The bytes that a write repeats: byte i of what is written is `bytes[i % len]`, in each block from 0 on.
#[derive(Clone, Copy, Debug, PartialEq, Eq)]
pub struct Pattern {
    /// How many bytes are repeated: 1, 2, 4, 8, 16 or 32, the divisors of a sector up to 32.
    pub len: u8,
    /// The repeated bytes, and zeros behind them.
    pub bytes: [u8; 32],
    pub ghost some: { 0 < len },
    pub ghost few: { len ≤ 32 },
    pub ghost whole: { 512 % len ≡ 0 },
    pub ghost rest: { IsTrue (list_all (λ b. nat_eq b 0) (drop len bytes)) },
}

/// A span of blocks, and what is written over each of them.
#[derive(Clone, Copy, Debug, PartialEq, Eq)]
pub struct Patch {
    /// The blocks.
    pub span: Span,
    /// The bytes that are repeated in each of them.
    pub pattern: Pattern,
}

/// Up to eight patches. Those in use stand first, in any order.
#[derive(Clone, Copy, Debug, PartialEq, Eq)]
pub struct Patches {
    /// How many are in use.
    pub used: u8,
    /// The patches. What stands past those in use counts for nothing.
    pub list: [Patch; 8],
}

/// An operation on an array, as the list of its blocks sees it.
#[derive(Clone, Copy, Debug, PartialEq, Eq)]
pub enum Op {
    /// Each block of the span takes the sector that the pattern fills, all at once.
    Write { span: Span, pattern: Pattern },
    /// Each block of each span takes the sector that this span's pattern fills, all at once.
    Writes { patches: Patches },
    /// The blocks of the span are replied. It changes no block.
    Read { span: Span },
    /// A missing unit of the stripe is made again. It changes no block.
    Rebuild { stripe: u32 },
    /// The check unit of the stripe is made from its data units. It changes no block.
    Sync { stripe: u32 },
}

/// An operation of a client, by its place among that client's operations, from 0.
#[derive(Clone, Copy, Debug, PartialEq, Eq)]
pub struct OpId {
    /// The client.
    pub client: u32,
    /// The place.
    pub index: u32,
}

/// How a node of an operation's graph ended: a call of a device is Bad where the device refused it.
#[derive(Clone, Copy, Debug, PartialEq, Eq)]
pub enum Outcome {
    Good,
    Bad,
}
