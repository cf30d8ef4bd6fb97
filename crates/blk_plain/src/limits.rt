//! The limits of an array and of all that is asked of it. Each is the most that there may be, the limit itself allowed.
//!
//! This is the one place of these numbers: code names them, contracts state them as numerals. Beside some stands the
//! word of raidctl(8) whose value it bounds; the others bound the memory and the time that one run may take.

/// The columns of an array, and so the units of a stripe: numCol of raidctl(8).
pub const COLUMNS: u32 = 32;

/// The spare disks of a configuration: numSpare of raidctl(8).
pub const SPARES: u32 = 8;

/// The sectors of a unit: sectPerSU of raidctl(8).
pub const UNIT_SECTORS: u32 = 128;

/// The stripes of an array.
pub const STRIPES: u32 = 1_048_576;

/// The stripes that one operation touches.
pub const TASK_STRIPES: u32 = 16;

/// The spans that one write has.
pub const SPANS: u32 = 8;

/// The touched parts of data units of one operation: one for each unit of each of its stripes, and one more for each of
/// its spans.
pub const TASK_PARTS: u32 = 520;

/// The nodes of an access graph (cause G14 of docs/GRAPHS.md).
pub const NODES: u32 = 2048;

/// The buffers of an access graph (cause G14), and the unit buffers that one operation leases.
pub const BUFFERS: u32 = 2048;

/// The returns of an access graph of a file (docs/FORMATS.md).
pub const RETURNS: u32 = 2048;

/// The sources and antecedents of an access graph together (cause G14).
pub const EDGES: u32 = 16_384;

/// The sources of one exclusive-or, each a buffer once.
pub const SOURCES: u32 = 2048;

/// The graphs of a file (docs/FORMATS.md).
pub const GRAPHS: u32 = 64;

/// The clients of a run. The array's own operations, the rebuilds, are those of one client more, whose number this is.
pub const CLIENTS: u32 = 16;

/// The workers of a run beside the caller's thread.
pub const WORKERS: u32 = 16;

/// The items of a script, those of all its clients together (docs/FORMATS.md).
pub const ITEMS: u32 = 65_536;

/// The sectors that all reads of a script together ask for (docs/FORMATS.md).
pub const READ_SECTORS: u32 = 262_144;

/// The items that a sweep draws for each client (docs/FORMATS.md).
pub const SWEEP_ITEMS: u32 = 2048;

/// The events of items that a trace has room for (docs/FORMATS.md).
pub const EVENTS: u32 = 1_048_576;

/// The bytes of a text: a configuration, a script or a file of graphs (docs/FORMATS.md).
pub const TEXT_BYTES: u32 = 16_777_216;
