// Pages, places, blocks, callers and sizes.
/// A logical page, from 0. Its first byte has the address `4096 * page`.
#[derive(Clone, Copy, Debug, PartialEq, Eq)]
pub struct PageNo(pub u32);

/// A physical page of the flash, from 0. It lies in the block `place / per_block`.
#[derive(Clone, Copy, Debug, PartialEq, Eq)]
pub struct Ppn(pub u32);

/// A block of the flash, from 0.
#[derive(Clone, Copy, Debug, PartialEq, Eq)]
pub struct Block(pub u32);

/// Whose call it is: a thread of the simulated program, from 0.
#[derive(Clone, Copy, Debug, PartialEq, Eq)]
pub struct Caller(pub u16);

/// The bytes of a line, the unit of an access.
pub const LINE_BYTES: usize = 64;

/// The lines of a page.
pub const PAGE_LINES: usize = 64;

/// The bytes of a page, the unit of the flash and of promotion.
pub const PAGE_BYTES: usize = 4096;

/// The event number at which a session is spent: a call that comes then makes no event.
pub const LAST_EVENT: u64 = 1 << 62;
