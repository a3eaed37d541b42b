// Where a session goes on in the rows of a trace, and how it stops there.

/// A row, and how many of its turns were made.
#[derive(Clone, Copy)]
pub struct Cursor {
    pub row: usize,
    pub made: u32,
}

/// How the rows of a session stop.
#[derive(Clone, Copy)]
pub enum Stop {
    /// The call or turn at this cursor was cut.
    Cut(Cursor),
    /// The row is one of power, at which so many posts arrive.
    Power { row: usize, arrive: u32 },
    /// The rows are over.
    End,
}
