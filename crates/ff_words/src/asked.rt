// What words ask for, and why they are refused.

/// What the words ask for.
#[derive(Clone, Copy, Debug, PartialEq, Eq)]
pub enum Command {
    /// Run the input, row by row.
    Schedule,
    /// Run the input on threads.
    Threads,
    /// Run the rows that the number makes.
    Load(u32),
}

/// Why words are refused.
#[derive(Clone, Copy, Debug, PartialEq, Eq)]
pub enum BadWords {
    NoMemory,
    /// The words are none that the program takes.
    Usage,
}
