// What calls come to.
use ff_base::PageNo;
use ff_model::Reply;

/// What one event of a call came to.
#[derive(Debug, Drop, PartialEq, Eq)]
pub enum Turn {
    Served(Reply),
    /// The page isn't resident, or isn't home for a mark: one step was made towards it.
    Miss(PageNo),
    /// The power is off.
    Off,
}

/// What a call came to.
#[derive(Debug, Drop, PartialEq, Eq)]
pub enum Driven {
    Served(Reply),
    /// The power is off.
    Off,
}
