// What accesses and turns come to.
use ff_base::PageNo;
use ff_model::Reply;

/// Which side served an access.
#[derive(Clone, Copy, Debug, PartialEq, Eq)]
pub enum Side {
    /// The device.
    Device,
    /// A frame of the host memory.
    Host,
    /// None: the call was refused, or names no bytes.
    Neither,
}

/// What became of a call.
#[derive(Debug, Drop, PartialEq, Eq)]
pub enum Access {
    Served(Reply, Side),
    /// The page is to be made resident first, or to come home. Nothing was done.
    Miss(PageNo),
}

/// What a turn did.
#[derive(Clone, Copy, Debug, PartialEq, Eq)]
pub enum What {
    /// A page in flight came to its new home.
    Finished,
    /// A line that was under way is copied.
    Landed,
    /// A line that was under way was stored to meanwhile.
    Dropped,
    /// A line is under way.
    Lifted,
    /// A page's copy began.
    Started,
    /// A step was made towards a page's being resident.
    Worked,
    /// A posted store was drained.
    Drained,
    /// A programmed flash page was sealed.
    Sealed,
    /// A step of a collection was made.
    Collected,
}
