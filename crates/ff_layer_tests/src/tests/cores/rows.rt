// Scripts of calls and turns, with what they come to.
use crate::tests::plans::{Fault, USUAL};
use ff_base::Geometry;
use ff_model::{Counts, Kind};

/// A call, or turns with how many of them did something.
pub enum Step {
    /// A load with the bytes that it gives.
    Load(u32, &'static [u8]),
    /// A store that is done, or not done for want of a place or by a fault.
    Store(u32, &'static [u8]),
    Full(u32, &'static [u8]),
    Fault(u32, &'static [u8]),
    Mark(u32),
    Turns(Kind, u32, u32),
}

pub struct Row {
    pub geometry: Geometry,
    pub fault: Fault,
    pub steps: &'static [Step],
    pub counts: Counts,
}

const NONE: Counts = Counts {
    device: 0,
    host: 0,
    landed: 0,
    dropped: 0,
    promoted: 0,
    retreated: 0,
    reads: 0,
    programs: 0,
    seals: 0,
    erases: 0,
    faults: 0,
};

const READ_PAGE_0: Step = Step::Load(0, &[0]);

const ELEVENS: [u8; 64] = [0x11; 64];

const TWENTY_TWOS: [u8; 64] = [0x22; 64];

/// A waiting post that is seen; a store to a line under way; a carried line; a page that leaves; a mark of a page in
/// flight; as many born pages as may be; a flush that collects; a collection by turns; a failed program; and a counter
/// that comes to its threshold.
pub static ROWS: [Row; 10] = [
    Row {
        geometry: USUAL,
        fault: Fault::Nothing,
        steps: &[Step::Store(0, &[0xaa]), Step::Load(0, &[0xaa])],
        counts: Counts { device: 2, ..NONE },
    },
    Row {
        geometry: USUAL,
        fault: Fault::Nothing,
        steps: &[
            READ_PAGE_0,
            READ_PAGE_0,
            READ_PAGE_0,
            READ_PAGE_0,
            Step::Turns(Kind::Promote, 12, 12),
            Step::Store(320, &ELEVENS),
            Step::Turns(Kind::Promote, 1, 1),
            Step::Load(320, &[0x11, 0x11]),
        ],
        counts: Counts {
            device: 4,
            host: 2,
            landed: 5,
            dropped: 1,
            promoted: 1,
            ..NONE
        },
    },
    Row {
        geometry: USUAL,
        fault: Fault::Nothing,
        steps: &[
            Step::Store(576, &TWENTY_TWOS),
            READ_PAGE_0,
            READ_PAGE_0,
            READ_PAGE_0,
            Step::Turns(Kind::Promote, 12, 12),
            Step::Store(577, &[0x33]),
            Step::Load(576, &[0x22, 0x33, 0x22, 0x22]),
        ],
        counts: Counts {
            device: 4,
            host: 2,
            landed: 5,
            promoted: 1,
            ..NONE
        },
    },
    Row {
        geometry: Geometry { frames: 1, ..USUAL },
        fault: Fault::Nothing,
        steps: &[
            READ_PAGE_0,
            READ_PAGE_0,
            READ_PAGE_0,
            READ_PAGE_0,
            Step::Turns(Kind::Promote, 130, 130),
            Step::Store(0, &[0xaa]),
            Step::Turns(Kind::Evict, 2, 2),
            Step::Store(0, &[0xbb]),
            Step::Turns(Kind::Evict, 3, 3),
            Step::Load(0, &[0xbb]),
        ],
        counts: Counts {
            device: 5,
            host: 2,
            landed: 65,
            promoted: 1,
            retreated: 1,
            ..NONE
        },
    },
    Row {
        geometry: USUAL,
        fault: Fault::Nothing,
        steps: &[
            READ_PAGE_0,
            READ_PAGE_0,
            READ_PAGE_0,
            READ_PAGE_0,
            Step::Turns(Kind::Promote, 12, 12),
            Step::Store(0, &[0xaa]),
            Step::Store(576, &[0xbb]),
            Step::Mark(0),
            Step::Load(0, &[0xaa]),
            Step::Load(576, &[0xbb]),
        ],
        counts: Counts {
            device: 6,
            host: 2,
            landed: 7,
            promoted: 1,
            retreated: 1,
            ..NONE
        },
    },
    Row {
        geometry: Geometry {
            blocks: 3,
            per_block: 2,
            ..USUAL
        },
        fault: Fault::Nothing,
        steps: &[
            Step::Store(0, &[0xa0]),
            Step::Store(4096, &[0xa1]),
            Step::Store(8192, &[0xa2]),
            Step::Full(12288, &[0xa3]),
            Step::Store(1, &[0xb0]),
        ],
        counts: Counts { device: 4, ..NONE },
    },
    Row {
        geometry: Geometry {
            blocks: 4,
            per_block: 2,
            ways: 1,
            ..USUAL
        },
        fault: Fault::Nothing,
        steps: &[
            Step::Store(0, &[0xa0]),
            Step::Store(4096, &[0xa1]),
            Step::Store(8192, &[0xa2]),
            Step::Store(12288, &[0xa3]),
            Step::Store(16384, &[0xa4]),
            Step::Store(0, &[0xb0]),
            Step::Store(4096, &[0xb1]),
            Step::Store(8192, &[0xb2]),
            Step::Load(8192, &[0xb2]),
        ],
        counts: Counts {
            device: 9,
            reads: 4,
            programs: 8,
            seals: 8,
            erases: 1,
            ..NONE
        },
    },
    Row {
        geometry: Geometry {
            blocks: 6,
            per_block: 2,
            ways: 1,
            low: 8,
            ..USUAL
        },
        fault: Fault::Nothing,
        steps: &[
            Step::Store(0, &[0xa0]),
            Step::Store(4096, &[0xa1]),
            Step::Store(8192, &[0xa2]),
            Step::Store(12288, &[0xa3]),
            Step::Store(16384, &[0xa4]),
            Step::Store(0, &[0xb0]),
            Step::Store(4096, &[0xb1]),
            Step::Turns(Kind::Collect, 3, 3),
            Step::Store(8192, &[0xb2]),
            Step::Turns(Kind::Collect, 2, 2),
            Step::Load(4096, &[0xb1]),
        ],
        counts: Counts {
            device: 9,
            reads: 5,
            programs: 9,
            seals: 9,
            erases: 1,
            ..NONE
        },
    },
    Row {
        geometry: Geometry { ways: 1, ..USUAL },
        fault: Fault::Fail(0),
        steps: &[
            Step::Store(0, &[0xaa]),
            Step::Fault(4096, &[0xbb]),
            Step::Store(4096, &[0xbb]),
        ],
        counts: Counts {
            device: 2,
            programs: 2,
            seals: 1,
            faults: 1,
            ..NONE
        },
    },
    Row {
        geometry: USUAL,
        fault: Fault::Nothing,
        steps: &[
            READ_PAGE_0,
            READ_PAGE_0,
            READ_PAGE_0,
            Step::Turns(Kind::Promote, 1, 0),
            READ_PAGE_0,
            Step::Turns(Kind::Promote, 1, 1),
        ],
        counts: Counts {
            device: 4,
            promoted: 1,
            ..NONE
        },
    },
];

/// A mark and two stores to one line, with a verify between them or not; how many of the waiting posts arrive; and how many
/// entries are kept, with the first two bytes that are left.
pub struct Loss {
    pub verified: bool,
    pub arrive: u32,
    pub left: (u32, u8, u8),
}

pub static LOSSES: [Loss; 4] = [
    Loss {
        verified: false,
        arrive: 1,
        left: (2, 0xaa, 0),
    },
    Loss {
        verified: false,
        arrive: 0,
        left: (1, 0, 0),
    },
    Loss {
        verified: false,
        arrive: 5,
        left: (3, 0xaa, 0xbb),
    },
    Loss {
        verified: true,
        arrive: 0,
        left: (3, 0xaa, 0),
    },
];
