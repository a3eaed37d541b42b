// One block of the table: its state, its write place and its mapped pages, and what a call makes of them.
ghost use Rattle.std.specs.Prelude.{ℕ, ◌≡◌, ◌≢◌, ◌+◌, ◌<◌, ◌≤◌, if◌then◌else◌};
ghost use Rattle.ff_space.specs.Blocks.{CanAdvance, IsBlockSound, advanced, after_hold, block_placed, emptied, filled, is_collectable, is_erased, mapped_less, mapped_more, raised_state, state_by_next, taken_block, erased_block, waiting};
ghost use Rattle.ff_space.specs.declared.block.BlockState.TheVariants.{Erased, Held, Waiting};

/// What a block of the flash is used for.
#[derive(Clone, Copy, PartialEq, Eq)]
pub enum BlockState {
    /// Every page is erased.
    Erased,
    /// Pages are programmed into it, from its write place on.
    Open,
    /// Every page is programmed.
    Full,
    /// It is the destination of a running collection.
    Held,
    /// It is to be erased.
    Waiting,
}

/// A block of the flash.
#[derive(Clone, Copy)]
pub struct BlockEntry {
    pub state: BlockState,
    /// Its write place, the page to be programmed next, counted in pages from the block's first.
    pub next: u32,
    /// Pages that hold the present bytes of a logical page.
    pub mapped: u32,
}

impl BlockState {
    // How many erased blocks a block in this state counts as.
    pub(crate) fn erased(self) -> u32
        ensures { result ≡ (if is_erased self then 1 else 0) }
    {
        match self {
            BlockState::Erased => 1,
            _ => 0,
        }
    }

    fn by_next(per_block: u32, next: u32) -> BlockState
        ensures { result ≡ state_by_next per_block next }
    {
        if next == 0 {
            BlockState::Erased
        } else if next == per_block {
            BlockState::Full
        } else {
            BlockState::Open
        }
    }

    fn raised(self, per_block: u32, next: u32) -> BlockState
        ensures { result ≡ raised_state per_block self next }
    {
        match self {
            BlockState::Open if next == per_block => BlockState::Full,
            state => state,
        }
    }
}

impl BlockEntry {
    // How many blocks that can be collected it counts as.
    pub(crate) fn collectable(self, per_block: u32) -> u32
        ensures { result ≡ (if is_collectable per_block self then 1 else 0) }
    {
        match self.state {
            BlockState::Full if self.mapped < per_block => 1,
            _ => 0,
        }
    }

    pub(crate) fn erased() -> BlockEntry
        ensures { result ≡ erased_block }
    {
        BlockEntry {
            state: BlockState::Erased,
            next: 0,
            mapped: 0,
        }
    }

    pub(crate) fn taken(per_block: u32) -> BlockEntry
        requires { 0 < per_block }
        ensures block { result ≡ taken_block }
        ensures sound { IsBlockSound per_block result }
    {
        BlockEntry {
            state: BlockState::Open,
            next: 0,
            mapped: 0,
        }
    }

    pub(crate) fn placed(per_block: u32, next: u32) -> BlockEntry
        requires { next ≤ per_block }
        ensures block { result ≡ block_placed per_block next }
        ensures sound { IsBlockSound per_block result }
    {
        BlockEntry {
            state: BlockState::by_next(per_block, next),
            next,
            mapped: 0,
        }
    }

    pub(crate) fn advanced(self, per_block: u32) -> BlockEntry
        requires sound { IsBlockSound per_block self }
        requires can { CanAdvance per_block self }
        ensures block { result ≡ advanced per_block self }
        ensures sound { IsBlockSound per_block result }
    {
        let next = self.next + 1;
        BlockEntry {
            state: self.state.raised(per_block, next),
            next,
            mapped: self.mapped,
        }
    }

    pub(crate) fn after_hold(self, per_block: u32, on: bool) -> BlockEntry
        requires sound { IsBlockSound per_block self }
        requires state { self.state ≡ (if on then Erased else Held) }
        ensures block { result ≡ after_hold per_block on self }
        ensures sound { IsBlockSound per_block result }
    {
        let state = if on {
            BlockState::Held
        } else {
            BlockState::by_next(per_block, self.next)
        };
        BlockEntry { state, ..self }
    }

    pub(crate) fn mapped_more(self) -> BlockEntry
        requires used { self.state ≢ Waiting }
        requires room { self.mapped < self.next }
        ensures block { result ≡ mapped_more self }
        ensures sound { (per_block : ℕ) →
            IsBlockSound per_block self → IsBlockSound per_block result }
    {
        BlockEntry {
            mapped: self.mapped + 1,
            ..self
        }
    }

    pub(crate) fn mapped_less(self) -> BlockEntry
        requires { 0 < self.mapped }
        ensures block { result ≡ mapped_less self }
        ensures sound { (per_block : ℕ) →
            IsBlockSound per_block self → IsBlockSound per_block result }
    {
        BlockEntry {
            mapped: self.mapped - 1,
            ..self
        }
    }

    pub(crate) fn filled(self, per_block: u32, more: u32) -> BlockEntry
        requires sound { IsBlockSound per_block self }
        requires room { self.mapped + more ≤ self.next }
        ensures block { result ≡ filled per_block more self }
        ensures sound { IsBlockSound per_block result }
    {
        BlockEntry {
            state: BlockState::by_next(per_block, self.next),
            mapped: self.mapped + more,
            ..self
        }
    }

    pub(crate) fn emptied(self) -> BlockEntry
        ensures block { result ≡ emptied self }
        ensures sound { (per_block : ℕ) →
            IsBlockSound per_block self → IsBlockSound per_block result }
    {
        BlockEntry {
            state: BlockState::Waiting,
            mapped: 0,
            ..self
        }
    }

    pub(crate) fn waiting(self) -> BlockEntry
        requires { self.mapped ≡ 0 }
        ensures block { result ≡ waiting self }
        ensures sound { (per_block : ℕ) →
            IsBlockSound per_block self → IsBlockSound per_block result }
    {
        BlockEntry {
            state: BlockState::Waiting,
            ..self
        }
    }
}
