// How a page is flushed: it is programmed, and sealed by a later step.
ghost use Rattle.std.specs.Prelude.{◌≡◌, ◌≢◌, ◌<◌, ◌≤◌, true, length, IfOk, IfErr, if◌then◌else◌, None, Some, Ok, Err};
ghost use Rattle.ff_flash.specs.FlashState.{HasOperationsLeft};
ghost use Rattle.ff_flash.specs.Injected.{stop_of};
ghost use Rattle.ff_flash.specs.declared.flash.FlashStop.TheVariants.{Failed, Off};
ghost use Rattle.ff_space.specs.BlockTable.{block_at};
ghost use Rattle.ff_space.specs.declared.block.BlockState.TheVariants.{Erased, Open};
ghost use Rattle.ff_store.specs.Calls.{Flushes, IsCall, IsProgrammed, IsWritePlace, MatchSealed, ProgramsPage, SameBytes, SealsPage};
ghost use Rattle.ff_store.specs.Left.{left_of};
ghost use Rattle.ff_store.specs.Pages.{mapped_with, page_capacity};
ghost use Rattle.ff_store.specs.declared.store.FlushStep.TheVariants.{Collected, Programmed};

use crate::pending::Pending;
use crate::store::{FlushStep, PageStore};
use crate::writing::{WritePlace, drop_old, map_page, use_place, write_place};
use ff_base::{Block, PageBuf, PageNo};
use ff_flash::{Flash, FlashStop, Spare};
use ff_gc::OperationKind;

impl<F: Flash> PageStore<F> {
    pub(crate) fn flush(&mut self, page: PageNo, from: &PageBuf) -> Result<FlushStep, FlashStop>
        requires life { HasOperationsLeft self.old.world.flash }
        requires on { self.old.world.flash.on ≡ true }
        requires none { self.old.waits ≡ None }
        requires page { page.0 < length self.old.world.places.pages }
        requires room { mapped_with self.old.world.places page ≤ page_capacity self.old.world }
        ensures step { Flushes self.old page from.now result self.new }
        ensures call { IsCall self.old (stop_of result) self.new }
        ensures same { SameBytes self.old self.new }
        ensures programmed { result ≡ Ok Programmed → IsProgrammed self.new page from.now }
        ensures none { result ≢ Ok Programmed → self.new.waits ≡ None }
        ensures left { result ≡ Ok Collected → left_of self.new.world < left_of self.old.world }
    {
        self.known();
        self.program_or_collect(page, from)
    }

    fn program_or_collect(&mut self, page: PageNo, from: &PageBuf) -> Result<FlushStep, FlashStop>
        requires life { HasOperationsLeft self.old.world.flash }
        requires on { self.old.world.flash.on ≡ true }
        requires none { self.old.waits ≡ None }
        requires page { page.0 < length self.old.world.places.pages }
        requires room { mapped_with self.old.world.places page ≤ page_capacity self.old.world }
        ensures { Flushes self.old page from.now result self.new }
    {
        if self.owed {
            return self.collect_for_flush();
        }
        match write_place(&self.space, self.per_block) {
            Some(place) => self.program(page, from, place),
            None => self.collect_for_flush(),
        }
    }

    // Programs a page, with the next version.
    fn program(
        &mut self,
        page: PageNo,
        from: &PageBuf,
        place: WritePlace,
    ) -> Result<FlushStep, FlashStop>
        requires life { HasOperationsLeft self.old.world.flash }
        requires on { self.old.world.flash.on ≡ true }
        requires none { self.old.waits ≡ None }
        requires page { page.0 < length self.old.world.places.pages }
        requires room { mapped_with self.old.world.places page ≤ page_capacity self.old.world }
        requires place { IsWritePlace self.old.world.table place.block.0 place.at.0 }
        requires state { (block_at self.old.world.table place.block.0).state
            ≡ (if place.erased then Erased else Open) }
        ensures { ProgramsPage self.old page from.now result self.new }
    {
        self.known();
        let _bytes = from.as_slice();
        let version = self.places.draw_version();
        self.counts.begin(OperationKind::Program);
        match self.flash.program(place.at, from, Spare { page, version }) {
            Ok(()) => {
                use_place(&mut self.space, place);
                self.waits = Some(Pending {
                    page,
                    at: place.at,
                    version,
                });
                Ok(FlushStep::Programmed)
            }
            Err(FlashStop::Failed) => {
                use_place(&mut self.space, place);
                Err(FlashStop::Failed)
            }
            Err(FlashStop::Off) => Err(FlashStop::Off),
        }
    }

    pub(crate) fn end_flush(&mut self, pending: Pending) -> Result<FlushStep, FlashStop>
        requires life { HasOperationsLeft self.old.world.flash }
        requires on { self.old.world.flash.on ≡ true }
        requires waits { self.old.waits ≡ Some pending }
        ensures step { SealsPage self.old pending result self.new }
        ensures call { IsCall self.old (stop_of result) self.new }
        ensures placed { IfOk result (λ step. MatchSealed self.old step self.new) }
        ensures stopped { IfErr result (λ _. SameBytes self.old self.new) }
    {
        self.known();
        self.seal(pending)
    }

    fn seal(&mut self, pending: Pending) -> Result<FlushStep, FlashStop>
        requires life { HasOperationsLeft self.old.world.flash }
        requires on { self.old.world.flash.on ≡ true }
        requires waits { self.old.waits ≡ Some pending }
        ensures { SealsPage self.old pending result self.new }
    {
        self.counts.begin(OperationKind::Seal);
        match self.flash.seal(pending.at) {
            Ok(()) => {
                drop_old(&mut self.space, &self.places, self.per_block, pending.page);
                self.space.add_mapped(Block(pending.at.0 / self.per_block));
                map_page(&mut self.places, pending);
                self.waits = None;
                Ok(FlushStep::Sealed(pending.page))
            }
            Err(FlashStop::Failed) => {
                self.waits = None;
                Err(FlashStop::Failed)
            }
            Err(FlashStop::Off) => Err(FlashStop::Off),
        }
    }
}
