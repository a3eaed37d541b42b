// What is done to the slot of a page that is cached.
ghost use Rattle.std.specs.Prelude.{◌≡◌, ◌<◌, IsSome, IfNone, MatchOption, length, if◌then◌else◌};
ghost use Rattle.ff_cache.specs.Cache.{values_of, with_value, IsChosen};
ghost use Rattle.ff_cache.specs.Slots.{held, slot_flushed, slot_flushing, slot_pinned};
ghost use Rattle.ff_device.specs.Changes.{slot_after, Changes};
ghost use Rattle.ff_lines.specs.Posts.{IsPost};
ghost use Rattle.ff_rrip.specs.Ways.{near_value, NoneAllowed};

use ff_base::PageNo;
use ff_cache::Cache;
use ff_lines::Post;

pub fn lay(cache: &mut Cache, post: &Post)
    requires held { IsSome (held cache.old.slots post.now.page.0) }
    requires post { IsPost post.now }
    ensures { Changes post.now.page.0 (slot_after post.now) cache.old cache.new }
{
    match cache.find(post.page) {
        Some(slot) => cache.write(slot, post.line, post.from, &post.bytes),
        None => unreachable!(),
    }
}

pub fn begin_flush(cache: &mut Cache, page: PageNo)
    requires { IsSome (held cache.old.slots page.0) }
    ensures { Changes page.0 slot_flushing cache.old cache.new }
{
    match cache.find(page) {
        Some(slot) => cache.begin_flush(slot),
        None => unreachable!(),
    }
}

pub fn end_flush(cache: &mut Cache, page: PageNo)
    requires { IsSome (held cache.old.slots page.0) }
    ensures { Changes page.0 slot_flushed cache.old cache.new }
{
    match cache.find(page) {
        Some(slot) => cache.end_flush(slot),
        None => unreachable!(),
    }
}

pub fn set_pin(cache: &mut Cache, page: PageNo, on: bool)
    requires { IsSome (held cache.old.slots page.0) }
    ensures { Changes page.0 (slot_pinned on) cache.old cache.new }
{
    match cache.find(page) {
        Some(slot) => cache.pin(slot, on),
        None => unreachable!(),
    }
}

// Where it is a hit, the slot's page was used again.
pub fn use_again(cache: &mut Cache, slot: u32, hit: bool)
    requires { slot < length cache.old.slots }
    ensures { cache.new ≡ record cache.old {
      values = (if hit then with_value cache.old slot near_value else cache.old.values);
    } }
{
    if hit {
        cache.hit(slot);
    }
}

// The slot of the page's set that gives way, of the ways whose bit is 1.
#[tactic(auto, using(crate::proofs::Choices::same_but_values, crate::proofs::Choices::same_cache))]
pub fn choose_way(cache: &mut Cache, page: PageNo, allowed: u32) -> Option<u32>
    ensures told { MatchOption result
        ((cache.new ≡ cache.old) × NoneAllowed (values_of cache.old page.0) allowed)
        (IsChosen allowed page.0 cache.old cache.new) }
    ensures same { cache.new ≡ record cache.old { values = cache.new.values } }
    ensures kept { IfNone result (cache.new ≡ cache.old) }
{
    match cache.choose(page, allowed) {
        Some(slot) => Some(slot),
        None => None,
    }
}
