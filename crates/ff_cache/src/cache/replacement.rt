// Hits, and the way that gives way.
ghost use Rattle.std.specs.Prelude.{◌≡◌, ◌<◌, ◌↔◌, IfNone, IfSome, IsNone, length, slice_set};
ghost use Rattle.ff_cache.specs.Cache.{values_at, values_of, with_value, IsChosen, SameSlots};
ghost use Rattle.ff_rrip.specs.Ways.{near_value, IsVictimWay, NoneAllowed};

use crate::Cache;
use ff_base::PageNo;
use ff_rrip::Ways;

fn hit_at(values: &mut Vec<Ways>, set: u32, way: u32)
    requires set { set < length values.old.items }
    requires way { way < length (values_at values.old.items set) }
    ensures { values.new.items ≡ slice_set values.old.items set
        (slice_set (values_at values.old.items set) way near_value) }
{
    values[set as usize].hit(way);
}

fn victim_at(values: &mut Vec<Ways>, set: u32, allowed: u32) -> Option<u32>
    requires { set < length values.old.items }
    ensures found { IfSome result
        (IsVictimWay allowed (values_at values.old.items set) (values_at values.new.items set)) }
    ensures none { IsNone result ↔ NoneAllowed (values_at values.old.items set) allowed }
    ensures kept { IfNone result (values.new.items ≡ values.old.items) }
    ensures others { values.new.items
        ≡ slice_set values.old.items set (values_at values.new.items set) }
    ensures ways { length (values_at values.new.items set)
        ≡ length (values_at values.old.items set) }
{
    values[set as usize].victim(allowed)
}

impl Cache {
    /// The slot's page was used again.
    pub fn hit(&mut self, slot: u32)
        requires { slot < length self.old.slots }
        ensures { self.new ≡ record self.old { values = with_value self.old slot near_value } }
    {
        hit_at(&mut self.values, slot / self.ways, slot % self.ways);
    }

    /// The slot of the page's set that gives way, of the ways whose bit is 1: way w is bit w.
    pub fn choose(&mut self, page: PageNo, allowed: u32) -> Option<u32>
        ensures same { SameSlots self.old self.new }
        ensures found { IfSome result (IsChosen allowed page.0 self.old self.new) }
        ensures none { IsNone result ↔ NoneAllowed (values_of self.old page.0) allowed }
        ensures kept { IfNone result (self.new.values ≡ self.old.values) }
    {
        let set = page.0 % self.sets;
        let way = victim_at(&mut self.values, set, allowed)?;
        Some(set * self.ways + way)
    }
}
