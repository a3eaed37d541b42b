// The pages by their places: the look-up, and what is left of a page's old place.
ghost use Rattle.std.specs.Prelude.{◌≡◌, ◌<◌, length};
ghost use Rattle.std.specs.Option.{ForSome};
ghost use Rattle.ff_map.specs.Owners.{listed_owner, released};

use crate::places::Mapping;
use ff_base::{PageNo, Ppn};

/// The page that is at a place.
pub fn owner_at(owners: &[Option<PageNo>], at: Ppn) -> Option<PageNo>
    ensures { result ≡ listed_owner owners.now at }
{
    owners.get(at.0 as usize).copied().flatten()
}

/// Where a page was mapped, its old place is nobody's.
pub fn release(owners: &mut [Option<PageNo>], old: Option<Mapping>)
    requires { ForSome old (λ mapping. mapping.at.0 < length owners.old) }
    ensures { owners.new ≡ released old owners.old }
{
    if let Some(mapping) = old {
        owners[mapping.at.0 as usize] = None;
    }
}
