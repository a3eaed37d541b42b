// The passes over the values of a set: the oldest way, and raising the allowed ones.
ghost use Rattle.std.specs.Prelude.{◌↔◌, IsNone, ◌≡◌, ◌<◌, ◌≤◌, ◌+◌, length, IfSome, IfNone};
ghost use Rattle.ff_rrip.specs.Oldest.{IsOldestBelow};
ghost use Rattle.ff_rrip.specs.Ways.{IsVictimWay, IsWaysSound, NoneAllowed, distant_value, is_allowed, raised, raised_value};

/// The greatest value: the way is expected last.
pub const DISTANT: u8 = 3;

/// The value of a way that was filled.
pub const LONG: u8 = 2;

/// The least value: the way is expected next.
pub const NEAR: u8 = 0;

fn is_allowed(allowed: u32, way: usize) -> bool
    requires { way < 32 }
    ensures { result ≡ is_allowed allowed way }
{
    allowed >> way & 1 == 1
}

// The older one of the oldest way so far and the next way.
fn older(values: &[u8], allowed: u32, found: Option<usize>, way: usize) -> Option<usize>
    requires in_range { way < length values.now }
    requires few { length values.now ≤ 32 }
    requires so_far { IsOldestBelow values.now allowed way found }
    ensures { IsOldestBelow values.now allowed (way + 1) result }
{
    if !is_allowed(allowed, way) {
        return found;
    }
    match found {
        Some(first) if values[way] <= values[first] => Some(first),
        _ => Some(way),
    }
}

// The least of the allowed ways that have the greatest value of them.
fn oldest(values: &[u8], allowed: u32) -> Option<usize>
    requires { length values.now ≤ 32 }
    ensures { IsOldestBelow values.now allowed (length values.now) result }
{
    let mut found = None;
    for way in 0..values.len() {
        found = older(values, allowed, found, way);
    }
    found
}

fn raised_value(value: u8, allowed: u32, way: usize, by: u8) -> u8
    requires few { way < 32 }
    requires room { value + by < 256 }
    ensures { result ≡ raised_value allowed by way value }
{
    if is_allowed(allowed, way) {
        value + by
    } else {
        value
    }
}

fn raise(values: &mut [u8], allowed: u32, by: u8)
    requires values { IsWaysSound values.old }
    requires by { by ≤ distant_value }
    ensures { values.new ≡ raised allowed by values.old }
{
    for (way, value) in values.iter_mut().enumerate() {
        *value = raised_value(*value, allowed, way, by);
    }
}

/// Raises the allowed ways until one has the greatest value, and answers the least that has it.
pub fn victim(values: &mut [u8], allowed: u32) -> Option<u32>
    requires { IsWaysSound values.old }
    ensures found { IfSome result (IsVictimWay allowed values.old values.new) }
    ensures none { IsNone result ↔ NoneAllowed values.old allowed }
    ensures same { IfNone result (values.new ≡ values.old) }
    ensures kept { IsWaysSound values.new }
{
    let way = oldest(values, allowed)?;
    let by = DISTANT - values[way];
    raise(values, allowed, by);
    Some(way as u32)
}
