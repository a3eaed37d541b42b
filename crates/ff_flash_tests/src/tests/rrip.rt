// Values and victims of sets of four ways, and of the most ways.
ghost use Rattle.std.specs.Prelude.{◌≡◌, length};

use ff_rrip::Ways;
use std::test::Fail;

fn four_values(ways: &Ways) -> [u8; 4]
    requires { length ways.now ≡ 4 }
{
    [ways.value(0), ways.value(1), ways.value(2), ways.value(3)]
}

#[test]
fn the_way_that_was_not_hit_gives_way(rt: HostRuntime) -> Result<(), Fail> {
    let mut ways = Ways::new(rt.alloc(), 4)?;
    ways.insert(0);
    ways.insert(1);
    ways.insert(2);
    ways.hit(0);
    assert_eq!(rt; ways.victim(0xFFFF_FFF7), Some(1));
    assert_eq!(rt; four_values(&ways), [1, 3, 3, 3]);
    assert_eq!(rt; ways.victim(0xFFFF_FFF0), None);
    Ok(())
}

#[test]
fn all_of_the_most_ways(rt: HostRuntime) -> Result<(), Fail> {
    let mut ways = Ways::new(rt.alloc(), 32)?;
    assert_eq!(rt; ways.victim(0xFFFF_FFFF), Some(0));
    ways.hit(31);
    assert_eq!(rt; ways.victim(0x8000_0000), Some(31));
    Ok(())
}
