// Probes of all places.
ghost use Rattle.std.specs.Prelude.{◌≡◌, ◌+◌, ◌<◌, ◌≤◌, ◌^◌, ◌++◌, [], ◌∷◌, true, false, length, IfOk, IfSome, vec_len, vec_capacity};
ghost use Rattle.ff_flash.specs.Cells.{cell_at, cell_probe};
ghost use Rattle.ff_flash.specs.FlashState.{HasOperationsLeft};
ghost use Rattle.ff_flash.specs.Injected.{stop_of};
ghost use Rattle.ff_scan.specs.Probes.{probes_of};
ghost use Rattle.ff_scan.specs.Probing.{IsProbed, first_stop};

use ff_base::Ppn;
use ff_flash::{Flash, FlashStop, Probe};

// Probes each place once, in rising order, up to the first probe that stops.
pub fn probe_all<F: Flash>(
    flash: &mut F,
    places: u32,
    probes: &mut Vec<Probe>,
) -> Result<(), FlashStop>
    requires on { (F.state flash.old).on ≡ true }
    requires uncut { (F.state flash.old).cut ≡ false }
    requires places { length (F.state flash.old).cells ≡ places }
    requires life { (F.state flash.old).operations + places ≤ 2 ^ 63 }
    requires none { probes.old.items ≡ [] }
    requires room { places ≤ vec_capacity probes.old }
    ensures probes { IfOk result (λ _. probes.new.items ≡ probes_of (F.state flash.old).cells) }
    ensures room { places ≤ vec_capacity probes.new }
    ensures flash { IsProbed (F.state flash.old) places (stop_of result) (F.state flash.new) }
    ensures planned { IfSome (F.state flash.old).plan
        (λ plan. stop_of result ≡ first_stop plan (F.state flash.old).operations places) }
{
    for place in 0..places {
        match probe_one(flash, place, probes) {
            Ok(()) => {}
            Err(stop) => return Err(stop),
        }
    }
    Ok(())
}

fn probe_one<F: Flash>(flash: &mut F, place: u32, probes: &mut Vec<Probe>) -> Result<(), FlashStop>
    requires on { (F.state flash.old).on ≡ true }
    requires uncut { (F.state flash.old).cut ≡ false }
    requires place { place < length (F.state flash.old).cells }
    requires life { HasOperationsLeft (F.state flash.old) }
    requires room { vec_len probes.old < vec_capacity probes.old }
    ensures probes { IfOk result (λ _. probes.new.items
        ≡ probes.old.items ++ cell_probe (cell_at (F.state flash.old).cells place) ∷ []) }
    ensures room { vec_capacity probes.old ≤ vec_capacity probes.new }
    ensures flash { IsProbed (F.state flash.old) 1 (stop_of result) (F.state flash.new) }
    ensures planned { IfSome (F.state flash.old).plan
        (λ plan. stop_of result ≡ first_stop plan (F.state flash.old).operations 1) }
{
    match flash.probe(Ppn(place)) {
        Ok(probe) => {
            note_probe(probes, probe);
            Ok(())
        }
        Err(stop) => Err(stop),
    }
}

fn note_probe(probes: &mut Vec<Probe>, probe: Probe)
    requires { vec_len probes.old < vec_capacity probes.old }
    ensures probes { probes.new.items ≡ probes.old.items ++ probe ∷ [] }
    ensures room { vec_capacity probes.old ≤ vec_capacity probes.new }
{
    match probes.push(probe) {
        Ok(()) => {}
        Err(_) => unreachable!(),
    }
}
