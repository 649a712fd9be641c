ghost use Rattle.std.specs.Prelude.{◌≡◌, ◌≤◌, [], false, length, is_some};
ghost use Rattle.lumber_client.specs.Exchange.{Exchange};
ghost use Rattle.lumber_client.specs.Newly.{KeepsParcels};
ghost use Rattle.lumber_client.specs.Standing.{StandsFor};
ghost use Rattle.batch_worker.specs.Feeding.{Feeds};

use lumber_client::{Heard, Window};

/// Gives the window these bytes of its peer, one by one, up to the first that makes a fault; the place
/// of that byte.
pub(crate) fn feed(window: &mut Window, bytes: &[u8]) -> Option<u64>
    requires all_is_out { window.old.out ≡ [] }
    requires no_fault { window.old.hearing.failed ≡ false }
    ensures kept { KeepsParcels window.old window.new }
    ensures no_more_in_flight { length window.new.flights ≤ length window.old.flights }
    ensures no_fewer_acknowledged { window.old.acknowledged ≤ window.new.acknowledged }
    ensures failed { window.new.hearing.failed ≡ is_some result }
    ensures fed { (e : Exchange) → StandsFor window.old e → Feeds window.new e bytes.now result }
{
    for &byte in bytes {
        if let Heard::PeerFault { at } = window.got(byte) {
            return Some(at);
        }
    }
    None
}
