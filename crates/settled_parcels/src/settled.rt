ghost use Rattle.std.specs.Prelude.{◌≡◌, ◌<◌, ◌^◌, drop};
ghost use Rattle.lumber_client.specs.Exchange.{Exchange};
ghost use Rattle.lumber_client.specs.Standing.{StandsFor};
ghost use Rattle.settled_parcels.specs.Handing.{settled_in, with_all_handed};

use lumber_client::Window;

/// Hands out all parcels that are acknowledged. How many those are.
pub fn hand_out_settled(window: &mut Window) -> u64
    requires few { window.old.acknowledged < 2 ^ 64 }
    ensures count { result ≡ window.old.acknowledged }
    ensures parcels { window.new.parcels ≡ drop window.old.acknowledged window.old.parcels }
    ensures handed { (e : Exchange) → StandsFor window.old e →
        StandsFor window.new (with_all_handed e (settled_in window.old)) }
    ensures none_left { window.new.acknowledged ≡ 0 }
    ensures in_flight { window.new.in_flight ≡ window.old.in_flight }
    ensures out { window.new.out ≡ window.old.out }
    ensures hearing { window.new.hearing ≡ window.old.hearing }
    ensures most { window.new.most ≡ window.old.most }
    ensures depth { window.new.depth ≡ window.old.depth }
{
    let mut count = 0;
    'parcels: while let Some(_) = window.settled() {
        count += 1;
    }
    count
}
