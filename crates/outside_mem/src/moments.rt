ghost use Rattle.std.specs.Prelude.{◌≡◌};
ghost use Rattle.outside_mem.specs.Moments.{moment_of};

use wire_base::{Moment, Text};

/// The moment of change that later listings show for a path.
#[derive(Drop)]
pub(crate) struct ToldMoment {
    pub(crate) path: Text,
    pub(crate) moment: Moment,
}

/// The moment that was set last for a path, 0 if none was.
pub(crate) fn moment_of(told: &[ToldMoment], path: &Text) -> Moment
    ensures { result ≡ moment_of told.now path.now }
{
    let mut moment = Moment(0);
    for one in told {
        if one.path.bytes() == path.bytes() {
            moment = one.moment;
        }
    }
    moment
}
