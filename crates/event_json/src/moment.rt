ghost use Rattle.std.specs.Prelude.{◌≡◌};
ghost use Rattle.wire_base.specs.Ranges.{IsMoment};
ghost use Rattle.event_json.specs.Moment.{moment_text};

use arrayvec::ArrayString;
use jiff::Timestamp;
use jiff::fmt::temporal::DateTimePrinter;
use std::marker::Model;
use wire_base::Moment;

/// `YYYY-MM-DDThh:mm:ss.mmmZ`, in UTC.
pub(crate) fn text_of_moment(moment: Moment) -> ArrayString<33>
    requires { IsMoment moment }
    ensures { result.bytes ≡ moment_text moment.0 }
{
    let Ok(timestamp) = Timestamp::from_millisecond(moment.0 as i64) else {
        unreachable!()
    };
    let printer = DateTimePrinter::new().precision(Some(3));
    printer.timestamp_text(timestamp.to_plain())
}

/// A moment whose text is made once. A contract sees its milliseconds.
#[derive(Drop)]
pub struct Stamp {
    moment: Moment,
    text: ArrayString<33>,
}

impl Model for Stamp {
    ghost use Rattle.std.specs.Prelude.{◌≡◌, ℕ};
    ghost use Rattle.wire_base.specs.Ranges.{IsMoment};
    ghost use Rattle.event_json.specs.Moment.{moment_text};

    ghost Value = { ℕ };

    ghost view = { λ s. s.moment.0 };

    ghost invariant = { λ s. IsMoment s.moment × (s.text.bytes ≡ moment_text s.moment.0) };
}

impl Stamp {
    /// Of a moment up to `MAX_MOMENT`.
    pub fn new(moment: Moment) -> Stamp
        requires { IsMoment moment }
        ensures { result ≡ moment.0 }
    {
        Stamp {
            moment,
            text: text_of_moment(moment),
        }
    }

    /// The stamp is of this moment; its text is made anew if it was of another one.
    pub fn set(&mut self, moment: Moment)
        requires { IsMoment moment }
        ensures { self.new ≡ moment.0 }
    {
        if self.moment != moment {
            *self = Stamp::new(moment);
        }
    }

    /// The moment itself.
    pub fn moment(&self) -> Moment
        ensures same { result.0 ≡ self.now }
        ensures in_range { IsMoment result }
    {
        self.moment
    }

    /// The text of the moment.
    pub(crate) fn text(&self) -> &str
        ensures { result.now ≡ moment_text self.now }
    {
        self.text.as_str()
    }
}
