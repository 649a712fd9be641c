/// What one more line does to the lines of an event that has not ended.
#[derive(Clone, Copy, Debug, PartialEq, Eq)]
pub enum Step {
    /// It is one of them, and the event goes on.
    Join,
    /// It is the event's last line.
    Last,
    /// The event has ended before it, and it is the first line of the next one.
    Next,
}
