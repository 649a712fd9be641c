/// The state of a file.
#[derive(Clone, Copy, Debug, PartialEq, Eq)]
pub(crate) enum Stage {
    /// It is read on.
    Reading,
    /// Its length was below what was read, and its key was not known yet.
    Asking,
    /// Its end was found, and it is read no further.
    Ended,
    /// It has another key.
    Changed,
    /// The last epoch is over.
    Over,
}
