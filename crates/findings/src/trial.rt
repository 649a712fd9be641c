use wire_base::{Host, Text};

/// A host that was tried.
#[derive(Debug, Drop)]
pub struct Trial {
    pub host: Host,
    /// Why no connection was made; `None` if one was.
    pub refusal: Option<Text>,
}
