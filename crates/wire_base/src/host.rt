use crate::Text;

/// A peer's name and port.
#[derive(Debug, Drop, PartialEq, Eq)]
pub struct Host {
    pub name: Text,
    pub port: u16,
}
