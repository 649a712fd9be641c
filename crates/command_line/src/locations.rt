use wire_base::Text;

/// Where the program finds and keeps what it works on.
#[derive(Debug, Drop, PartialEq, Eq)]
pub struct Places {
    pub settings: Text,
    pub area_a: Text,
    pub area_b: Text,
    /// The run is to stop once this file is there.
    pub stop: Text,
    /// How many lines to generate in place of files.
    pub generate: Option<u32>,
}
