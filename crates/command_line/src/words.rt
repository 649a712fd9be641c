use wire_base::Text;

/// What the arguments ask for.
#[derive(Debug, Drop, PartialEq, Eq)]
pub struct Words {
    /// The settings file, `-c FILE`.
    pub settings: Text,
    /// The folder of the registry, `--data DIR`.
    pub data: Text,
    /// The run ends once all files are read to their end, `--once`.
    pub once: bool,
    /// How many lines to generate in place of files, 1 to 1,000,000, `--generate N`.
    pub generate: Option<u32>,
}
