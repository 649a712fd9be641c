use wire_base::Text;

/// What the arguments ask for.
#[derive(Drop)]
pub struct Asked {
    /// The settings file, `-c FILE`.
    pub settings: Text,
    /// The folder of the registry, `--data DIR`.
    pub data: Text,
    /// Whether each host is to be tried, `--connect`.
    pub connect: bool,
}
