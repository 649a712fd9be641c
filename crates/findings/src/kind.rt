ghost use Rattle.std.specs.Prelude.{◌≡◌};
ghost use Rattle.findings.specs.Texts.{kind_text, number_of};

/// What there is to say of a name.
#[derive(Clone, Copy, Debug)]
pub enum Kind {
    /// A file that cannot be opened, or a folder that cannot be listed.
    Unreadable,
    /// A file with too few bytes for its fingerprint.
    Small,
    /// A file with the key of one before it.
    Doubled,
    Link,
    /// The folder of a name that is not UTF-8.
    NoText,
    /// A glob whose root is absent.
    Rootless,
    /// A glob that finds no file.
    Fruitless,
    /// A glob as another tool would read it.
    Foreign,
    /// A glob that also covers rotated names, of an input that knows files by their paths.
    Rotated,
    /// A host that no worker uses.
    Idle,
    ManyFiles,
    Unwritable,
    Connected,
    Unconnected,
}

impl Kind {
    pub(crate) fn text(self) -> &'static str
        ensures { result.now ≡ kind_text self }
    {
        match self {
            Kind::Unreadable => "unreadable",
            Kind::Small => "too small for a fingerprint",
            Kind::Doubled => "doubled by a file before it",
            Kind::Link => "symbolic link",
            Kind::NoText => "folder of a name that is not UTF-8",
            Kind::Rootless => "glob whose folder is absent",
            Kind::Fruitless => "glob that finds no file",
            Kind::Foreign => "glob as another tool reads it",
            Kind::Rotated => "warning, known by path and rotated names are covered",
            Kind::Idle => "warning, host that no worker uses",
            Kind::ManyFiles => "warning, more files than may be open",
            Kind::Unwritable => "warning, registry that cannot be written",
            Kind::Connected => "host that connects",
            Kind::Unconnected => "host that does not connect",
        }
    }

    pub(crate) fn number(self) -> u8
        ensures { result ≡ number_of self }
    {
        match self {
            Kind::Unreadable => 0,
            Kind::Small => 1,
            Kind::Doubled => 2,
            Kind::Link => 3,
            Kind::NoText => 4,
            Kind::Rootless => 5,
            Kind::Fruitless => 6,
            Kind::Foreign => 7,
            Kind::Rotated => 8,
            Kind::Idle => 9,
            Kind::ManyFiles => 10,
            Kind::Unwritable => 11,
            Kind::Connected => 12,
            Kind::Unconnected => 13,
        }
    }
}
