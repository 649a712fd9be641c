use wire_base::Text;

/// Why a run does not ship what lies below the root of a glob.
#[derive(Debug, Drop)]
pub enum Why {
    /// It is a symbolic link, which is not followed.
    Link,
    /// Its name is not UTF-8; the path is that of its folder.
    NoText,
    /// The folder cannot be listed; why, in the system's words.
    Unreadable { reason: Text },
}

/// What lies below the root of a glob and is not shipped.
#[derive(Debug, Drop)]
pub struct Skipped {
    pub path: Text,
    pub why: Why,
}
