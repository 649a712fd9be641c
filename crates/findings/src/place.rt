/// What has a path; a symbolic link counts as what it leads to.
#[derive(Clone, Copy, Debug, PartialEq, Eq)]
pub enum Place {
    Nothing,
    Folder,
    /// A file, or what the system does not report.
    Other,
}
