ghost use Rattle.std.specs.Prelude.{◌≡◌, map};
ghost use Rattle.std.specs.List.{list_all};
ghost use Rattle.beat_config.specs.Single.{name_place};
ghost use Rattle.beat_config.specs.Name.{is_name, is_name_byte};

/// The place of a text among names.
pub(crate) fn name_place(names: &[&str], text: &str) -> Option<usize>
    ensures { result ≡ name_place (map (λ name. name.now) names.now) text.now }
{
    for (place, name) in names.iter().enumerate() {
        if *name == text {
            return Some(place);
        }
    }
    None
}

/// Whether it has 1 to `most` bytes, each a letter, a digit, `_`, `.` or `-`.
pub(crate) fn is_name(text: &[u8], most: usize) -> bool
    ensures { result ≡ is_name most text.now }
{
    !text.is_empty() && text.len() <= most && all_named(text)
}

fn all_named(text: &[u8]) -> bool
    ensures { result ≡ list_all is_name_byte text.now }
{
    text.iter().all(|byte| is_name_byte(*byte))
}

fn is_name_byte(byte: u8) -> bool
    ensures { result ≡ is_name_byte byte }
{
    matches!(byte, b'A'..=b'Z' | b'a'..=b'z' | b'0'..=b'9' | b'_' | b'.' | b'-')
}
