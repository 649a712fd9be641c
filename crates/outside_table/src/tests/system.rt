mod disk;
mod folder;
mod streams;
mod threads;
mod wire;

use std::rt::{Env, Files};
use std::{env, fs, io};

/// A path below the system's folder for temporary files, of nothing that is there.
fn fresh_path<R: Files + Env + AllocGlobal>(
    rt: &R,
    name: &str,
    process: u32,
) -> io::Result<String> {
    let mut path = env::temp_dir(rt)?.into_string();
    write!(path, "/outside_real_{name}_{process}")?;
    let _ = fs::remove_dir_all(rt, path.as_str());
    Ok(path)
}
