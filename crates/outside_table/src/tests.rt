mod memory;
mod system;

/// Takes what may be moved to another thread.
fn moved<T: Send>(_object: &T) {}
