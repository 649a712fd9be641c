/// The longest payload of an event.
pub const MAX_EVENT_BYTES: usize = 16_777_216;

/// So long a spool becomes at most by what is put and settled.
pub const MAX_SPOOL_BYTES: u64 = 1_073_741_824;

/// So long a peer may be silent, in milliseconds.
pub const TIMEOUT_MS: u64 = 30_000;
