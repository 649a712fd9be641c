mod calls;
mod changes;
pub mod rules;
pub mod tail;
mod told;
