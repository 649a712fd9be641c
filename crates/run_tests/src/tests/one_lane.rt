mod calls;
pub mod files;
mod many_rounds;
pub mod rig;
