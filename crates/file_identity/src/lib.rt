//! The key by which a file is known again.
//!
//! A key is a text: the input's id with the file's path, with its inode and device, or with the SHA-256 of some of its
//! bytes. Without a look into the file there is none of the last kind; and there is none if not all of those bytes
//! are there. One asking gives the key of the bytes that its own looks gave. The law says that this is the key of the
//! life that is present, if the looks show only one life.
//!
//! `listed_key` asks an entry of a listing, and `opened_key` an open file, which it reads in pieces. It keeps no byte
//! of the file, however long the fingerprint is. Whether a file that was opened is the one that was listed is the
//! caller's to see, by both keys. `has_fingerprint` asks an open file again, whether it has the key
//! that is known. It takes no memory: only a fault of a read keeps an asking from its answer.
#![tactic(auto)]

mod fingerprint;
mod identity;
mod identity_error;
mod key_text;
mod keys;
mod laws;

pub use identity::Identity;
pub use identity_error::IdentityError;
pub use keys::{has_fingerprint, listed_key, opened_key};
pub use laws::an_asking_of_one_life;
