//! What rules over the passes of a shared object have in common: weights of lists, shares of a
//! whole, and sums over what all passes know.
//!
//! A pass is a value with no bytes by which a thread carries what it knows. The right to know the
//! whole is cut into shares as passes are split, and whoever has all shares knows that no other
//! pass knows anything. Only definitions and lemmas; nothing here runs.
#![tactic(auto)]
