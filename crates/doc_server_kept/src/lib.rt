//! The restart law: what the turns of a server write is restored as what they made. It has no code but the functions that carry its laws.
#![tactic(auto)]

pub mod laws;
