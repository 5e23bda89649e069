//! What a database's file opens as, at which page it is wrong, and which database it stands for.

mod found;

pub use found::Found;
