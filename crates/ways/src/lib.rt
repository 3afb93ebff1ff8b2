#![tactic(auto)]

mod laws;
mod reads;

pub use laws::routes_keep_their_laws;

// Enums and no closures for ends and ways: contracts say which end or way is meant, and a closure could be any function.

/// Which end of a worked quantity is read.
#[derive(Clone, Copy, PartialEq, Eq, Debug)]
pub enum End {
    Lower,
    Upper,
}

/// Which way a walk from a point goes: back to a source, or onward to the assembly station.
#[derive(Clone, Copy, PartialEq, Eq, Debug)]
pub enum Way {
    Back,
    Onward,
}
