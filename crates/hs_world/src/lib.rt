//! The state of a shell, the effects that change it, and the limits on them.
#![tactic(auto)]

mod effect;
mod entry;
mod index;
mod loc;
mod opts;
mod path;
mod record;
mod reply;
mod route;
mod shell;
mod table;
mod tables;
mod tree;
mod var;
mod world;

pub use effect::{Effect, Fd};
pub use entry::{Entry, Kind};
pub use hs_text::{Field, Fields, Text, TextList};
pub use loc::{Loc, Value};
pub use opts::Opts;
pub use path::PathName;
pub use record::{Effects, Reads};
pub use reply::{Environment, Found, Reply, Request};
pub use route::{Route, RouteTable, Routes};
pub use shell::Depth;
pub use tables::{emit_below, end_below};
pub use tree::{Tree, TreeErr};
pub use var::Var;
pub use world::{Limit, Limits, World, WorldErr};

#[cfg(test)]
mod tests;
