//! Cases for the state of the shell and for views of it, as tables: tests alone, apart from hs_world and hs_view, so that a
//! case more proves nothing anew but these.
#![tactic(auto)]

#[cfg(test)]
mod paths;
#[cfg(test)]
mod places;
#[cfg(test)]
mod trees;
#[cfg(test)]
mod views;
