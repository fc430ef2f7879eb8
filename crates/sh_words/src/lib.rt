//! Words as they are written, with the fields that they become, as tables: tests alone, apart from sh_expand and sh_glob, so
//! that a case more proves nothing anew but these.
#![tactic(auto)]

#[cfg(test)]
mod tests;
