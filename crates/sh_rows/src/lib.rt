//! Cases for the grammar of the shell, as tables: tests alone, apart from sh_script, so that a case more proves nothing anew
//! but these.
#![tactic(auto)]

#[cfg(test)]
mod texts;
