//! Worked examples of the public calls of `np_code_points`, `np_ucd`, `np_tables`, `np_forms`, `np_chain` and `np_lines`,
//! and what only tests show. There is nothing here to be called: each library is proved without its examples, and the
//! examples once for all of them.
#![tactic(auto)]

#[cfg(test)]
mod chain;
#[cfg(test)]
mod code_points;
#[cfg(test)]
mod forms;
#[cfg(test)]
mod lines;
#[cfg(test)]
mod tables;
#[cfg(test)]
mod ucd;
