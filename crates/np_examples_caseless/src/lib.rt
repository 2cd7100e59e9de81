//! Worked examples of the public calls of `np_foldings` and `np_caseless`, and what only tests show: the fixtures' keys,
//! matches and folding files. There is nothing here to be called.
#![tactic(auto)]

#[cfg(test)]
mod audit_rows;
#[cfg(test)]
mod audits;
#[cfg(test)]
mod condition_rows;
#[cfg(test)]
mod conditions;
#[cfg(test)]
mod edge_rows;
#[cfg(test)]
mod folding_files;
#[cfg(test)]
mod foldings;
#[cfg(test)]
mod jobs;
#[cfg(test)]
mod key_rows;
#[cfg(test)]
mod keys;
#[cfg(test)]
mod lines;
#[cfg(test)]
mod lowercases;
#[cfg(test)]
mod match_rows;
#[cfg(test)]
mod refused;
