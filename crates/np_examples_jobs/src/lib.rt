//! Worked examples of the public calls of `np_node` and `np_world` and of the jobs, and what only tests show. There is
//! nothing here to be called.
#![tactic(auto)]

#[cfg(test)]
mod error_texts;
#[cfg(test)]
mod jobs;
#[cfg(test)]
mod lines_job;
#[cfg(test)]
mod node;
#[cfg(test)]
mod over_files;
#[cfg(test)]
mod programs;
#[cfg(test)]
mod shelf;
#[cfg(test)]
mod world;
