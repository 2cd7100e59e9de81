//! Worked examples: the fixtures against one another, and against themselves with a line altered.
mod audits;
mod chains;
