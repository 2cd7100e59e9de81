//! Stabilized Unicode strings for C: a static library of functions over numbers and bytes, whose header is
//! `include/npss.h`. What a function answers is an `Answer`; its status is one of the numbers of `answers`.
#![tactic(auto)]

mod answers;
mod apart;
mod ascii;
mod caseless;
mod caseless_exports;
mod code_exports;
mod comparing;
mod content;
mod exports;
mod fault_answers;
mod first_unassigned;
mod folding_codes;
mod folding_extension;
mod folding_opening;
mod handles;
mod held;
mod keeping;
mod kept_node;
mod kept_streams;
mod keys;
mod lines;
mod name_exports;
mod names;
mod node_exports;
mod node_opening;
mod node_reading;
mod node_writing;
mod opening;
mod properties;
mod room;
mod shared;
mod shared_table;
mod stream_exports;
mod stream_opening;
mod texts;
mod workroom;
