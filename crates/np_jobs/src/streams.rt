//! What a run of a program works with.
use np_code_points::watched::Watched;
use std::alloc::Global;

/// The streams of a program.
#[derive(Drop)]
pub struct Streams<I, O, E> {
    pub input: Watched<I>,
    pub output: Watched<O>,
    pub error: Watched<E>,
}

/// Memory, and what opens files by their names.
#[derive(Clone, Copy)]
pub struct Resources<'a, P> {
    pub alloc: Global,
    pub opener: &'a P,
}
