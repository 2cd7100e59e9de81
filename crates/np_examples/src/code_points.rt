//! Worked examples, and devices that fail in mid-stream.
mod devices;
mod inputs;
mod lines;
mod outputs;
mod refused;
mod texts;
mod words;
