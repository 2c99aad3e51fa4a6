//! The trait of hooks that are called as each line is answered.

use std::sync::Wait;

/// Hooks that are called for each line of a run as it is answered, and may make its caller wait.
///
/// Callers in threads of their own share a gate. Nothing that it does changes an answer.
pub trait Gate {
    /// The line with this number, from 1, was read, and is answered next.
    fn at<R: Wait>(&self, rt: &R, line: u64);

    /// The line with this number was answered.
    fn done<R: Wait>(&self, rt: &R, line: u64);
}

/// The gate that lets every line pass.
#[derive(Clone, Copy, Drop)]
pub struct OpenGate;

impl Gate for OpenGate {
    fn at<R: Wait>(&self, _rt: &R, _line: u64) {}

    fn done<R: Wait>(&self, _rt: &R, _line: u64) {}
}
