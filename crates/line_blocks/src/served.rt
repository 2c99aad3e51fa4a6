//! How the lines of an input were served.

/// How serving ended.
#[derive(Clone, Copy)]
pub enum Served {
    /// All lines were answered.
    All,
    /// The input failed.
    ReadFault,
    /// The sink failed.
    WriteFault,
    /// The input goes past a limit.
    TooLong {
        /// The number of the line, from 1, in which it does.
        line: u64,
    },
}
