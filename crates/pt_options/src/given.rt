/// What the program does.
#[derive(Clone, Copy, Debug, PartialEq, Eq)]
pub enum Mode {
    /// Answers the script that is read.
    Solve,
    /// Answers a script that is made from a seed, and counts its answers.
    Drill,
}

/// The options of the program.
#[derive(Clone, Copy, Debug, PartialEq, Eq)]
pub struct Options {
    pub mode: Mode,
    /// How many threads work on a command, from 1 to 16.
    pub workers: u32,
    /// The state bound, from 1 to 65,536.
    pub states: u32,
    /// The seed of mode drill, below 2^31; 0 in the other modes.
    pub seed: u32,
    /// The groups of commands of mode drill, from 1 to 4,096; 0 in the other modes.
    pub size: u32,
}

/// Why there are no options.
#[derive(Clone, Copy, Debug, PartialEq, Eq)]
pub enum WordsFault {
    /// The words are not the defined ones.
    Usage,
    NoMemory,
}
