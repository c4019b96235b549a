//! What words ask for.

use load_gen::Load;
use spec_state::Settings;
use thiserror::Error;

/// What is asked for.
#[derive(Clone, Copy, Debug, PartialEq, Eq)]
pub enum Command {
    /// Run an image.
    Run,
    /// Run an image, and write the image from which a run that met its commit limit goes on.
    Save,
    /// Make the events of a script.
    Steps,
    /// Make the events of a script, and print what the taps saw.
    Trace,
    /// Check a report of a run.
    Check,
    /// Run a generated image.
    Load {
        /// What kind of image is generated.
        load: Load,
        /// What its choices are drawn from.
        seed: u32,
        /// How large it is: 1 to 100,000 for `Walk`, 1 to 10,000 for `Nest`.
        size: u32,
    },
}

/// A command with its settings.
#[derive(Clone, Copy, Debug, PartialEq, Eq)]
pub struct Request {
    /// What is asked for.
    pub command: Command,
    /// The settings, each with its default where its option isn't given.
    pub settings: Settings,
}

/// Why words were not read.
#[derive(Clone, Copy, Debug, PartialEq, Eq, Error)]
pub enum Refusal {
    /// They are outside the grammar.
    #[error("usage")]
    Usage,
    /// Out of memory, maybe for words outside the grammar.
    #[error("out of memory")]
    Memory,
}
