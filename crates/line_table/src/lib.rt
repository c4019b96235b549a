//! Which memory lines a task touched, and which of them it wrote.
//!
//! Each task of the machine keeps `Lines`: a filter of one of three kinds, in two signatures. `Modulo` hashes a line
//! to its number modulo 1,024, `Bloom` to eight bits, and `Exact` checks the task's own log where the bits say yes. The
//! machine marks lines, queries and clears them; that allocates no memory.
//!
//! A `Filter` may have false positives, but never false negatives. `Lines` of each kind are one by their bits alone. A
//! task's log, which a filter of the kind `Exact` checks besides, isn't theirs: `noted_is_told` and `exact_tells_noted`
//! say of lines and log together that they still leave none out. The laws of memory use no more of a filter than this.
//!
//! The rest is library, of which no task keeps or asks anything. `Exact` is an ordered map from each line to whether it
//! was written, so a note or an answer costs one search in it, and only a new line allocates memory. A `Signature`
//! alone is `Lines` of the kind `Modulo`. `meets` compares two filters; the machine asks a filter of each line of a log
//! instead. It uses no other crate.
#![tactic(auto)]

mod banks;
mod exact;
mod filter;
mod hash;
mod laws;
mod lines;
mod row;
mod signature;

pub use exact::Exact;
pub use filter::Filter;
pub use laws::{
    bits_meet_modulo, bits_tell_modulo, cleared_tells_none, exact_tells_noted, lines_agree,
    noted_is_told,
};
pub use lines::{FilterKind, Lines};
pub use signature::{Signature, signatures_agree};
