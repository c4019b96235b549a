//! The report of a run as a text: written line by line without memory, read back against its grammar, and checked
//! against the serial machine. A writer keeps one line at a time; reading takes memory for what the text says and
//! time linear in it; checking takes the time of the run, and no copy of the journal. It stands on the serial
//! machine, lines of texts and sinks; the program and `script_text` call it.
#![tactic(auto)]

mod checking;
mod fault;
mod hexing;
mod limits;
mod line;
mod parsing;
mod reading;
mod report;
mod verdict;
mod window;
mod writing;

pub use checking::{check, examine, verdicts_agree_on_the_line};
pub use fault::JournalFault;
pub use limits::{MAX_CAUSE, MAX_DEPTH, MAX_ENTRIES};
pub use line::{Line, put};
pub use reading::{read_journal, written_reports_read_back};
pub use report::{Report, Window, WindowWord};
use run_law::serial_machine;
pub use verdict::{Examined, Verdict};
pub use writing::{write_body, write_end, write_entries, write_report};
