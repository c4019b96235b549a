//! Laws of scripts that are played twice. Each is the contract of a function that does nothing.

ghost use Rattle.machine_run.specs.One.{PlayedRunIsOne, TracedRunIsOne};

use rv_core::Naming;

/// A script that is played twice from an opening to its end, with the same placers and taps, has the same replies and
/// result.
pub fn played_run_is_one<N: Naming>()
    ensures { PlayedRunIsOne N }
{}

/// A script that is played twice for its taps, from an opening to its end, gives the same lists.
pub fn traced_run_is_one<N: Naming>()
    ensures { TracedRunIsOne N }
{}
