//! Laws of the program: a call that plays a script answers the same each time, where it ends well. Each is the contract
//! of a function that does nothing.

ghost use Rattle.fractal_sim.specs.Twice.{ScriptCallsAreOne, ScriptCallsEndWell};

/// Two calls that play a script with the same arguments, bytes, placers and taps have the same outcome and text, if
/// memory didn't run out, and neither the source nor the sink failed.
pub fn script_calls_are_one()
    ensures { ScriptCallsAreOne }
{}

/// Calls exist that meet all conditions of that law and play a script: `steps` of an image with one task, which the one
/// act of the script dispatches.
pub fn script_calls_end_well()
    ensures { ScriptCallsEndWell }
{}
