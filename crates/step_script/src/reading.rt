//! A script that is read.

ghost use Rattle.std.specs.Prelude.{◌≡◌, ◌<◌, All, length, Ok, IfOk, IfErr};
ghost use Rattle.step_script.specs.Grammar.{IsFaultOf, acts_of};
ghost use Rattle.step_script.specs.Ranges.{ActIsInRange};
ghost use Rattle.step_script.specs.Written.{ScriptReadsBack, ReadsOnly};

use crate::act::Act;
use crate::fault::ScriptFault;
use crate::parsing::act_in;
use std::alloc::Global;
use text_lines::next_line;

/// The acts of a text, for a machine of so many tiles with so many cores each. `Line` has the first line outside the
/// grammar.
#[tactic(auto, using(crate::proofs::Steps::act_steps))]
pub fn read_script(
    alloc: Global,
    text: &[u8],
    tiles: u32,
    cores: u32,
) -> Result<Vec<Act>, ScriptFault>
    requires { length text.now < 4294967295 }
    ensures acts { IfOk result (λ acts. acts_of text.now tiles cores ≡ Ok acts.items) }
    ensures within { IfOk result (λ acts. All (ActIsInRange tiles cores) acts.items) }
    ensures fault { IfErr result (λ fault. IsFaultOf (acts_of text.now tiles cores) fault) }
{
    let mut acts = Vec::new(alloc);
    let mut rest = text;
    let mut k = 1u32;
    while let Some((line, after)) = next_line(rest) {
        let Some(act) = act_in(line, tiles, cores) else {
            return Err(ScriptFault::Line { line: k });
        };
        if acts.push(act).is_err() {
            return Err(ScriptFault::Memory);
        }
        k += 1;
        rest = after;
    }
    Ok(acts)
}

/// A script that was written of acts is read back as these acts, and a text is read only as acts
/// whose lines are the text's.
pub fn written_scripts_read_back()
    ensures back { ScriptReadsBack }
    ensures only { ReadsOnly }
{}
