//! The laws of the three kinds of filters.

ghost use Rattle.line_table.specs.LineLaws.{NotedIsTold, ClearedTellsNone, ExactTellsNoted, BitsTellModulo};
ghost use Rattle.line_table.specs.LineLaws.{BitsMeetModulo, LinesAgree};

/// Law: a line that was noted is reported, as written where it was noted with a write, and what is reported as written
/// is also reported as touched.
pub fn noted_is_told()
    ensures { NotedIsTold }
{}

/// Law: where nothing was noted, no line is reported.
pub fn cleared_tells_none()
    ensures { ClearedTellsNone }
{}

/// Law: an exact filter reports only the lines that were noted.
pub fn exact_tells_noted()
    ensures { ExactTellsNoted }
{}

/// Law: a filter of the kind `Modulo` reports exactly the lines that equal a noted one modulo 1,024.
pub fn bits_tell_modulo()
    ensures { BitsTellModulo }
{}

/// Law: of the kind `Modulo` a line that was noted with a write is reported as touched by later lines exactly where a
/// bit of the writes is one of their touches.
pub fn bits_meet_modulo()
    ensures { BitsMeetModulo }
{}

/// Law: lines of one kind that have the same notes answer alike.
pub fn lines_agree()
    ensures { LinesAgree }
{}
