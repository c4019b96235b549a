//! What filters report in a sound view. Each law is the contract of a function that does nothing.

ghost use Rattle.spec_law.specs.FilterLaws.{ExactFiltersTell, FiltersLeaveNoneOut, FiltersTell, ModuloPullsByBits};

/// The filter of each task, of whatever kind, leaves out no access of its log. The laws of memory ask no more of it.
pub fn filters_leave_none_out()
    ensures { FiltersLeaveNoneOut }
{}

/// A filter of each kind reports each line that its task's log has noted, as written where the log has a store to it. A
/// line reported as written is also reported as touched, and the filter of a task that has done nothing reports none.
pub fn filters_tell()
    ensures { FiltersTell }
{}

/// An exact filter reports only the lines that its task's log has noted.
pub fn exact_filters_tell()
    ensures { ExactFiltersTell }
{}

/// Where filters hash a line to its number modulo 1,024, a later task is aborted with one that stored exactly where the
/// bits of the first one's touched lines and the other's written lines have one in common.
pub fn modulo_pulls_by_bits()
    ensures { ModuloPullsByBits }
{}
