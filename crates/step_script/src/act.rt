//! What a line of a script requests.

/// One act of a script. Tiles and cores are numbered from 0; a core is named by its tile first.
#[derive(Clone, Copy, Debug, PartialEq, Eq)]
pub enum Act {
    /// `dispatch t`: tile t is asked to start its least idle task.
    Dispatch(u32),
    /// `step t c`: a leg of the task on core c of tile t is run, and its event made.
    Step(u32, u32),
    /// `take t c`: such a leg is run and held back.
    Take(u32, u32),
    /// `give t c`: the event of the leg that is held for that core is made.
    Give(u32, u32),
    /// `abort t`: tile t is to abort a task.
    Abort(u32),
    /// `commit`: the least task is asked to commit.
    Commit,
    /// `coalesce t`: tile t is asked to move tasks to its block.
    Coalesce(u32),
    /// `split t`: tile t is asked to bring a task back from its block.
    Split(u32),
    /// `advance`: the event for the least task.
    Advance,
}
