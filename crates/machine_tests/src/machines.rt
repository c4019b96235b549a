//! Programs, settings and books that the tests of several files begin with.

ghost use Rattle.std.specs.Prelude.{◌≡◌};
ghost use Rattle.machine_run.specs.spec_state.Settings.{IsValid};

use crate::conflict_book::Book;
use crate::serial_machine::End;
use guest_image::{Image, read_image};
use place_policy::ByHint;
use rv_core::Naming;
use sample_image::Program;
use spec_state::{FilterKind, Settings};
use std::alloc::{AllocError, Global};
use std::test::Fail;
use trace_tap::LastN;

/// Two tiles of one core.
pub const TWO_TILES: Settings = Settings {
    tiles: 2,
    cores: 1,
    task_queue: 64,
    commit_queue: 16,
    line: 16,
    quantum: 64,
    workers: 0,
    commits: 1_000_000,
    budget: 65_536,
    phase: 1_000_000,
    filter: FilterKind::Modulo,
};

/// The settings of a run that no option changes: four tiles of two cores.
pub const DEFAULTS: Settings = Settings {
    tiles: 4,
    cores: 2,
    ..TWO_TILES
};

/// One tile of four cores, with a task queue of four.
pub const FOUR_CORES: Settings = Settings {
    tiles: 1,
    cores: 4,
    task_queue: 4,
    ..TWO_TILES
};

/// Two tasks that end at once, at the timestamps 1 and 2.
pub const ENDERS: Program = Program {
    text: &[0x0000_0893, 0x0000_0073],
    initial: &[],
    data_size: 0,
    tasks: &[(0x0001_0000, 1), (0x0001_0000, 2)],
};

/// The image of a program.
pub fn image_of(alloc: Global, program: &Program) -> Result<Image, Fail> {
    Ok(sample_image::image_of(alloc, program)?)
}

/// The image of these bytes.
pub fn image_in(alloc: Global, bytes: &[u8]) -> Result<Image, Fail> {
    let (image, _) = read_image(alloc, bytes)?;
    Ok(image)
}

/// Whether the run is over and no task pends.
pub fn is_normal(end: Option<End>) -> bool {
    matches!(end, Some(End::Normal))
}

/// A book whose tasks are placed by their hints. Tests close it, and states are taken apart, since the drop of one in
/// a function costs its check half a minute.
pub type Hinted<N> = Book<N, ByHint, LastN>;

/// One tap, which keeps the last four records.
pub fn one_tap(alloc: Global) -> Result<Vec<LastN>, Fail> {
    let tap = LastN::new(alloc, 4)?;
    let mut taps = Vec::new(alloc);
    taps.push(tap)?;
    Ok(taps)
}

/// The book of an image before its first event, with these taps.
pub fn opening_book<N: Naming>(
    alloc: Global,
    image: &Image,
    settings: Settings,
    taps: Vec<LastN>,
) -> Result<Hinted<N>, AllocError>
    requires valid { IsValid settings }
    requires image { image.now ≡ N.image }
    requires budget { settings.budget ≡ N.budget }
    requires commits { settings.commits ≡ N.commits }
{
    Book::begin(alloc, image, settings, Vec::new(alloc), taps)
}
