//! The words of the generated programs, and images whose numbers were computed by hand from the recurrence.

ghost use Rattle.std.specs.Prelude.{◌<◌, ◌≤◌};

use guest_image::{Image, Kind};
use load_gen::{Load, make, texts_are_the_programs, third_edges_lead_no_deeper};
use std::alloc::{AllocError, Global};
use std::process::Abort;
use std::test::Fail;

static WALK_WORDS: [u32; 24] = [
    0x0025_1293,
    0x0055_8333,
    0x0003_2383,
    0x0403_9663,
    0x0016_8413,
    0x0083_2023,
    0x0035_1393,
    0x0072_82b3,
    0x1000_03b7,
    0x0072_82b3,
    0x0030_0493,
    0x0005_8693,
    0x0004_0593,
    0x0010_0893,
    0x0001_0537,
    0x0002_a603,
    0x0006_4663,
    0x0006_0793,
    0x0000_0073,
    0x0042_8293,
    0xfff4_8493,
    0xfe04_94e3,
    0x0000_0893,
    0x0000_0073,
];

static NEST_WORDS: [u32; 23] = [
    0x0040_0893,
    0x0005_0293,
    0x0005_8313,
    0x0006_0393,
    0x0010_0513,
    0x0000_0073,
    0x0020_0893,
    0x0001_0537,
    0x0485_0513,
    0x0002_8613,
    0x0003_8693,
    0x0010_0593,
    0x0000_0073,
    0x0003_0693,
    0x0000_0593,
    0x0000_0073,
    0x0000_0893,
    0x0000_0073,
    0x0005_a283,
    0x00a2_82b3,
    0x0055_a023,
    0x0000_0893,
    0x0000_0073,
];

#[test]
fn the_laws_of_a_walk_may_be_called() {
    third_edges_lead_no_deeper();
    texts_are_the_programs();
}

/// A seed and a size of a walk, and its window.
static WALKS: [(u32, u32, (u32, u32)); 5] = [
    (7, 1, (12, 1)),
    (3, 2, (24, 2)),
    (0, 8, (112, 4)),
    (7, 200, (3184, 4)),
    (u32::MAX, 20_000, (319_984, 4)),
];

fn walk(alloc: Global, seed: u32, size: u32) -> Result<Image, AllocError>
    requires { (0 < size) × (size ≤ 100000) }
{
    make(alloc, Load::Walk, seed, size)
}

/// An image has a text and a root of a kind.
fn assert_program(rt: &impl Abort, image: &Image, kind: Kind, text: &[u32]) {
    assert!(rt; image.kind() == kind);
    assert_eq!(rt; image.text(), text);
}

/// An image has this many initial bytes, this data size and this window.
fn assert_data(rt: &impl Abort, image: &Image, initial: usize, size: u32, window: (u32, u32)) {
    assert_eq!(rt; image.initial().len(), initial);
    assert_eq!(rt; image.data_size(), size);
    assert!(rt; image.window() == window);
}

#[test]
fn walks_have_the_program_of_a_walk(rt: HostRuntime) -> Result<(), Fail> {
    for (seed, size, _window) in &WALKS {
        assert!(rt; 0 < *size && *size <= 100_000);
        let image = walk(rt.alloc(), *seed, *size)?;
        assert_program(&rt, &image, Kind::Ordered, &WALK_WORDS);
    }
    Ok(())
}

#[test]
fn walks_have_three_edges_and_a_distance_for_each_node(rt: HostRuntime) -> Result<(), Fail> {
    for (seed, size, window) in &WALKS {
        assert!(rt; 0 < *size && *size <= 100_000);
        let image = walk(rt.alloc(), *seed, *size)?;
        assert_data(&rt, &image, 12 * *size as usize, 16 * *size, *window);
    }
    Ok(())
}

#[test]
fn walks_begin_at_their_first_node(rt: HostRuntime) -> Result<(), Fail> {
    for (seed, size, _window) in &WALKS {
        assert!(rt; 0 < *size && *size <= 100_000);
        let image = walk(rt.alloc(), *seed, *size)?;
        assert_eq!(rt; image.tasks().len(), 1);
        let task = image.tasks().first().ok_or("a task")?;
        assert!(rt; task.args == [0, 0x1000_0000 + 12 * *size, 0]);
    }
    Ok(())
}

/// The edge that is missing.
const NONE: u32 = 0xffff_ffff;

/// A seed and a size of a walk, a node, and its three edges.
static EDGES: [(u32, u32, usize, [u32; 3]); 16] = [
    (7, 1, 0, [NONE, NONE, 0]),
    (3, 2, 0, [1, NONE, 0]),
    (3, 2, 1, [NONE, NONE, 0]),
    (0, 8, 0, [1, 2, 0]),
    (0, 8, 1, [3, 4, 1]),
    (0, 8, 3, [7, NONE, 1]),
    (0, 8, 7, [NONE, NONE, 5]),
    (7, 200, 1, [3, 4, 0]),
    (7, 200, 98, [197, 198, 54]),
    (7, 200, 99, [199, NONE, 24]),
    (7, 200, 100, [NONE, NONE, 97]),
    (7, 200, 199, [NONE, NONE, 184]),
    (u32::MAX, 20_000, 0, [1, 2, 0]),
    (u32::MAX, 20_000, 9999, [19_999, NONE, 6416]),
    (u32::MAX, 20_000, 19_998, [NONE, NONE, 10_566]),
    (u32::MAX, 20_000, 19_999, [NONE, NONE, 1952]),
];

/// Whether bytes are those of three words, each with its lowest byte first.
fn are_words(bytes: &[u8; 12], words: &[u32; 3]) -> bool {
    let (parts, _) = bytes.as_chunks::<4>();
    parts
        .iter()
        .zip(words)
        .all(|(part, word)| *part == word.to_le_bytes())
}

/// Whether a node of a walk has these edges.
fn has_edges(image: &Image, node: usize, edges: &[u32; 3]) -> bool {
    let (nodes, _) = image.initial().as_chunks::<12>();
    match nodes.get(node) {
        Some(bytes) => are_words(bytes, edges),
        None => false,
    }
}

#[test]
fn walks_have_the_edges_of_the_recurrence(rt: HostRuntime) -> Result<(), Fail> {
    for (seed, size, node, edges) in &EDGES {
        assert!(rt; 0 < *size && *size <= 100_000);
        let image = walk(rt.alloc(), *seed, *size)?;
        assert!(rt; has_edges(&image, *node, edges), "{seed} {size} {node}");
    }
    Ok(())
}

/// A seed, a size, a task and its arguments.
static TASKS: [(u32, u32, usize, [u32; 3]); 7] = [
    (7, 1, 0, [7, 0x1000_0000, 0x1000_000c]),
    (0xffff_ffff, 8, 0, [295, 0x1000_0000, 0x1000_000c]),
    (0xffff_ffff, 8, 5, [300, 0x1000_0014, 0x1000_0000]),
    (0xffff_ffff, 8, 7, [302, 0x1000_001c, 0x1000_0008]),
    (1999, 200, 0, [999, 0x1000_0000, 0x1000_000c]),
    (1999, 200, 199, [1198, 0x1000_001c, 0x1000_0008]),
    (0, 10_000, 9999, [9999, 0x1000_001c, 0x1000_0008]),
];

fn nest(alloc: Global, seed: u32, size: u32) -> Result<Image, AllocError>
    requires { (0 < size) × (size ≤ 10000) }
{
    make(alloc, Load::Nest, seed, size)
}

#[test]
fn nested_additions_have_their_program(rt: HostRuntime) -> Result<(), Fail> {
    for (seed, size, _place, _args) in &TASKS {
        assert!(rt; 0 < *size && *size <= 10_000);
        let image = nest(rt.alloc(), *seed, *size)?;
        assert_program(&rt, &image, Kind::Unordered, &NEST_WORDS);
    }
    Ok(())
}

#[test]
fn nested_additions_have_eight_cells(rt: HostRuntime) -> Result<(), Fail> {
    for (seed, size, _place, _args) in &TASKS {
        assert!(rt; 0 < *size && *size <= 10_000);
        let image = nest(rt.alloc(), *seed, *size)?;
        assert_data(&rt, &image, 0, 32, (0, 8));
    }
    Ok(())
}

#[test]
fn nested_additions_name_their_cells(rt: HostRuntime) -> Result<(), Fail> {
    for (seed, size, place, args) in &TASKS {
        assert!(rt; 0 < *size && *size <= 10_000);
        let image = nest(rt.alloc(), *seed, *size)?;
        assert_eq!(rt; image.tasks().len(), *size as usize);
        let task = image.tasks().get(*place).ok_or("a task")?;
        assert!(rt; task.entry == 0x1_0000 && task.ts == 0 && task.args == *args);
    }
    Ok(())
}
