//! The opening of a book: the tasks of the image are placed one after another.

ghost use Rattle.std.specs.Prelude.{◌≡◌, ◌⊎◌, ◌<◌, ◌≤◌, ℕ, List, None, IfOk, OnOk};
ghost use Rattle.std.specs.Prelude.{length, map};
ghost use Rattle.std.specs.List.{enumerate_from};
ghost use Rattle.guest_image.specs.declared.image.ImageTask.{ImageTask};
ghost use Rattle.guest_image.specs.ImageValue.{IsImage};
ghost use Rattle.place_policy.specs.Policy.{IsTileCount};
ghost use Rattle.place_policy.specs.Serving.{first_placed, serving_tile};
ghost use Rattle.task_desc.specs.Calls.{domain_ts};
ghost use Rattle.trace_tap.specs.TapValue.{TapValue};
ghost use Rattle.event_step.specs.spec_state.Opening.{DescIsOfImage};
ghost use Rattle.event_step.specs.spec_state.Room.{QueueHasRoom, IsFull, Coalesces};
ghost use Rattle.event_step.specs.spec_state.Settings.{IsNamed, IsValid};
ghost use Rattle.event_step.specs.spec_state.Tasks.{root_descriptor};
ghost use Rattle.event_step.specs.spec_state.View.{loads, task_at};
ghost use Rattle.event_step.specs.event_def.Opening.{image_descriptor, root_kinds, opening_book};
ghost use Rattle.event_step.specs.event_def.Opening.{PlacesImageTask, PlacesAll, IsOpening};
ghost use Rattle.conflict_book.specs.Fresh.{AreFresh};
ghost use Rattle.conflict_book.specs.BookViews.{going_book, view_of};

use crate::book::{Book, SoundState};
use crate::spec_commit::coalesce;
use crate::spec_state::{Settings, State};
use guest_image::{Image, ImageTask, Kind, TEXT_START};
use place_policy::{Placer, serving_pick, serving_placed};
use rv_core::{Core, Decoded, Leg, Naming, run_leg_decoded};
use std::alloc::{AllocError, Global};
use task_desc::{Desc, Name};
use trace_tap::Tap;

/// The timestamp that the root domain takes a timestamp for.
fn root_ts(kind: Kind, ts: u32) -> u32
    ensures { result ≡ domain_ts kind ts }
{
    match kind {
        Kind::Unordered => 0,
        Kind::Ordered => ts,
    }
}

/// The bit of the root domain's kind.
fn kinds_of(kind: Kind) -> u16
    ensures value { result ≡ root_kinds kind }
    ensures small { result < 2 }
{
    match kind {
        Kind::Unordered => 0,
        Kind::Ordered => 1,
    }
}

/// The descriptor of the initial task of this place, which is its hint too.
fn image_desc(kind: Kind, index: u32, task: &ImageTask) -> Desc
    ensures value { root_descriptor result ≡ image_descriptor kind index task.now }
    ensures name { result.name ≡ record { creator = 0; index = index } }
    ensures image { DescIsOfImage result }
{
    Desc {
        name: Name { creator: 0, index },
        entry: task.entry,
        ts: root_ts(kind, task.ts),
        args: task.args,
        hint: index,
        depth: 1,
        kinds: kinds_of(kind),
    }
}

/// Law: the settings are valid, and there are as many loads as tiles, 1 to 16.
fn has_loads<N: Naming>(state: &State<N>)
    ensures valid { IsValid state.now.view.settings }
    ensures tiles { IsTileCount (length (loads state.now.view)) }
    ensures each { length (loads state.now.view) ≡ state.now.view.settings.tiles }
{
    state.has_limits();
    state.has_loads();
}

/// The tile that the serving placer picks.
fn pick<N: Naming, P: Placer>(state: &State<N>, placers: &[P], hint: u32) -> u32
    ensures tile { result ≡ serving_tile (map P.policy placers.now) hint (loads state.now.view) }
    ensures inside { result < state.now.view.settings.tiles }
{
    has_loads(state);
    let loads = state.loads();
    serving_pick(placers, hint, loads.as_slice())
}

/// Leaves a free place in the task queue of a tile: where it is full, idle tasks move into the tile's block.
fn make_queue_room<N: Naming>(state: &mut State<N>, tile: u32) -> Result<(), AllocError>
    requires tile { tile < state.old.view.settings.tiles }
    requires fresh { AreFresh state.old.view }
    ensures room { let old = state.old.view in
        OnOk result ((QueueHasRoom old tile × (state.new.view ≡ old))
        ⊎ (IsFull old tile × Coalesces tile old state.new.view)) }
    ensures free { OnOk result (QueueHasRoom state.new.view tile) }
    ensures fresh { OnOk result (AreFresh state.new.view) }
{
    if state.queue_has_room(tile) {
        return Ok(());
    }
    state.is_stored();
    has_loads(state);
    state.is_short(tile);
    coalesce(state, tile)?;
    Ok(())
}

/// Places the initial task of this place.
fn place<N: Naming, P: Placer>(
    state: &mut State<N>,
    placers: &mut [P],
    kind: Kind,
    index: u32,
    task: &ImageTask,
) -> Result<(), AllocError>
    requires fresh { AreFresh state.old.view }
    ensures places { let before = map P.policy placers.old in
        let after = map P.policy placers.new in
        OnOk result ((taps : List TapValue)
        → PlacesImageTask kind index task.now (opening_book state.old.view before taps)
        (opening_book state.new.view after taps)) }
    ensures fresh { OnOk result (AreFresh state.new.view) }
{
    let tile = pick(state, placers, index);
    make_queue_room(state, tile)?;
    state.add(&image_desc(kind, index, task), tile)?;
    serving_placed(placers, tile);
    Ok(())
}

/// Places all tasks of an image.
fn place_all<N: Naming, P: Placer>(
    state: &mut State<N>,
    placers: &mut [P],
    kind: Kind,
    tasks: &[ImageTask],
) -> Result<(), AllocError>
    requires none { (id : ℕ) → task_at state.old.view id ≡ None }
    requires few { length tasks.now ≤ 65536 }
    ensures { let before = map P.policy placers.old in
        let after = map P.policy placers.new in
        OnOk result ((taps : List TapValue)
        → PlacesAll kind (enumerate_from 0 tasks.now) (opening_book state.old.view before taps)
        (opening_book state.new.view after taps)) }
{
    for index in 0..tasks.len() as u32 {
        place(state, placers, kind, index, &tasks[index as usize])?;
    }
    Ok(())
}

/// A state with the tasks of the image.
fn opening<N: Naming, P: Placer>(
    alloc: Global,
    image: &Image,
    settings: Settings,
    placers: &mut [P],
) -> Result<State<N>, AllocError>
    requires valid { IsValid settings }
    requires named { IsNamed image.now settings N.image N.budget N.commits }
    ensures opening { let before = map P.policy placers.old in
        let after = map P.policy placers.new in
        IfOk result (λ state. (taps : List TapValue)
        → IsOpening N.image settings before taps (opening_book state.view after taps)) }
    ensures image { IsImage N.image }
{
    let tasks = image.tasks();
    let mut state = State::new(alloc, image, settings)?;
    place_all(&mut state, placers, image.kind(), tasks)?;
    Ok(state)
}

/// Some leg, from the first word of the text on.
fn first_leg<N: Naming>(decoded: &Decoded<N>, image: &Image, budget: u32) -> Leg<N>
    requires image { image.now ≡ N.image }
    requires budget { budget ≡ N.budget }
{
    let start = Core::start(image.version(), TEXT_START, 0, [0; 3]);
    run_leg_decoded(decoded, image, &start, 1, budget)
}

/// A sound state with the tasks of the image, on which no event was made.
fn sound_opening<N: Naming, P: Placer>(
    alloc: Global,
    image: &Image,
    settings: Settings,
    placers: &mut Vec<P>,
) -> Result<SoundState<N>, AllocError>
    requires valid { IsValid settings }
    requires named { IsNamed image.now settings N.image N.budget N.commits }
    ensures { let before = map P.policy placers.old.items in
        let after = map P.policy placers.new.items in
        IfOk result (λ sound. (taps : List TapValue)
        → IsOpening N.image settings before taps (going_book sound after taps)) }
{
    let state = opening(alloc, image, settings, placers.as_mut_slice())?;
    let leg = first_leg(state.decoded_text(), image, settings.budget);
    Ok(SoundState {
        state,
        steps: 0,
        leg,
    })
}

impl<N: Naming, P: Placer, T: Tap> Book<N, P, T> {
    /// The book of a machine of valid settings at its opening: the tasks of the image are placed one after another,
    /// each in the tile that the serving placer picks for its place among them. `AllocError` where memory runs
    /// out.
    pub fn begin(
        alloc: Global,
        image: &Image,
        settings: Settings,
        placers: Vec<P>,
        taps: Vec<T>,
    ) -> Result<Self, AllocError>
        requires valid { IsValid settings }
        requires named { IsNamed image.now settings N.image N.budget N.commits }
        ensures { let serving = map P.policy placers.items in
            let noting = map T.notes taps.items in
            IfOk result (λ book.
            IsOpening N.image settings serving noting (view_of P.policy T.notes book)) }
    {
        let mut placers = placers;
        let sound = sound_opening(alloc, image, settings, &mut placers)?;
        Ok(Book {
            sound,
            placers,
            taps,
            stopped: false,
        })
    }
}
