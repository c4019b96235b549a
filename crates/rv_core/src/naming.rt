//! Legs that keep in their type which image and which budget they ran with.

ghost use Rattle.std.specs.Prelude.{◌≡◌, ◌^◌, ◌-◌, ◌<◌, ◌≤◌, ◌↔◌, ℕ, [], IsTrue};
ghost use Rattle.guest_image.specs.ImageValue.{ImageValue, image_value};
ghost use Rattle.guest_image.specs.declared.image.Kind.TheVariants.{Unordered};
ghost use Rattle.rv_core.specs.Legs.{IsLeg, after_load_of, after_other_of};
ghost use Rattle.rv_core.specs.LegValue.{IsLegOfImage};

use crate::decoded::Decoded;
use crate::noted::NotedCore;
use crate::state::{Core, Stop};
use guest_image::Image;
use rv_table::{LoadWidth, Reg};
use std::marker::{Brand, Model, PhantomData};

/// A name for an image and for the task budget and the commit limit that go with it. It has no functions: generic
/// code takes an image and numbers that are those of its `N`, and what it makes stays tied to them.
pub trait Naming {
    /// The image that is named.
    ghost image: { ImageValue };

    /// How many instructions a task may execute.
    ghost budget: { ℕ };

    /// How many tasks may commit.
    ghost commits: { ℕ };
}

/// At each call with `Brand` the caller's proof picks the image and the limits.
impl Naming for Brand {
    ghost image = { image_value Unordered [] [] 0 0 0 [] };

    ghost budget = { 0 };

    ghost commits = { 0 };
}

/// A run of plain instructions on the text of the image that `N` names, within the budget that `N` names. It ends where
/// something else than a plain instruction stands, or where it did as many as it may.
#[derive(Drop)]
pub struct Leg<N: Naming> {
    from: NotedCore,
    to: NotedCore,
    steps: u32,
    stop: Stop,
    naming: PhantomData<N>,
}

impl<N: Naming> Model for Leg<N> {
    ghost use Rattle.rv_core.specs.LegValue.{LegValue, IsLegOfImage};

    ghost Value = { LegValue };

    ghost view = { λ l. record { from = l.from; to = l.to; steps = l.steps; stop = l.stop } };

    ghost invariant = { λ l.
        IsLegOfImage N.image N.budget
        (record { from = l.from; to = l.to; steps = l.steps; stop = l.stop }) };
}

impl<N: Naming> Leg<N> {
    /// The core at which it begins.
    pub fn from(&self) -> &Core
        ensures value { result.now ≡ self.now.from }
        ensures run { IsLegOfImage N.image N.budget self.now }
    {
        self.from.core()
    }

    /// The core at which it ends.
    pub fn to(&self) -> &Core
        ensures value { result.now ≡ self.now.to }
        ensures run { IsLegOfImage N.image N.budget self.now }
    {
        self.to.core()
    }

    /// How many instructions it has.
    pub fn steps(&self) -> u32
        ensures value { result ≡ self.now.steps }
        ensures run { IsLegOfImage N.image N.budget self.now }
    {
        self.steps
    }

    /// What it stopped at.
    pub fn stop(&self) -> Stop
        ensures value { result ≡ self.now.stop }
        ensures run { IsLegOfImage N.image N.budget self.now }
    {
        self.stop
    }

    /// Becomes the leg that [`run_leg_decoded`] runs from a core on. Nothing of it moves but that core.
    pub fn run_again(
        &mut self,
        decoded: &Decoded<N>,
        image: &Image,
        from: &NotedCore,
        quantum: u32,
        budget: u32,
    )
        requires image { image.now ≡ N.image }
        requires budget { budget ≡ N.budget }
        requires quantum { (1 ≤ quantum) × (quantum ≤ 1024) }
        requires used { from.now.used ≤ budget }
        ensures from { self.new.from ≡ from.now }
        ensures leg { let to = self.new.to in
            IsLeg image.now image.now.data_size budget quantum from.now to self.new.steps self.new.stop }
        ensures run { IsLegOfImage image.now budget self.new }
    {
        self.from.put(from);
        self.to.put(from);
        let (steps, stop) = self.to.run_decoded(decoded, image, quantum, budget);
        self.steps = steps;
        self.stop = stop;
    }

    /// Whether it begins at a core.
    pub fn begins_at(&self, core: &NotedCore) -> bool
        ensures { IsTrue result ↔ (core.now ≡ self.now.from) }
    {
        core.is(&self.from)
    }

    /// Puts the core at which it ends in the place of another.
    pub fn put_end(&self, core: &mut NotedCore)
        ensures { core.new ≡ self.now.to }
    {
        core.put(&self.to);
    }

    /// Replaces a core by the one after the load at which the leg ends, as [`after_load`](crate::after_load) returns
    /// it.
    pub fn put_after_load(&self, core: &mut NotedCore, width: LoadWidth, rd: Reg, raw: u32)
        requires { self.now.to.used < 2 ^ 32 - 1 }
        ensures { core.new ≡ after_load_of self.now.to width rd raw }
    {
        core.put_after_load(&self.to, width, rd, raw);
    }

    /// Replaces a core by the one after the instruction at which the leg ends, which writes no register, as
    /// [`after_other`](crate::after_other) returns it.
    pub fn put_after_other(&self, core: &mut NotedCore)
        requires { self.now.to.used < 2 ^ 32 - 1 }
        ensures { core.new ≡ after_other_of self.now.to }
    {
        core.put_after_other(&self.to);
    }
}

/// Runs plain instructions as [`run_plain`](crate::run_plain) does, and keeps in the type of the answer what was run.
pub fn run_leg<N: Naming>(image: &Image, from: &Core, quantum: u32, budget: u32) -> Leg<N>
    requires image { image.now ≡ N.image }
    requires budget { budget ≡ N.budget }
    requires quantum { (1 ≤ quantum) × (quantum ≤ 1024) }
    requires used { from.now.used ≤ budget }
    ensures from { result.from ≡ from.now }
    ensures leg { IsLeg image.now image.now.data_size budget quantum from.now result.to result.steps result.stop }
    ensures run { IsLegOfImage image.now budget result }
{
    let from = NotedCore::of(from);
    let mut leg = Leg {
        to: from.copy(),
        from,
        steps: 0,
        stop: Stop::Quantum,
        naming: PhantomData,
    };
    let (steps, stop) = leg.to.run(image, quantum, budget);
    leg.steps = steps;
    leg.stop = stop;
    leg
}

/// Runs plain instructions on the decoded text as [`run_leg`] does on the image's.
pub fn run_leg_decoded<N: Naming>(
    decoded: &Decoded<N>,
    image: &Image,
    from: &Core,
    quantum: u32,
    budget: u32,
) -> Leg<N>
    requires image { image.now ≡ N.image }
    requires budget { budget ≡ N.budget }
    requires quantum { (1 ≤ quantum) × (quantum ≤ 1024) }
    requires used { from.now.used ≤ budget }
    ensures from { result.from ≡ from.now }
    ensures leg { IsLeg image.now image.now.data_size budget quantum from.now result.to result.steps result.stop }
    ensures run { IsLegOfImage image.now budget result }
{
    let from = NotedCore::of(from);
    let mut leg = Leg {
        to: from.copy(),
        from,
        steps: 0,
        stop: Stop::Quantum,
        naming: PhantomData,
    };
    let (steps, stop) = leg.to.run_decoded(decoded, image, quantum, budget);
    leg.steps = steps;
    leg.stop = stop;
    leg
}
