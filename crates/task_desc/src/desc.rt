//! Names, children, descriptors, and what calls depend on.

use guest_image::Kind;

/// The name of a task: the commit number of its creator (0 for the image's tasks), and its place among the creator's
/// children, in the order of their enqueueing.
#[derive(Clone, Copy, Debug, PartialEq, Eq)]
pub struct Name {
    /// The creator's commit number, counted from 1; 0 for a task of the image.
    pub creator: u32,
    /// The place among the creator's children, or among the image's tasks, counted from 0.
    pub index: u32,
}

/// The domain to which a task enqueues a child: its own, its subdomain or the immediate superdomain.
#[derive(Clone, Copy, Debug, PartialEq, Eq)]
pub enum Place {
    /// The creator's own domain.
    Same,
    /// The subdomain that the creator made.
    Sub,
    /// The domain in which the creator's domain lies.
    Super,
}

/// A child that a task asks for: with the timestamp asked for until `allow` has allowed it, and then, in a request and
/// among the children of a task, with the one that its domain takes, which is 0 in an unordered one.
#[derive(Clone, Copy, Debug, PartialEq, Eq)]
pub struct Spawn {
    /// The domain to which it goes.
    pub place: Place,
    /// The address of its first instruction; it may lie outside the text.
    pub entry: u32,
    /// The timestamp that is asked for, or, once the child is allowed, the one that its domain takes.
    pub ts: u32,
    /// Its arguments, in the registers x10 to x12 at its start.
    pub args: [u32; 3],
    /// A number from which a tile may be picked for it.
    pub hint: u32,
}

/// What a task is made of, without its domain's levels. Its domain lies at `depth`, the root at 1; bit d of `kinds`
/// is 1 where the domain at depth d + 1, of those that the task is in, is ordered.
#[derive(Clone, Copy, Debug, PartialEq, Eq)]
pub struct Desc {
    /// The task's name.
    pub name: Name,
    /// The address of its first instruction; it may lie outside the text.
    pub entry: u32,
    /// Its timestamp: 0 in an unordered domain.
    pub ts: u32,
    /// Its arguments, in the registers x10 to x12 at its start.
    pub args: [u32; 3],
    /// A number from which a tile may be picked for it.
    pub hint: u32,
    /// The depth of its domain: 1 for the root domain, at most 16.
    pub depth: u8,
    /// A bit for each domain that it is in, the root in bit 0: 1 where that domain is ordered.
    pub kinds: u16,
}

/// What the calls of a running task depend on: the version of the image, the depth and kind of its domain, the kind
/// of the superdomain (none at depth 1), its timestamp, its domain's floor, the kind of the subdomain that it made, and
/// how many children and bytes it has enqueued and emitted so far.
#[derive(Clone, Copy, Debug, PartialEq, Eq)]
pub struct Ctx {
    /// The version of the image, which gives the limits: depth 8 and 64 children in version 1, 16 and 256 in
    /// version 2.
    pub version: u16,
    /// The depth of its domain: 1 for the root domain, at most 16.
    pub depth: u8,
    /// The kind of its domain.
    pub own: Kind,
    /// The kind of the superdomain: none exactly at depth 1.
    pub outer: Option<Kind>,
    /// Its timestamp: 0 in an unordered domain.
    pub ts: u32,
    /// The least timestamp that a child in an ordered superdomain may have.
    pub floor: u32,
    /// The kind of the subdomain that it made, where it made one.
    pub sub: Option<Kind>,
    /// How many children it has enqueued, in all domains together: at most 256.
    pub children: u32,
    /// How many bytes it has emitted: at most 256.
    pub bytes: u32,
}
