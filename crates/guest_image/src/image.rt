//! An image, as a value.

ghost use Rattle.std.specs.Prelude.{◌≡◌, ◌⊎◌, ◌↔◌, ◌*◌, ◌%◌, ◌^◌, ◌<◌, IfSome, IsOk, All, length};
ghost use Rattle.guest_image.specs.Fetch.{fetched_word, text_loaded};
ghost use Rattle.guest_image.specs.ImageValue.{IsTask};

use crate::fault::ImageFault;
use crate::limits::{check_limits, fault_length};
use crate::memory_map::TEXT_START;
use std::marker::Model;

/// Whether a domain's timestamps count.
#[derive(Clone, Copy, Debug, PartialEq, Eq)]
pub enum Kind {
    /// Each timestamp is taken as 0.
    Unordered,
    /// Tasks are ordered by their timestamps.
    Ordered,
}

/// An initial task of the image.
#[derive(Clone, Copy, Debug, PartialEq, Eq)]
pub struct ImageTask {
    /// The address of its first instruction. It may lie outside the text: the task then traps when it runs.
    pub entry: u32,
    /// Its timestamp.
    pub ts: u32,
    /// Its arguments, in the registers x10 to x12 at its start.
    pub args: [u32; 3],
}

/// A program, its data and its initial tasks, within the limits of the format: at most 65,536 words of text,
/// 16,777,216 bytes of data that begin with the initial bytes, a window of at most 4,096 words that lies in the
/// data from a multiple of 4 on, and 1 to 65,536 tasks. Its fields are private, so that reading and making go
/// through one place.
#[derive(Drop)]
pub struct Image {
    version: u16,
    kind: Kind,
    text: Vec<u32>,
    initial: Vec<u8>,
    data_size: u32,
    window_offset: u32,
    window_words: u32,
    tasks: Vec<ImageTask>,
}

impl Model for Image {
    ghost use Rattle.guest_image.specs.ImageValue.{ImageValue, IsImage, image_value, in_version};

    ghost Value = { ImageValue };

    ghost view = { λ i. in_version i.version
        (image_value i.kind i.text.items i.initial.items i.data_size i.window_offset i.window_words i.tasks.items) };

    ghost invariant = { λ i.
        IsImage (in_version i.version
        (image_value i.kind i.text.items i.initial.items i.data_size i.window_offset i.window_words i.tasks.items)) };
}

/// A value of the type is a task of words.
fn visit(task: ImageTask)
    ensures { IsTask task }
{}

/// Goes over the tasks and changes nothing. That each is a task of words is known of a value that is read, and of a
/// list of them once it was gone over.
fn visit_all(tasks: &[ImageTask])
    ensures { All IsTask tasks.now }
{
    for task in tasks {
        visit(*task);
    }
}

impl Image {
    ghost use Rattle.guest_image.specs.ImageValue.{IsImage, IsVersion, image_value, in_version};
    ghost use Rattle.guest_image.specs.Limits.{AreWithinLimits, AreInLimits, image_made};

    /// An image of version 1 of the given values, or the first of the limits that they exceed, in the order in which
    /// the limits of a header are tried. `kind` is that of the root domain; `data_size` and `window_offset` are in
    /// bytes. A list longer than 4,294,967,295 is reported as that number. It allocates no memory.
    ///
    /// The contract states its result twice: by the table of faults, and when it is Ok.
    #[tactic(auto, unfolding(crate::specs::Limits::image_made))]
    pub fn new(
        kind: Kind,
        text: Vec<u32>,
        initial: Vec<u8>,
        data_size: u32,
        window_offset: u32,
        window_words: u32,
        tasks: Vec<ImageTask>,
    ) -> Result<Image, ImageFault>
        ensures made { result ≡ image_made
            (image_value kind text.items initial.items data_size window_offset window_words tasks.items) }
        ensures accepted { IsOk result ↔ AreInLimits
            (image_value kind text.items initial.items data_size window_offset window_words tasks.items) }
    {
        check_limits(
            fault_length(text.len()),
            fault_length(initial.len()),
            data_size,
            window_offset,
            window_words,
            fault_length(tasks.len()),
        )?;
        Ok(Image::from_parts(
            1,
            kind,
            text,
            initial,
            data_size,
            window_offset,
            window_words,
            tasks,
        ))
    }

    /// The image of values within the limits.
    pub(crate) fn from_parts(
        version: u16,
        kind: Kind,
        text: Vec<u32>,
        initial: Vec<u8>,
        data_size: u32,
        window_offset: u32,
        window_words: u32,
        tasks: Vec<ImageTask>,
    ) -> Image
        requires version { IsVersion version }
        requires limits { AreInLimits
            (image_value kind text.items initial.items data_size window_offset window_words tasks.items) }
        ensures { result ≡ in_version version
            (image_value kind text.items initial.items data_size window_offset window_words tasks.items) }
    {
        visit_all(&tasks);
        Image {
            version,
            kind,
            text,
            initial,
            data_size,
            window_offset,
            window_words,
            tasks,
        }
    }

    /// The version: 1, or 2, where each task has a stack, more children and deeper domains.
    pub fn version(&self) -> u16
        ensures value { result ≡ self.now.version }
        ensures known { IsVersion result }
    {
        self.version
    }

    /// This image in version 2. It allocates no memory.
    pub fn upgrade(self) -> Image
        ensures { result ≡ in_version 2 self }
    {
        Image { version: 2, ..self }
    }

    /// The kind of the root domain.
    pub fn kind(&self) -> Kind
        ensures { result ≡ self.now.kind }
    {
        self.kind
    }

    /// The words of the text, the first of them at the address `TEXT_START`.
    pub fn text(&self) -> &[u32]
        ensures { result.now ≡ self.now.text }
    {
        &self.text
    }

    /// The bytes with which the data begin; the others are 0.
    pub fn initial(&self) -> &[u8]
        ensures value { result.now ≡ self.now.initial }
        ensures limits { IsImage self.now }
    {
        &self.initial
    }

    /// The size of the data in bytes.
    pub fn data_size(&self) -> u32
        ensures { result ≡ self.now.data_size }
    {
        self.data_size
    }

    /// The window in the data: its offset in bytes, and how many words it has.
    pub fn window(&self) -> (u32, u32)
        ensures { result ≡ (self.now.window_offset, self.now.window_words) }
    {
        (self.window_offset, self.window_words)
    }

    /// The initial tasks.
    pub fn tasks(&self) -> &[ImageTask]
        ensures value { result.now ≡ self.now.tasks }
        ensures limits { IsImage self.now }
    {
        &self.tasks
    }

    /// The word of the text at an address; None where the address isn't a multiple of 4 or lies outside the text.
    pub fn fetch(&self, addr: u32) -> Option<u32>
        ensures { result ≡ fetched_word self.now.text addr }
    {
        if addr % 4 != 0 || addr < TEXT_START {
            return None;
        }
        self.text.get((addr - TEXT_START) as usize / 4).copied()
    }

    /// 1, 2 or 4 bytes of the text as a little-endian number, at an address that is a multiple of their number;
    /// None where they lie outside the text.
    pub fn text_load(&self, addr: u32, bytes: u32) -> Option<u32>
        requires width { (bytes ≡ 1) ⊎ (bytes ≡ 2) ⊎ (bytes ≡ 4) }
        requires aligned { addr % bytes ≡ 0 }
        ensures value { result ≡ text_loaded self.now.text addr bytes }
        ensures small { IfSome result (λ raw. raw < 2 ^ (8 * bytes)) }
    {
        if addr < TEXT_START {
            return None;
        }
        let word = *self.text.get((addr - TEXT_START) as usize / 4)?;
        let low = word >> (8 * (addr % 4));
        Some(match bytes {
            1 => low % 0x100,
            2 => low % 0x1_0000,
            _ => low,
        })
    }
}
