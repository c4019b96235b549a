//! The window of an image in a memory.

ghost use Rattle.std.specs.Prelude.{◌≡◌, ◌<◌, ◌≤◌, length};
ghost use Rattle.report_text.specs.Report.{window_word};

use crate::report::WindowWord;
use byteorder::{ByteOrder, LittleEndian};
use guest_image::{DATA_START, Image};

/// How many words the window has.
pub(crate) fn window_len(image: &Image) -> u32
    ensures value { result ≡ image.now.window_words }
    ensures limit { result ≤ 4096 }
{
    // An image is within its limits.
    let _ = image.initial();
    let (_, words) = image.window();
    words
}

/// The word of the window at a place, counted from 0.
#[tactic(auto, unfolding(guest_image::specs::Numbers::word_at))]
pub(crate) fn word_of(image: &Image, memory: &[u8], place: u32) -> WindowWord
    requires memory { length memory.now ≡ image.now.data_size }
    requires place { place < image.now.window_words }
    ensures { result ≡ window_word image.now memory.now place }
{
    // The image's window lies in its data.
    let _ = image.initial();
    let (offset, _) = image.window();
    let at = offset + 4 * place;
    WindowWord {
        addr: DATA_START + at,
        value: LittleEndian::read_u32(memory.split_at(at as usize).1),
    }
}
