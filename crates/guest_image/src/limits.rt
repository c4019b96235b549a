//! The limits of an image's numbers, alike for one that is read and one that is made.

ghost use Rattle.std.specs.Prelude.{◌≡◌, ◌≢◌, ◌↔◌, IfErr, IsOk};
ghost use Rattle.guest_image.specs.Limits.{limits_fault, AreWithinLimits, fault_length as fault_length_lem};

use crate::fault::ImageFault;

const MAX_TEXT_WORDS: u32 = 65_536;

const MAX_DATA_SIZE: u32 = 16_777_216;

const MAX_WINDOW_WORDS: u32 = 4096;

/// How many initial tasks an image has at most.
pub const MAX_TASKS: u32 = 65_536;

/// The fault of a number that is above its limit, with the offset of its field in the header.
fn above(field: u32, value: u32) -> Result<(), ImageFault>
    ensures { result ≡ Err (ImageFault.Limit field value) }
{
    Err(ImageFault::Limit { field, value })
}

/// The first limit that the numbers of an image exceed.
#[tactic(auto, unfolding(crate::specs::Limits::limits_fault))]
pub(crate) fn check_limits(
    text_words: u32,
    initial_len: u32,
    data_size: u32,
    window_offset: u32,
    window_words: u32,
    task_count: u32,
) -> Result<(), ImageFault>
    ensures fault { result ≡ limits_fault text_words initial_len data_size window_offset window_words task_count }
    ensures own { IfErr result (λ fault. fault ≢ ImageFault.Memory) }
    ensures within { IsOk result
        ↔ AreWithinLimits text_words initial_len data_size window_offset window_words task_count }
{
    if text_words > MAX_TEXT_WORDS {
        return above(8, text_words);
    }
    if data_size > MAX_DATA_SIZE {
        return above(16, data_size);
    }
    if initial_len > data_size {
        return above(12, initial_len);
    }
    if window_words > MAX_WINDOW_WORDS {
        return above(24, window_words);
    }
    if task_count > MAX_TASKS {
        return above(28, task_count);
    }
    if window_offset % 4 != 0
        || u64::from(window_offset) + 4 * u64::from(window_words) > u64::from(data_size)
    {
        return Err(ImageFault::Window);
    }
    if task_count == 0 {
        return Err(ImageFault::NoTask);
    }
    Ok(())
}

/// A length in a number of 4 bytes, at most 4,294,967,295.
pub(crate) fn fault_length(length: usize) -> u32
    ensures { result ≡ fault_length_lem length }
{
    u32::try_from(length).unwrap_or(u32::MAX)
}
