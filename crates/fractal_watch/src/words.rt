//! The words of the program.

ghost use Rattle.std.specs.Prelude.{◌≡◌, ◌≤◌, ◌∷◌, ◌++◌, IfOk, IfSome, Err, None, Some, codes, length, map, option_map};
ghost use Rattle.std.specs.Str.{bytes_eq};
ghost use Rattle.command_line.specs.Requests.{IsLimited};
ghost use Rattle.watch_play.specs.Texts.{IsTellable};
ghost use Rattle.fractal_watch.specs.Words.{IsInRanges, asking_of_words, starved_in, counts_in, course_in, lockstep_in};
ghost use Rattle.fractal_watch.specs.Words.{telling_in};
ghost use Rattle.fractal_watch.specs.Words.{HasRounds, words_of, course_asked, filter_among, filter_named};
ghost use Rattle.fractal_watch.specs.Words.{filter_place, with_filter};

use crate::watch_text::CourseWord;
use command_line::{Refusal, Request, number_between, read_words};
use line_table::FilterKind;
use spec_state::Settings;
use std::alloc::{AllocError, Global};
use watch_play::Telling;

/// After how many starved rounds in a row the least task is advanced in lockstep, unless the words say otherwise: where
/// rounds get on, it waits for fewer, and so this changes nothing there.
pub const STARVED_ROUNDS: u32 = 16;

/// What the words ask for.
#[derive(Clone, Copy, Debug, PartialEq, Eq)]
pub struct Asking {
    /// The mode.
    pub course: CourseWord,
    /// What is printed of it.
    pub telling: Telling,
    /// The settings, among what the same options would ask of `fractal_sim`.
    pub request: Request,
}

/// What is printed, as the words before a mode say, and the words after them.
#[derive(Clone, Copy)]
struct Told<'a> {
    telling: Telling,
    behind: &'a [&'a str],
}

/// `starved K` in front of other words: K or its default, and the words after it.
#[derive(Clone, Copy)]
struct Starved<'a> {
    starved: u32,
    behind: &'a [&'a str],
}

/// A mode, the command of `fractal_sim` that has its options, and the words after it.
#[derive(Clone, Copy)]
struct Leading<'a> {
    course: CourseWord,
    command: &'a str,
    behind: &'a [&'a str],
}

/// `every K` in front of other words, of which `counts` was the first, or 0.
fn counts_of<'a>(words: &'a [&'a str]) -> Option<Told<'a>>
    ensures value { option_map (λ t. record { telling = t.telling; behind = map (λ w. w.now) t.behind.now }) result
        ≡ counts_in (map (λ w. w.now) words.now) }
    ensures telling { IfSome result (λ t. IsTellable t.telling) }
{
    let Some((word, behind)) = words.split_first() else {
        return None;
    };
    if word.as_bytes() != b"every".as_slice() {
        return Some(Told {
            telling: Telling::Counts(0),
            behind: words,
        });
    }
    let (each, behind) = behind.split_first()?;
    let each = number_between(1, u32::MAX, each)?;
    Some(Told {
        telling: Telling::Counts(each),
        behind,
    })
}

/// `memory`, `views K` or `counts`, with `every K` or not, in front of other words, or none of them.
fn telling_of<'a>(words: &'a [&'a str]) -> Option<Told<'a>>
    ensures value { option_map (λ t. record { telling = t.telling; behind = map (λ w. w.now) t.behind.now }) result
        ≡ telling_in (map (λ w. w.now) words.now) }
    ensures telling { IfSome result (λ t. IsTellable t.telling) }
{
    let Some((word, behind)) = words.split_first() else {
        return None;
    };
    if word.as_bytes() == b"memory".as_slice() {
        return Some(Told {
            telling: Telling::Memory,
            behind,
        });
    }
    if word.as_bytes() == b"counts".as_slice() {
        return counts_of(behind);
    }
    if word.as_bytes() != b"views".as_slice() {
        return Some(Told {
            telling: Telling::Lines,
            behind: words,
        });
    }
    let (each, behind) = behind.split_first()?;
    let each = number_between(1, u32::MAX, each)?;
    Some(Told {
        telling: Telling::Views(each),
        behind,
    })
}

fn starved_of<'a>(words: &'a [&'a str]) -> Option<Starved<'a>>
    ensures value { option_map (λ b. record { starved = b.starved; behind = map (λ w. w.now) b.behind.now }) result
        ≡ starved_in (map (λ w. w.now) words.now) }
    ensures starved { IfSome result (λ b. 1 ≤ b.starved) }
{
    let Some((word, behind)) = words.split_first() else {
        return Some(Starved {
            starved: STARVED_ROUNDS,
            behind: words,
        });
    };
    if word.as_bytes() != b"starved".as_slice() {
        return Some(Starved {
            starved: STARVED_ROUNDS,
            behind: words,
        });
    }
    let (starved, behind) = behind.split_first()?;
    let starved = number_between(1, 1_000_000, starved)?;
    Some(Starved { starved, behind })
}

/// `lockstep ROUNDS SEED`, with `starved K` or not, of which these are the words behind the first.
fn lockstep_of<'a>(words: &'a [&'a str]) -> Option<Leading<'a>>
    ensures value { option_map (λ l. words_of l.course l.command.now l.behind.now) result
        ≡ lockstep_in (map (λ w. w.now) words.now) }
    ensures rounds { IfSome result (λ l. HasRounds l.course) }
{
    let (rounds, behind) = words.split_first()?;
    let (seed, behind) = behind.split_first()?;
    let rounds = number_between(1, 1_000_000, rounds)?;
    let seed = number_between(0, u32::MAX, seed)?;
    let Starved { starved, behind } = starved_of(behind)?;
    Some(Leading {
        course: CourseWord::Lockstep {
            rounds,
            seed,
            starved,
        },
        command: "run",
        behind,
    })
}

fn leading_of<'a>(words: &'a [&'a str]) -> Option<Leading<'a>>
    ensures value { option_map (λ l. words_of l.course l.command.now l.behind.now) result
        ≡ course_in (map (λ w. w.now) words.now) }
    ensures rounds { IfSome result (λ l. HasRounds l.course) }
{
    let (word, behind) = words.split_first()?;
    let word = word.as_bytes();
    if word == b"steps".as_slice() {
        Some(Leading {
            course: CourseWord::Steps,
            command: "steps",
            behind,
        })
    } else if word == b"least".as_slice() {
        Some(Leading {
            course: CourseWord::Least,
            command: "run",
            behind,
        })
    } else if word == b"lockstep".as_slice() {
        lockstep_of(behind)
    } else {
        None
    }
}

/// A word in front of others.
fn in_front<'a>(
    alloc: Global,
    word: &'a str,
    behind: &'a [&'a str],
) -> Result<Vec<&'a str>, AllocError>
    ensures { IfOk result (λ words. map (λ w. w.now) words.items ≡ word.now ∷ map (λ w. w.now) behind.now) }
{
    let mut words = Vec::new(alloc);
    words.push(word)?;
    words.extend_from_slice(behind)?;
    Ok(words)
}

/// What words without `--filter` ask for. `Usage` where they are outside the grammar: `memory`, `views K`, `counts`
/// with `every K` or not, or none of them, then `steps`, `least`, or `lockstep ROUNDS SEED`, with `starved K` or not,
/// and then the options of `fractal_sim`.
#[tactic(auto, unfolding(crate::specs::Words::course_asked))]
fn read_course(alloc: Global, words: &[&str]) -> Result<Asking, Refusal>
    ensures value { IfOk result (λ asking. course_asked (map (λ w. w.now) words.now) ≡ Some asking) }
    ensures usage { result ≡ Err Refusal.Usage → course_asked (map (λ w. w.now) words.now) ≡ None }
    ensures limits { IfOk result (λ asking. IsLimited asking.request) }
    ensures ranges { IfOk result IsInRanges }
{
    let Some(told) = telling_of(words) else {
        return Err(Refusal::Usage);
    };
    let Some(leading) = leading_of(told.behind) else {
        return Err(Refusal::Usage);
    };
    let Ok(words) = in_front(alloc, leading.command, leading.behind) else {
        return Err(Refusal::Memory);
    };
    match read_words(alloc, &words) {
        Ok(request) => Ok(Asking {
            course: leading.course,
            telling: told.telling,
            request,
        }),
        Err(refusal) => Err(refusal),
    }
}

/// The kind of filters, and the words beside that.
#[derive(Drop)]
struct BesideFilter<'a> {
    filter: FilterKind,
    words: Vec<&'a str>,
}

fn filter_named(word: &str) -> Option<FilterKind>
    ensures { result ≡ filter_named word.now }
{
    let word = word.as_bytes();
    if word == b"modulo".as_slice() {
        Some(FilterKind::Modulo)
    } else if word == b"bloom".as_slice() {
        Some(FilterKind::Bloom)
    } else if word == b"exact".as_slice() {
        Some(FilterKind::Exact)
    } else {
        None
    }
}

fn is_filter(word: &str) -> bool
    ensures { result ≡ bytes_eq word.now (codes "--filter") }
{
    word.as_bytes() == b"--filter".as_slice()
}

/// The first place of `--filter` among the words, or how many they are.
fn filter_place(words: &[&str]) -> usize
    ensures place { result ≡ filter_place (map (λ w. w.now) words.now) }
    ensures within { result ≤ length words.now }
{
    for place in 0..words.len() {
        if is_filter(words[place]) {
            return place;
        }
    }
    words.len()
}

/// Two lists of words, one behind the other.
fn joined<'a>(
    alloc: Global,
    before: &'a [&'a str],
    behind: &'a [&'a str],
) -> Result<Vec<&'a str>, AllocError>
    ensures { IfOk result (λ words. map (λ w. w.now) words.items
        ≡ map (λ w. w.now) before.now ++ map (λ w. w.now) behind.now) }
{
    let mut words = Vec::new(alloc);
    words.extend_from_slice(before)?;
    words.extend_from_slice(behind)?;
    Ok(words)
}

/// The kind that `--filter` names among the words, `Modulo` where it isn't there, and the words beside both. `Usage`
/// where it names none.
fn filter_among<'a>(alloc: Global, words: &'a [&'a str]) -> Result<BesideFilter<'a>, Refusal>
    ensures value { IfOk result (λ beside. filter_among (map (λ w. w.now) words.now)
        ≡ Some (record { filter = beside.filter; words = map (λ w. w.now) beside.words.items })) }
    ensures usage { result ≡ Err Refusal.Usage → filter_among (map (λ w. w.now) words.now) ≡ None }
{
    let (before, behind) = words.split_at(filter_place(words));
    let (filter, behind) = match behind.split_first() {
        None => (FilterKind::Modulo, behind),
        Some((_, behind)) => {
            let Some((kind, behind)) = behind.split_first() else {
                return Err(Refusal::Usage);
            };
            let Some(filter) = filter_named(kind) else {
                return Err(Refusal::Usage);
            };
            (filter, behind)
        }
    };
    let Ok(words) = joined(alloc, before, behind) else {
        return Err(Refusal::Memory);
    };
    Ok(BesideFilter { filter, words })
}

/// The same request, with filters of this kind.
fn with_filter(asking: Asking, filter: FilterKind) -> Asking
    ensures { result ≡ with_filter filter asking }
{
    Asking {
        request: Request {
            settings: Settings {
                filter,
                ..asking.request.settings
            },
            ..asking.request
        },
        ..asking
    }
}

/// What the words, without the program's name, ask for: `--filter` with `modulo`, `bloom` or `exact` anywhere among
/// them, once or not, and a mode with its options beside that. `Usage` where they are outside the grammar.
#[tactic(auto, unfolding(crate::specs::Words::asking_of_words))]
pub(crate) fn read_asking(alloc: Global, words: &[&str]) -> Result<Asking, Refusal>
    ensures value { IfOk result (λ asking. asking_of_words (map (λ w. w.now) words.now) ≡ Some asking) }
    ensures usage { result ≡ Err Refusal.Usage → asking_of_words (map (λ w. w.now) words.now) ≡ None }
    ensures limits { IfOk result (λ asking. IsLimited asking.request) }
    ensures ranges { IfOk result IsInRanges }
{
    let beside = match filter_among(alloc, words) {
        Ok(beside) => beside,
        Err(refusal) => return Err(refusal),
    };
    match read_course(alloc, &beside.words) {
        Ok(asking) => Ok(with_filter(asking, beside.filter)),
        Err(refusal) => Err(refusal),
    }
}
