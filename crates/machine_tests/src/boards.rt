//! Boards on which a run is published: what a reader sees on one thread, after another reader was joined, and from
//! another thread.

ghost use Rattle.std.specs.Prelude.{◌≡◌, ◌++◌, ◌∷◌, [], ◌^◌, ◌-◌};
ghost use Rattle.progress_cell.specs.Readings.{IsAtMost, last_of};

use progress_cell::{Board, Reader, Reading, Writer};
use std::sync::Wait;
use std::test::Fail;
use std::thread::join;

/// How many readings a thread publishes or reads.
const ROUNDS: u32 = 1_000;

/// A reading of so many commits and so much output.
fn reading(commits: u32, output: u64) -> Reading
    ensures { result ≡ record { commits = commits; output = output } }
{
    Reading { commits, output }
}

/// What a reader sees after a reading was published.
fn reading_after<R: Wait>(
    rt: &R,
    board: &Board,
    writer: &mut Writer,
    reader: &mut Reader,
    told: Reading,
) -> Reading
    requires writer { writer.old.board ≡ board.now }
    requires reader { reader.old.board ≡ board.now }
    requires rises { IsAtMost (last_of writer.old.told) told }
    ensures writer { writer.new ≡ record writer.old { told = writer.old.told ++ told ∷ [] } }
    ensures reader { reader.new.board ≡ board.now }
{
    board.publish(rt, writer, told);
    board.read(rt, reader)
}

#[test]
fn a_new_board_tells_that_nothing_is_committed(rt: HostRuntime) -> Result<(), Fail> {
    let (_board, writer) = Board::new(rt.alloc())?;
    assert_eq!(rt; writer.last(), reading(0, 0));
    Ok(())
}

#[test]
fn a_reader_sees_what_was_told_last(rt: HostRuntime) -> Result<(), Fail> {
    let (board, mut writer) = Board::new(rt.alloc())?;
    let mut reader = board.reader(&mut writer);
    let first = reading_after(&rt, &board, &mut writer, &mut reader, reading(1, 1));
    assert_eq!(rt; first, reading(1, 1));
    let second = reading_after(&rt, &board, &mut writer, &mut reader, reading(2, 1));
    assert_eq!(rt; second, reading(2, 1));
    assert_eq!(rt; writer.last(), reading(2, 1));
    Ok(())
}

/// The greatest reading.
fn greatest() -> Reading
    ensures { result ≡ record { commits = 2 ^ 32 - 1; output = 2 ^ 64 - 1 } }
{
    reading(u32::MAX, u64::MAX)
}

/// A reader that was split off one that was joined then.
fn split_off<R: Wait>(rt: &R, board: &Board, writer: &mut Writer) -> Reader
    requires { writer.old.board ≡ board.now }
    ensures writer { writer.new ≡ writer.old }
    ensures reader { result.board ≡ board.now }
{
    let mut first = board.reader(writer);
    let second = board.split(&mut first);
    board.join(rt, writer, first);
    second
}

#[test]
fn a_reader_that_was_split_reads_on_after_the_first_was_joined(
    rt: HostRuntime,
) -> Result<(), Fail> {
    let (board, mut writer) = Board::new(rt.alloc())?;
    board.publish(&rt, &mut writer, greatest());
    let mut second = split_off(&rt, &board, &mut writer);
    let last = reading_after(&rt, &board, &mut writer, &mut second, greatest());
    assert_eq!(rt; last, greatest());
    board.join(&rt, &mut writer, second);
    assert_eq!(rt; writer.last(), greatest());
    Ok(())
}

/// Publishes as many readings as there are rounds.
fn tell<R: Wait>(rt: &R, board: &Board, mut writer: Writer) -> Writer
    requires { writer.board ≡ board.now }
    ensures { result.board ≡ board.now }
{
    for _ in 0..ROUNDS {
        let last = writer.last();
        let next = Reading {
            commits: last.commits.saturating_add(1),
            output: last.output,
        };
        board.publish(rt, &mut writer, next);
    }
    writer
}

/// Reads as many times as there are rounds, and returns whether no reading had fewer commits than the one before it.
fn follow<R: Wait>(rt: &R, board: &Board, mut reader: Reader) -> (Reader, bool)
    requires { reader.board ≡ board.now }
    ensures { result.0.board ≡ board.now }
{
    let mut rises = true;
    let mut before = 0;
    for _ in 0..ROUNDS {
        let commits = board.read(rt, &mut reader).commits;
        rises &= before <= commits;
        before = commits;
    }
    (reader, rises)
}

#[test]
fn a_reader_in_a_thread_of_its_own_never_goes_back(rt: HostRuntime) -> Result<(), Fail> {
    let (board, mut writer) = Board::new(rt.alloc())?;
    let reader = board.reader(&mut writer);
    let (mut writer, (mut reader, rises)) = join(
        &rt,
        || tell(&rt, &board, writer),
        || follow(&rt, &board, reader),
    );
    assert!(rt; rises);
    assert_eq!(rt; writer.last(), reading(ROUNDS, 0));
    assert_eq!(rt; board.read(&rt, &mut reader), reading(ROUNDS, 0));
    board.join(&rt, &mut writer, reader);
    Ok(())
}
