//! Sets of nodes that are closed under what pulls, by abort_cascade.

use abort_cascade::{Pulls, Spreader, close, close_listed, closed_sets, mark};

/// Four nodes, of which 0 pulls 2, 2 pulls 3, and nothing else pulls.
struct Four;

impl Pulls for Four {
    ghost use Rattle.std.specs.Prelude.{◌==◌, ◌&&◌, ◌||◌};

    ghost count = { λ _. 4 };

    ghost pull = { λ _ a b. (a == 0 && b == 2) || (a == 2 && b == 3) };

    fn len(&self) -> usize {
        4
    }

    fn pulls(&self, a: usize, b: usize) -> bool {
        (a == 0 && b == 2) || (a == 2 && b == 3)
    }
}

/// Two nodes, of which none pulls the other.
struct Apart;

impl Spreader for Apart {
    ghost use Rattle.std.specs.Prelude.{false};

    ghost count = { λ _. 2 };

    ghost pull = { λ _ a b. false };

    ghost knows = { λ _. Unit {0} };

    fn spread(&self, _: usize, _: &mut [bool], _: &mut [usize], found: usize) -> usize {
        found
    }
}

#[test]
fn a_node_is_marked_with_all_that_it_pulls(rt: HostRuntime) {
    assert_eq!(rt; Four.len(), 4);
    let mut marks = [false, true, false, false];
    mark(&Four, 0, &mut marks);
    assert_eq!(rt; marks, [true, false, true, true]);
}

#[test]
fn marks_grow_to_the_least_closed_set(rt: HostRuntime) {
    let mut marks = [false, true, true, false];
    let mut members = [0; 4];
    assert_eq!(rt; close(&Four, &mut marks, &mut members), 3);
    assert_eq!(rt; marks, [false, true, true, true]);
    assert_eq!(rt; members, [1, 2, 3, 0]);
    closed_sets();
}

#[test]
fn listed_nodes_that_pull_nothing_are_closed(rt: HostRuntime) {
    let mut marks = [false, true];
    let mut members = [1, 0];
    assert_eq!(rt; close_listed(&Apart, &mut marks, &mut members, 1), 1);
    assert_eq!(rt; marks, [false, true]);
    assert_eq!(rt; members[0], 1);
}
