//! Systems, each with its needs or its fault.

ghost use Rattle.std.specs.Prelude.{◌<◌};

use least_needs::*;
use std::alloc::{AllocError, Global};
use std::test::Fail;

/// A system by the cost and the targets of each term of each statement.
fn system(alloc: Global, rows: &[&[(u64, &[usize])]]) -> Result<Terms, AllocError> {
    let mut system = Terms::new(alloc);
    for row in rows {
        let mut terms = Vec::new(alloc);
        for &(cost, targets) in *row {
            let targets = match targets {
                [] => Targets::Nowhere,
                [target] => Targets::One(*target),
                [target, other, ..] => Targets::Two(*target, *other),
            };
            terms.push(Term { cost, targets })?;
        }
        system.add(&terms)?;
    }
    Ok(system)
}

/// What `solve` answers, if each target is a statement.
fn solved(alloc: Global, system: &Terms) -> Option<Result<Vec<u64>, Fault>> {
    if system.is_closed() {
        Some(solve(alloc, system))
    } else {
        None
    }
}

fn cycle_of(outcome: Result<Vec<u64>, Fault>) -> Option<Vec<usize>> {
    match outcome {
        Err(Fault::Cycle(nodes)) => Some(nodes),
        _ => None,
    }
}

fn large_of(outcome: Result<Vec<u64>, Fault>) -> Option<usize> {
    match outcome {
        Err(Fault::TooLarge(statement)) => Some(statement),
        _ => None,
    }
}

/// Systems with their needs: no statement; branches, calls and targets before; and the greatest need that is small enough.
const NEEDS: [(&[&[(u64, &[usize])]], &[u64]); 4] = [
    (&[], &[]),
    (
        &[
            &[(100, &[1]), (200, &[2])],
            &[(100, &[4, 3]), (500, &[])],
            &[(0, &[3])],
            &[(300, &[])],
            &[(100, &[3, 3])],
        ],
        &[1_200, 1_100, 300, 300, 700],
    ),
    (
        &[&[(100, &[])], &[(7, &[0])], &[(8, &[1])]],
        &[100, 107, 115],
    ),
    (
        &[&[(0, &[1])], &[(1, &[2, 2])], &[(2_147_483_647, &[])]],
        &[4_294_967_295, 4_294_967_295, 2_147_483_647],
    ),
];

#[test]
fn needs(rt: HostRuntime) -> Result<(), Fail> {
    for (rows, expected) in NEEDS {
        let system = system(rt.alloc(), rows)?;
        let needs = solved(rt.alloc(), &system).ok_or("not closed")??;
        assert_eq!(rt; needs.as_slice(), expected);
    }
    Ok(())
}

/// Systems with the first statement of a need that is too large.
const TOO_LARGE: [(&[&[(u64, &[usize])]], usize); 3] = [
    (&[&[(4_294_967_296, &[])]], 0),
    (&[&[(u64::MAX, &[1, 1])], &[(1, &[])]], 0),
    (&[&[(1, &[])], &[(2, &[2, 2])], &[(2_147_483_647, &[])]], 1),
];

#[test]
fn too_large(rt: HostRuntime) -> Result<(), Fail> {
    for (rows, expected) in TOO_LARGE {
        let system = system(rt.alloc(), rows)?;
        let outcome = solved(rt.alloc(), &system).ok_or("not closed")?;
        assert_eq!(rt; large_of(outcome).ok_or("not too large")?, expected);
    }
    Ok(())
}

/// Systems with the cycle that is named: of two that of the least statement, the nearer of two targets, and before a need that
/// is too large.
const CYCLES: [(&[&[(u64, &[usize])]], &[usize]); 3] = [
    (
        &[&[(1, &[1])], &[(1, &[2])], &[(1, &[1])], &[(1, &[3])]],
        &[1, 2],
    ),
    (
        &[
            &[(1, &[1]), (1, &[2])],
            &[(1, &[3])],
            &[(1, &[0])],
            &[(1, &[0])],
        ],
        &[0, 2],
    ),
    (&[&[(4_294_967_296, &[])], &[(1, &[1])]], &[1]),
];

#[test]
fn cycles(rt: HostRuntime) -> Result<(), Fail> {
    for (rows, expected) in CYCLES {
        let system = system(rt.alloc(), rows)?;
        let outcome = solved(rt.alloc(), &system).ok_or("not closed")?;
        let cycle = cycle_of(outcome).ok_or("no cycle")?;
        assert_eq!(rt; cycle.as_slice(), expected);
    }
    Ok(())
}

/// A chain of so many calls of the next statement, each of which needs twice as much, and one more, as the next.
fn doubling(alloc: Global, calls: usize) -> Result<Terms, AllocError>
    requires { calls < 1000 }
{
    let mut system = Terms::new(alloc);
    for call in 0..calls {
        system.add(&[Term {
            cost: 1,
            targets: Targets::Two(call + 1, call + 1),
        }])?;
    }
    system.add(&[Term {
        cost: 1,
        targets: Targets::Nowhere,
    }])?;
    Ok(system)
}

#[test]
fn doubling_calls(rt: HostRuntime) -> Result<(), Fail> {
    let system = doubling(rt.alloc(), 31)?;
    let needs = solved(rt.alloc(), &system).ok_or("not closed")??;
    assert_eq!(rt; needs.first().copied(), Some(4_294_967_295));
    for calls in [32, 40, 200] {
        let system = doubling(rt.alloc(), calls)?;
        let outcome = solved(rt.alloc(), &system).ok_or("not closed")?;
        assert_eq!(rt; large_of(outcome).ok_or("not too large")?, 0);
    }
    Ok(())
}

#[test]
fn large_chain(rt: HostRuntime) -> Result<(), Fail> {
    const STEPS: usize = 200_000;
    let mut system = Terms::with_capacity(rt.alloc(), STEPS + 1, STEPS + 1)?;
    for step in 0..STEPS {
        system.add(&[Term {
            cost: 10,
            targets: Targets::One(step + 1),
        }])?;
    }
    system.add(&[Term {
        cost: 100,
        targets: Targets::Nowhere,
    }])?;
    let needs = solved(rt.alloc(), &system).ok_or("not closed")??;
    assert_eq!(rt; needs.len(), STEPS + 1);
    assert_eq!(rt; needs.first().copied(), Some(2_000_100));
    Ok(())
}

#[test]
fn large_cycle(rt: HostRuntime) -> Result<(), Fail> {
    const STATEMENTS: usize = 200_000;
    let mut system = Terms::with_capacity(rt.alloc(), STATEMENTS, STATEMENTS)?;
    for statement in 0..STATEMENTS {
        system.add(&[Term {
            cost: 10,
            targets: Targets::One((statement + 1) % STATEMENTS),
        }])?;
    }
    assert_eq!(rt; system.len(), STATEMENTS);
    let outcome = solved(rt.alloc(), &system).ok_or("not closed")?;
    let cycle = cycle_of(outcome).ok_or("no cycle")?;
    assert_eq!(rt; cycle.len(), STATEMENTS);
    assert_eq!(rt; cycle.last().copied(), Some(STATEMENTS - 1));
    Ok(())
}

#[test]
fn not_closed(rt: HostRuntime) -> Result<(), Fail> {
    let open: [&[&[(u64, &[usize])]]; 3] = [
        &[&[(1, &[1])]],
        &[&[(1, &[])], &[(1, &[0, 2])]],
        &[&[(1, &[]), (1, &[2, 0])], &[(1, &[0])]],
    ];
    for rows in open {
        let system = system(rt.alloc(), rows)?;
        assert!(rt; solved(rt.alloc(), &system).is_none());
    }
    Ok(())
}
