//! Tests of lists of numbers that are mostly 0, which are read back.

use samediff_dict::SparseNumbers;
use std::alloc::Global;
use std::test::Fail;

// How many numbers a list has, and those that aren't 0, with their places.
type Case = (usize, &'static [(usize, u32)]);

const CASES: &[Case] = &[
    (0, &[]),
    (1, &[]),
    (1, &[(0, 7)]),
    (64, &[]),
    (64, &[(0, 1), (63, 4294967295)]),
    (65, &[(63, 5), (64, 6)]),
    (65, &[(62, 5)]),
    (
        130,
        &[
            (0, 1),
            (1, 2),
            (62, 3),
            (63, 4),
            (64, 5),
            (127, 6),
            (128, 7),
            (129, 8),
        ],
    ),
    // A word of zeros between others.
    (200, &[(63, 9), (64, 8), (199, 7)]),
];

fn number_at(others: &[(usize, u32)], place: usize) -> u32 {
    for (at, number) in others {
        if *at == place {
            return *number;
        }
    }
    0
}

// Returns a list of `count` numbers, begun with room for `room`.
fn sparse_of(
    alloc: Global,
    room: usize,
    count: usize,
    others: &[(usize, u32)],
) -> Result<SparseNumbers, Fail> {
    let mut numbers = SparseNumbers::with_room(alloc, room)?;
    for place in 0..count {
        if numbers.len() > 1000 {
            return Err(Fail::new("there are too many numbers"));
        }
        numbers.push(number_at(others, place))?;
    }
    Ok(numbers)
}

// Returns whether these numbers are at their places.
fn has_others(numbers: &SparseNumbers, others: &[(usize, u32)]) -> bool {
    for (at, number) in others {
        if *at >= numbers.len() || numbers.get(*at) != *number {
            return false;
        }
    }
    true
}

// Returns whether there are `count` numbers, these at their places and 0 at each other place.
fn is_read_back(numbers: &SparseNumbers, count: usize, others: &[(usize, u32)]) -> bool {
    if numbers.len() != count {
        return false;
    }
    for place in 0..count {
        if numbers.get(place) != number_at(others, place) {
            return false;
        }
    }
    has_others(numbers, others)
}

fn holds(alloc: Global, room: usize, case: &Case) -> Result<bool, Fail> {
    let (count, others) = *case;
    let numbers = sparse_of(alloc, room, count, others)?;
    Ok(is_read_back(&numbers, count, others))
}

#[test]
fn sparse_numbers_are_read_back(rt: HostRuntime) -> Result<(), Fail> {
    for (at, case) in CASES.iter().enumerate() {
        assert!(rt; holds(rt.alloc(), 0, case)?, "case {at}");
        assert!(rt; holds(rt.alloc(), 130, case)?, "case {at} with room");
    }
    Ok(())
}
