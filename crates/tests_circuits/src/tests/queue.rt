//! Numbers that wait; the lowest is taken first.

ghost use Rattle.std.specs.Prelude.{◌≡◌, length};

use event_queue::NumberQueue;
use sample_circuits::all_below;
use std::test::Fail;

// A step with a queue: a number or several begin to wait, or the lowest is taken and is the expected one.
#[derive(Clone, Copy)]
enum QueueStep<'a> {
    Insert(u32),
    Wake(&'a [u32]),
    Take(Option<u32>),
}

// Returns whether the step can be done, and takes what it should. The queue has the numbers below `count`.
fn goes(queue: &mut NumberQueue, count: usize, step: QueueStep) -> bool
    requires { length queue.old ≡ count }
    ensures { length queue.new ≡ count }
{
    match step {
        QueueStep::Insert(number) => {
            if number as usize >= count {
                return false;
            }
            queue.insert(number);
            true
        }
        QueueStep::Wake(numbers) => {
            if !all_below(numbers, count) {
                return false;
            }
            queue.wake(numbers);
            true
        }
        QueueStep::Take(expected) => queue.take_lowest(0) == expected,
    }
}

const STEPS: &[QueueStep] = &[
    QueueStep::Take(None),
    QueueStep::Insert(129),
    QueueStep::Insert(64),
    QueueStep::Wake(&[63, 64, 70]),
    QueueStep::Take(Some(63)),
    QueueStep::Insert(3),
    QueueStep::Take(Some(3)),
    QueueStep::Take(Some(64)),
    QueueStep::Take(Some(70)),
    QueueStep::Take(Some(129)),
    QueueStep::Take(None),
];

#[test]
fn the_lowest_is_taken_first(rt: HostRuntime) -> Result<(), Fail> {
    let mut queue = NumberQueue::new(rt.alloc(), 130)?;
    for (number, step) in STEPS.iter().enumerate() {
        assert!(rt; goes(&mut queue, 130, *step), "step {number}");
    }
    Ok(())
}

// Returns whether two numbers that wait are taken, and then none.
fn gives_two(queue: &mut NumberQueue) -> bool {
    queue.take_lowest(0) == Some(0)
        && queue.take_lowest(0) == Some(1)
        && queue.take_lowest(0) == None
}

#[test]
fn all_wait(rt: HostRuntime) -> Result<(), Fail> {
    let mut queue = NumberQueue::all(rt.alloc(), 2)?;
    assert!(rt; gives_two(&mut queue));
    Ok(())
}

#[test]
fn none_waits(rt: HostRuntime) -> Result<(), Fail> {
    let mut queue = NumberQueue::new(rt.alloc(), 0)?;
    assert!(rt; queue.take_lowest(0) == None);
    Ok(())
}
