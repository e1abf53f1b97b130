//! Runs of `suspects`, `cover` and `bridges` with a log of more lines than there are lanes.

use crate::tests::runs::left_by;
use std::alloc::Global;
use std::process::Abort;
use std::test::Fail;

// One OR of 260 inputs. An input stuck at 0 has an odd number, starting at 1, and stuck at 1 the next one; the output
// stuck at 0 has 521, and stuck at 1 522. The inputs stuck at 1 have the root 522.
const INPUTS: u32 = 260;

fn one_or(alloc: Global) -> Result<String, Fail> {
    let mut text = String::from_str(alloc, "OUTPUT(z)\nINPUT(i0)\n")?;
    let mut gate = String::from_str(alloc, "z = OR(i0")?;
    for input in 1..INPUTS {
        writeln!(text, "INPUT(i{input})")?;
        write!(gate, ", i{input}")?;
    }
    writeln!(text, "{gate})")?;
    Ok(text)
}

// Appends the line of the pattern with a 1 at one input alone, or with none if no input has this number.
fn push_pattern(text: &mut String, one: u32) -> Result<(), Fail> {
    text.push_str("pattern ")?;
    for input in 0..INPUTS {
        text.push_str(if input == one { "1" } else { "0" })?;
    }
    text.push_str("\n")?;
    Ok(())
}

// Appends the patterns of the result: for each input the one with a 1 there alone, and the one with no 1.
fn push_patterns(text: &mut String) -> Result<(), Fail> {
    for one in 0..INPUTS + 1 {
        push_pattern(text, one)?;
    }
    Ok(())
}

// Appends the evidence: the inputs stuck at 1 and the output stuck at 1 are in the class of 2, and have its root.
fn push_evidence(text: &mut String) -> Result<(), Fail> {
    for input in 1..INPUTS + 1 {
        let number = 2 * input + 2;
        writeln!(text, "same {number} 2 C")?;
    }
    Ok(())
}

// Appends the classes. Each pattern except the last splits an input stuck at 0 off the class of 0. The first pattern
// splits it off together with the output stuck at 0, and the second pattern distinguishes these two. The last pattern
// splits off what is stuck at 1.
fn push_classes(text: &mut String) -> Result<(), Fail> {
    text.push_str("class 0 - -\nclass 1 0 0\nclass 2 0 1\nclass 3 1 1\n")?;
    for pattern in 2..INPUTS + 1 {
        let class = pattern + 2;
        writeln!(text, "class {class} 0 {pattern}")?;
    }
    Ok(())
}

fn push_members(text: &mut String) -> Result<(), Fail> {
    text.push_str(
        "member 0 0 rep\nmember 1 1 rep\nmember 2 262 rep\nmember 3 2 rep\nmember 4 262 equal\n",
    )?;
    for input in 2..INPUTS {
        let (low, high) = (2 * input + 1, 2 * input + 2);
        let class = input + 2;
        writeln!(text, "member {low} {class} rep\nmember {high} 262 equal")?;
    }
    text.push_str("member 521 3 rep\nmember 522 262 equal\nend\n")?;
    Ok(())
}

fn result_of_or(alloc: Global) -> Result<String, Fail> {
    let mut text = String::from_str(alloc, "diatest 1 260 1 523\nbudget 0 64 2000\n")?;
    push_patterns(&mut text)?;
    push_evidence(&mut text)?;
    push_classes(&mut text)?;
    push_members(&mut text)?;
    Ok(text)
}

// Returns the log of a chip that answers 0 to these patterns, and answers all others as the good one does: 1, and 0 to
// the last.
fn log_of(alloc: Global, failing: &[u32]) -> Result<String, Fail> {
    let mut log = String::new(alloc);
    for pattern in 0..INPUTS {
        let bit = u8::from(!failing.contains(&pattern));
        writeln!(log, "{pattern} {bit}")?;
    }
    writeln!(log, "{INPUTS} 0")?;
    Ok(log)
}

// Whether `suspects`, `cover` and `bridges` (the first two) print this of the chip that answers 0 to these patterns.
fn are_printed(
    alloc: Global,
    failing: &[u32],
    suspects: &[u8],
    cover: &[u8],
    bridges: &[u8],
) -> Result<bool, Fail> {
    let netlist = one_or(alloc)?;
    let made = result_of_or(alloc)?;
    let log = log_of(alloc, failing)?;
    let files = [
        ("n", netlist.as_bytes()),
        ("r", made.as_bytes()),
        ("l", log.as_bytes()),
    ];
    let listed = left_by(alloc, 4096, &[], &files, &["suspects", "n", "r", "l"])?;
    let covered = left_by(alloc, 4096, &[], &files, &["cover", "n", "r", "l"])?;
    let words = ["bridges", "n", "r", "l", "--most", "2"];
    let bridged = left_by(alloc, 4096, &[], &files, &words)?;
    Ok(listed.ended(0, suspects) && covered.ended(0, cover) && bridged.ended(0, bridges))
}

const OF_BOTH: &[u8] = b"521 2 2 0 258\n1 1 1 1 0\n519 1 1 1 0\nlisted 3 failing 2 logged 261\n";

const OF_LAST: &[u8] = b"519 1 1 0 0\n521 1 1 0 259\nlisted 2 failing 1 logged 261\n";

const SHORTS_OF_BOTH: &[u8] =
    b"and i0 i259 2 0\ndominant i1 z 2 257\nlisted 2 of 259 exact 1 failing 2 logged 261\n";

const SHORTS_OF_LAST: &[u8] =
    b"dominant i0 i259 1 0\ndominant i1 i259 1 0\nlisted 2 of 777 exact 259 failing 1 logged 261\n";

// One chip fails at a pattern of either block, and one at a pattern of the last block alone. The output stuck at 0
// gives a 0 also at each other pattern with a 1.
#[test]
fn logs_of_two_blocks(rt: HostRuntime) -> Result<(), Fail> {
    let alloc = rt.alloc();
    let by_output = b"521 2\nlisted 1 explained 2 failing 2\n";
    assert!(rt; are_printed(alloc, &[0, 259], OF_BOTH, by_output, SHORTS_OF_BOTH)?);
    let by_input = b"519 1\nlisted 1 explained 1 failing 1\n";
    assert!(rt; are_printed(alloc, &[259], OF_LAST, by_input, SHORTS_OF_LAST)?);
    Ok(())
}
