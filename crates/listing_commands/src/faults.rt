//! The command `faults`: the faults of a netlist's circuit, each with its root and its name.

ghost use Rattle.std.specs.Prelude.{◌≡◌, ◌<◌, ◌++◌, All, IfOk, OnOk, length, []};
ghost use Rattle.net_model.specs.Circuit.{line_count};
ghost use Rattle.net_model.specs.Fault.{IsFaultOf};
ghost use Rattle.net_model.specs.FaultList.{faults as faults_of};
ghost use Rattle.fault_list.specs.Names.{fault_name};
ghost use Rattle.fault_collapse.specs.Forest.{number_count};
ghost use Rattle.listing_commands.specs.Texts.{line_start};
ghost use Rattle.listing_commands.specs.Faults.{IsFaultsText, faults_text, fault_lines, fault_fields};
ghost use Rattle.listing_commands.specs.Plans.{faults_plan};
ghost use Rattle.run_steps.specs.Plans.{says};
ghost use Rattle.run_steps.specs.Ran.{Follows, netlist_endings};

use crate::texts::{count_text, line_start};
use diag_shelf::Shelf;
use fault_collapse::{Forest, collapse};
use fault_list::{FaultList, list, name_text};
use net_model::{Design, Fault};
use run_steps::{RunFault, read_design, say};
use std::alloc::{AllocError, Global};

/// Reads and judges the netlist `bench`, and prints the faults of its circuit: a line for each, with its number, that
/// of its root and its name, and their counts.
///
/// Returns `Refused` with the kind of a file exactly if this file is the first of those that it reads to be refused,
/// unless it returns another error; then no file was created or changed, and the console gained the text of the
/// refusal. Returns `ReadFailed` only if the count of read faults rose; then no file was created or changed, and
/// nothing was printed. Returns `WriteFailed` only if the count of write faults rose, and `NoMemory` if memory is
/// missing; then it did nothing, or a part of what words and files call for: a beginning of the file, if the command
/// makes one, and a beginning of the text, none before the file is whole; if a read failed it did nothing. Files other
/// than its output are as before in any case. If the count of read faults is greater it returns `ReadFailed` or
/// `NoMemory`; if that of write faults is, `WriteFailed` or `NoMemory`. Unless it returns one of these three errors,
/// the file that it read last is read to its end, or to one byte past the limit of its kind. On a sure shelf that holds
/// each file that it reads, up to the first that is refused, no count rises. What is said of files and of the console
/// holds on a shelf that tells them.
pub fn list_faults<S: Shelf>(alloc: Global, shelf: &mut S, bench: &str) -> Result<(), RunFault>
    ensures { Follows (faults_plan bench.now) netlist_endings [] result (S.state shelf.old) (S.state shelf.new) }
{
    let design = read_design(alloc, shelf, bench)?;
    print_faults(alloc, shelf, &design)
}

// Prints the faults of a circuit.
fn print_faults<S: Shelf>(alloc: Global, shelf: &mut S, design: &Design) -> Result<(), RunFault>
    requires { length design.now.names ≡ line_count design.now.circuit }
    ensures { Follows (says (IsFaultsText design.now)) netlist_endings [] result (S.state shelf.old) (S.state shelf.new) }
{
    let text = faults_text(alloc, design)?;
    say(shelf, &text)
}

// Returns a line for each fault, and the line with how many faults and roots there are.
fn faults_text(alloc: Global, design: &Design) -> Result<Vec<u8>, AllocError>
    requires { length design.now.names ≡ line_count design.now.circuit }
    ensures { IfOk result (λ text. IsFaultsText design.now text.items) }
{
    let listed = list(alloc, &design.circuit)?;
    let forest = collapse(alloc, &design.circuit, &listed)?;
    lines_text(alloc, design, &listed, &forest)
}

// Returns the lines of a circuit's faults with the roots of `forest`, and the line with their counts.
fn lines_text(
    alloc: Global,
    design: &Design,
    listed: &FaultList,
    forest: &Forest,
) -> Result<Vec<u8>, AllocError>
    requires named { length design.now.names ≡ line_count design.now.circuit }
    requires some { 0 < length listed.now }
    requires listed { listed.now ≡ faults_of design.now.circuit }
    requires stand { All (IsFaultOf design.now.circuit) listed.now }
    requires forest { number_count forest.now ≡ length listed.now }
    ensures { IfOk result (λ text. text.items ≡ faults_text design.now forest.now) }
{
    let mut text = Vec::new(alloc);
    push_faults(&mut text, design, listed, forest)?;
    let count = count_text(alloc, listed.len() - 1, forest.root_count())?;
    text.extend_from_slice(count.as_bytes())?;
    Ok(text)
}

// Appends a line for each fault.
fn push_faults(
    text: &mut Vec<u8>,
    design: &Design,
    listed: &FaultList,
    forest: &Forest,
) -> Result<(), AllocError>
    requires named { length design.now.names ≡ line_count design.now.circuit }
    requires listed { listed.now ≡ faults_of design.now.circuit }
    requires stand { All (IsFaultOf design.now.circuit) listed.now }
    requires forest { number_count forest.now ≡ length listed.now }
    ensures { OnOk result (text.new.items ≡ text.old.items ++ fault_lines design.now forest.now) }
{
    for number in 0..listed.len() {
        push_fault(
            text,
            design,
            &listed.get(number),
            number,
            forest.root(number),
        )?;
    }
    Ok(())
}

// Appends the line of a fault with this number and the number of its root.
#[tactic(auto, unfolding(crate::specs::Faults::fault_fields))]
fn push_fault(
    text: &mut Vec<u8>,
    design: &Design,
    fault: &Fault,
    number: u32,
    root: u32,
) -> Result<(), AllocError>
    requires named { length design.now.names ≡ line_count design.now.circuit }
    requires fault { IsFaultOf design.now.circuit fault.now }
    ensures { OnOk result (text.new.items ≡ text.old.items ++ fault_fields design.now fault.now number root) }
{
    push_start(text, number, root)?;
    push_name(text, design, fault)?;
    text.push(b'\n')?;
    Ok(())
}

// Appends the number of a fault and that of its root.
fn push_start(text: &mut Vec<u8>, number: u32, root: u32) -> Result<(), AllocError>
    ensures { OnOk result (text.new.items ≡ text.old.items ++ line_start number root) }
{
    let start = line_start(*text.allocator(), number, root)?;
    text.extend_from_slice(start.as_bytes())
}

fn push_name(text: &mut Vec<u8>, design: &Design, fault: &Fault) -> Result<(), AllocError>
    requires named { length design.now.names ≡ line_count design.now.circuit }
    requires fault { IsFaultOf design.now.circuit fault.now }
    ensures { OnOk result (text.new.items ≡ text.old.items ++ fault_name design.now.circuit design.now.names fault.now) }
{
    let name = name_text(*text.allocator(), design, fault)?;
    text.extend_from_slice(&name)
}
