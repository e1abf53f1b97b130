//! The names of faults.

ghost use Rattle.std.specs.Prelude.{◌≡◌, ◌<◌, ◌++◌, ◌∷◌, IfOk, OnOk, decimal, false, length, slice_index};
ghost use Rattle.std.specs.List.{join_with_byte};
ghost use Rattle.net_model.specs.Ascii.{space};
ghost use Rattle.net_model.specs.Circuit.{line_count, pins_of};
ghost use Rattle.net_model.specs.Fault.{IsFaultOf};
ghost use Rattle.fault_list.specs.Names.{fault_name, site_fields};

use net_model::{Circuit, Design, Fault, Site};
use std::alloc::{AllocError, Global};

/// Returns the name of a fault: `free`, or the kind of its site, the names and numbers that say where it is, and the
/// stuck value, with one blank between two of them. Kind `S` has a line; `G` the line that a pin reads, the gate and
/// the pin; and `O` the observed line and the position.
pub fn name_text(alloc: Global, design: &Design, fault: &Fault) -> Result<Vec<u8>, AllocError>
    requires fault { IsFaultOf design.now.circuit fault.now }
    requires names { length design.now.names ≡ line_count design.now.circuit }
    ensures { IfOk result (λ text. text.items ≡ fault_name design.now.circuit design.now.names fault.now) }
{
    match *fault {
        Fault::Free => Vec::from_slice(alloc, b"free"),
        Fault::Stuck(site, bit) => {
            let mut text = site_text(alloc, design, site)?;
            add_field(&mut text, if bit { b"1" } else { b"0" })?;
            Ok(text)
        }
    }
}

// Returns the name of a fault without its value.
fn site_text(alloc: Global, design: &Design, site: Site) -> Result<Vec<u8>, AllocError>
    requires fault { IsFaultOf design.now.circuit (Fault.Stuck site false) }
    requires names { length design.now.names ≡ line_count design.now.circuit }
    ensures { IfOk result (λ text. text.items ≡ join_with_byte space (site_fields design.now.circuit design.now.names site)) }
{
    let mut text = Vec::new(alloc);
    add_site(&mut text, design, site)?;
    Ok(text)
}

// Adds the fields of a site, with one blank between two of them.
fn add_site(text: &mut Vec<u8>, design: &Design, site: Site) -> Result<(), AllocError>
    requires fault { IsFaultOf design.now.circuit (Fault.Stuck site false) }
    requires names { length design.now.names ≡ line_count design.now.circuit }
    ensures { OnOk result (text.new.items ≡ text.old.items ++ join_with_byte space (site_fields design.now.circuit design.now.names site)) }
{
    let names = &design.names;
    match site {
        Site::Stem(line) => {
            text.push(b'S')?;
            add_field(text, names.text(line))
        }
        Site::Pin(gate, pin) => {
            text.push(b'G')?;
            add_field(text, names.text(read_line(&design.circuit, gate, pin)))?;
            add_field(text, names.text(gate))?;
            add_number(text, pin)
        }
        Site::Position(at) => {
            text.push(b'O')?;
            add_field(text, names.text(design.circuit.positions()[at as usize]))?;
            add_number(text, at)
        }
    }
}

// Returns the line that a pin of a gate reads.
fn read_line(circuit: &Circuit, gate: u32, pin: u32) -> u32
    requires { pin < length (pins_of circuit.now gate) }
    ensures line { result ≡ slice_index (pins_of circuit.now gate) pin }
    ensures inside { result < line_count circuit.now }
    ensures driven { gate < line_count circuit.now }
{
    circuit.gate(gate).pins.as_slice()[pin as usize]
}

// Adds a blank and a field.
fn add_field(text: &mut Vec<u8>, field: &[u8]) -> Result<(), AllocError>
    ensures { OnOk result (text.new.items ≡ text.old.items ++ space ∷ field.now) }
{
    text.push(b' ')?;
    text.extend_from_slice(field)
}

// Adds a blank and the decimal digits of a number.
fn add_number(text: &mut Vec<u8>, number: u32) -> Result<(), AllocError>
    ensures { OnOk result (text.new.items ≡ text.old.items ++ space ∷ decimal number) }
{
    let digits = number.to_string(*text.allocator())?;
    add_field(text, digits.as_bytes())
}
