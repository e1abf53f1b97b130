//! The words that the format fixes.
ghost use Rattle.std.specs.Prelude.{◌≡◌, option_map, Some, if◌then◌else◌};
ghost use Rattle.std.specs.Str.{str_eq_ignore_ascii_case};
ghost use Rattle.bench_reader.specs.Grammar.{Named, driver_of, is_word, takes, observed_phrase};
ghost use Rattle.bench_reader.specs.Shapes.{driver_in, port_phrase};

use net_model::Kind;

/// What a gate word means.
#[derive(Clone, Copy)]
pub(crate) enum Driver {
    Gate(Kind),
    FlipFlop,
}

// Returns whether two words are the same in any ASCII case.
fn same_word(word: &[u8], other: &[u8]) -> bool
    ensures { result ≡ str_eq_ignore_ascii_case word.now other.now }
{
    word.eq_ignore_ascii_case(other)
}

/// Returns what a word in the place of a gate means, if it is a gate word.
pub(crate) fn driver_of(word: &[u8]) -> Option<Driver>
    ensures { option_map driver_in result ≡ driver_of word.now }
{
    let found = None;
    let found = says(
        word,
        b"CONST1".as_slice(),
        Driver::Gate(Kind::Const1),
        found,
    );
    let found = says(
        word,
        b"CONST0".as_slice(),
        Driver::Gate(Kind::Const0),
        found,
    );
    let found = says(word, b"MUX".as_slice(), Driver::Gate(Kind::Mux), found);
    let found = says(word, b"DFF".as_slice(), Driver::FlipFlop, found);
    let found = says(word, b"BUF".as_slice(), Driver::Gate(Kind::Buff), found);
    let found = says(word, b"BUFF".as_slice(), Driver::Gate(Kind::Buff), found);
    let found = says(word, b"NOT".as_slice(), Driver::Gate(Kind::Not), found);
    let found = says(word, b"XNOR".as_slice(), Driver::Gate(Kind::Xnor), found);
    let found = says(word, b"XOR".as_slice(), Driver::Gate(Kind::Xor), found);
    let found = says(word, b"NOR".as_slice(), Driver::Gate(Kind::Nor), found);
    let found = says(word, b"OR".as_slice(), Driver::Gate(Kind::Or), found);
    let found = says(word, b"NAND".as_slice(), Driver::Gate(Kind::Nand), found);
    let found = says(word, b"AND".as_slice(), Driver::Gate(Kind::And), found);
    found
}

// Returns `driver` if the word is this keyword, and else what was found before.
fn says(word: &[u8], keyword: &[u8], driver: Driver, found: Option<Driver>) -> Option<Driver>
    ensures { option_map driver_in result ≡ (if is_word keyword.now word.now then Some (driver_in driver) else option_map driver_in found) }
{
    if same_word(word, keyword) {
        Some(driver)
    } else {
        found
    }
}

/// Returns whether a gate can have this number of pins.
pub(crate) fn takes(driver: Driver, pins: usize) -> bool
    ensures { result ≡ takes (driver_in driver) pins }
{
    match driver {
        Driver::Gate(Kind::Const0 | Kind::Const1) => pins == 0,
        Driver::FlipFlop | Driver::Gate(Kind::Not | Kind::Buff) => pins == 1,
        Driver::Gate(Kind::Mux) => pins == 3,
        Driver::Gate(Kind::And | Kind::Nand | Kind::Or | Kind::Nor | Kind::Xor | Kind::Xnor) => {
            pins > 0
        }
    }
}

/// What the word before a bracket at the start of a statement means.
#[derive(Clone, Copy)]
pub(crate) enum Port {
    Input,
    Output,
}

/// Returns which of `INPUT` and `OUTPUT` a word is, if it is one of them.
pub(crate) fn port_of(word: &[u8]) -> Option<Port>
    ensures { (n : Named) → option_map (λ port. port_phrase port n) result ≡ observed_phrase word.now n }
{
    if same_word(word, b"INPUT".as_slice()) {
        return Some(Port::Input);
    }
    if same_word(word, b"OUTPUT".as_slice()) {
        return Some(Port::Output);
    }
    None
}
