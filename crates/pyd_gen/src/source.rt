//! The text of the generated source.
ghost use Rattle.std.specs.Prelude.{◌≡◌, ◌<◌, ◌++◌, IfOk, OnOk};
ghost use Rattle.std.specs.String.{string_bytes};
ghost use Rattle.pyd_gen.specs.Source as spec;

use pyd_value::NoMemory;
use std::alloc::{AllocError, Global};

/// How many functions the text defines and calls.
const PARTS: u64 = 40;

/// How many different texts there are: the numbers that parts add are below it.
const TEXTS: u64 = 101;

/// The first lines: the import, and the pure function that every part calls.
const HEADING: &str =
    "from pydron import schedule, functional\n\n@functional\ndef work(x, y):\n    t = 0\n    for i in range(20):\n        t = t + x + y\n    return t\n\n";

/// The generated source of this number, in ASCII (docs/FORMATS.md, "The generated source").
pub fn make_source(alloc: Global, number: u64) -> Result<Vec<u8>, NoMemory>
    ensures { IfOk result (λ bytes. bytes.items ≡ spec.source number) }
{
    let mut text = String::from_str(alloc, HEADING)?;
    for part in 0..PARTS {
        text.push_str(&part_text(alloc, part, addend(number, part))?)?;
    }
    text.push_str("total = 0\n")?;
    for part in 0..PARTS {
        add_total(alloc, &mut text, part)?;
    }
    Ok(text.into_bytes())
}

/// What part number `part` hands to `work` in each turn, below `TEXTS`.
fn addend(number: u64, part: u64) -> u64
    requires { part < PARTS }
    ensures { result ≡ spec.addend number part }
{
    ((number % TEXTS) * 31 + part * 17) % TEXTS
}

/// The lines that define a part.
fn part_text(alloc: Global, part: u64, addend: u64) -> Result<String, AllocError>
    ensures { IfOk result (λ text. string_bytes text ≡ spec.part_lines part addend) }
{
    format!(in alloc;
        "@schedule\ndef part{part}():\n    s = 0\n    for i in range(50):\n        s = s + work(i, {addend})\n    return s\n\n"
    )
}

/// Adds the line that adds a part's sum, and after every tenth part the line that prints the total.
fn add_total(alloc: Global, text: &mut String, part: u64) -> Result<(), AllocError>
    requires { part < PARTS }
    ensures { OnOk result
        (string_bytes text.new ≡ string_bytes text.old ++ spec.total_lines part) }
{
    text.push_str(&format!(in alloc; "total = total + part{part}()\n")?)?;
    let made = part + 1;
    if made % 10 == 0 {
        text.push_str(&format!(in alloc; "print({made}, total)\n")?)?;
    }
    Ok(())
}
