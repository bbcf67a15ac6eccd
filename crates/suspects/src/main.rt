// The program: one sheet from standard input, its lines to standard output.
#![tactic(auto)]

ghost use Rattle.std.specs.Prelude.{◌≡◌};
ghost use Rattle.sheet.specs.Reading.{read};
ghost use Rattle.report.specs.Lines.{line_count};

use prepare::ready::Ready;
use prepare::space::Space;
use report::{heading, line};

/// Prints each line as soon as it is known, and stops where nothing more can be written.
fn print_lines(ready: Ready, lines: usize)
    requires { lines ≡ line_count (read ready.sheet.bytes.now) }
{
    for i in 0..lines {
        let mut text = [0u8; 128];
        let end = line(ready, i, &mut text);
        if !io::write_all(1, &text[..end]) {
            return;
        }
    }
}

/// Prepares the sheet, prints the first line, and then those of the objectives.
fn print(sheet: &[u8]) {
    let mut space = Space::new();
    let mut text = [0u8; 128];
    let opening = heading(sheet, &mut space, &mut text);
    if !io::write_all(1, &text[..opening.length]) {
        return;
    }
    if let Ok(sizes) = opening.checked {
        print_lines(space.ready(sheet, sizes), sizes.objectives);
    }
}

// A byte more than the longest sheet is read, so that a longer input is seen to be one.
fn main() {
    let mut bytes = [0u8; 12385];
    let n = io::read_full(0, &mut bytes);
    print(&bytes[..n]);
}
