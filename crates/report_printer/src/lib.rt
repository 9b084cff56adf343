#![tactic(auto)]
// The report's lines, written one behind the other into a lent buffer, from what is found of a table.
// Flow sets go beside the program: any list serves, and `stages::Solved` is a program with its own.
// Casts are by `as`: a report's numbers are below 1,000,000, and `TryFrom` would answer with a `Result` that cannot fail.
ghost use Rattle.std.specs.Prelude.{◌≡◌, true, map, ◌+◌, ◌≤◌, pos, length};
ghost use Rattle.lines.specs.Line.{all_in_field, line_text};
ghost use Rattle.table.specs.Header.{statements};
ghost use Rattle.table.specs.Table.{table_of};
ghost use Rattle.report.specs.ReportTextLaws.{Line8};
ghost use Rattle.findings.specs.Found.{Found};
ghost use Rattle.report_printer.specs.Lines.{cell_numbers, total_numbers, cells_by, strays_by, text_from, RoomFor};
ghost use Rattle.report_printer.specs.Written.{Written};
ghost use Rattle.report_printer.specs.Printed.{Reports};

use declarations::program::Program;
use findings::Noted;

// What was printed: how many bytes, if the report fits; and whether both totals in line 59 are 0.
#[derive(Clone, Copy)]
pub struct Printed {
    pub bytes: Option<usize>,
    pub clean: bool,
}

// A lent buffer, and how many of its bytes the lines so far take.
#[derive(Drop)]
struct Lines<'a> {
    out: &'a mut [u8],
    used: usize,
}

impl<'a> Lines<'a> {
    // Writes a line behind those so far; all other places stay.
    fn push(&mut self, line: [i32; 8])
        requires { (all_in_field line ≡ true) × (self.old.used + 49 ≤ length self.old.out.now) }
        ensures { Written self.old self.new (line_text line) }
    {
        // It fits, and its numbers are fields.
        let _ = line_printer::print_line(self.out, self.used, line);
        self.used += 49;
    }
}

// Line 51 of cell `x`.
fn cell_line(x: usize, reading: u64, writing: u64, shared: u64, common: u64) -> [i32; 8]
    requires { Line8 (cell_numbers x reading writing shared common) }
    ensures { result ≡ map pos (cell_numbers x reading writing shared common) }
{
    [
        51,
        x as i32,
        reading as i32,
        writing as i32,
        i32::from(sets::has(shared, x)),
        common as i32,
        i32::from(sets::has(shared, x) & sets::is_empty(common)),
        0,
    ]
}

// Writes line 51 of each of the first `count` cells.
fn print_cells(lines: &mut Lines<'_>, shared: u64, noted: &Noted, count: usize)
    requires { RoomFor (cells_by shared noted.now) count lines.old.used lines.old.out.now }
    ensures { Written lines.old lines.new (text_from 0 count (cells_by shared noted.now)) }
{
    for x in 0..count {
        lines.push(cell_line(
            x,
            lists::value_at(&noted.reads, x, 0),
            lists::value_at(&noted.writes, x, 0),
            shared,
            lists::value_at(&noted.common, x, 0),
        ));
    }
}

// Writes line 52 of each stray GIVE.
fn print_strays(lines: &mut Lines<'_>, program: &Program<'_>, flow: &[u64], held: &[u64])
    requires { RoomFor (strays_by program.now flow.now held.now) (statements program.now) lines.old.used lines.old.out.now }
    ensures { Written lines.old lines.new (text_from 0 (statements program.now) (strays_by program.now flow.now held.now)) }
{
    for s in 0..program.statements() {
        if findings::is_stray(
            program.numbers,
            s,
            program.line_of(s),
            flow,
            lists::value_at(held, s, 0),
        ) {
            lines.push([52, s as i32, 0, 0, 0, 0, 0, 0]);
        }
    }
}

// Writes line 59.
fn print_total(lines: &mut Lines<'_>, unguarded: usize, strays: usize)
    requires { Line8 (total_numbers unguarded strays) × (lines.old.used + 49 ≤ length lines.old.out.now) }
    ensures { Written lines.old lines.new (line_text (map pos (total_numbers unguarded strays))) }
{
    lines.push([59, unguarded as i32, strays as i32, 0, 0, 0, 0, 0]);
}

// Writes the report of an accepted table to the start of `out`, the places behind it stay; if it does not fit, no byte is written.
pub fn print_report(
    program: &Program<'_>,
    flow: &[u64],
    held: &[u64],
    shared: u64,
    noted: &Noted,
    out: &mut [u8],
) -> Printed
    requires { Found program.now flow.now held.now shared noted.now }
    ensures { Reports (table_of program.now) out.old out.new result }
{
    let cells = table::field_of(program.numbers, 0, 1);
    let strays = findings::stray_count(program, flow, held);
    let unguarded = findings::unguarded_count(shared, &noted.common, cells);
    let clean = (unguarded == 0) & (strays == 0);
    let bytes = 49 * (cells + strays + 1);
    if out.len() < bytes {
        return Printed { bytes: None, clean };
    }
    let mut lines = Lines { out, used: 0 };
    print_cells(&mut lines, shared, noted, cells);
    print_strays(&mut lines, program, flow, held);
    print_total(&mut lines, unguarded, strays);
    Printed {
        bytes: Some(bytes),
        clean,
    }
}
