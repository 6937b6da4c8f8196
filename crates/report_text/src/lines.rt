// The report's lines, each written behind what stands there.
ghost use Rattle.std.specs.Prelude.{◌≡◌, ◌+◌, ◌*◌, ◌≤◌, length};
ghost use Rattle.stage.specs.Answers.{number_of};
ghost use Rattle.report_text.specs.Text.{separated, numbers, line, refusal_line};
ghost use Rattle.report_text.specs.Promises.{numbers_room, line_room, Room, WrittenIn, Empty, ReportAt};

use stage::{Estimated, Refusal};
use text::Writer;

// A line's transform by name, its filters by place, and what the search found with them.
#[derive(Clone, Copy)]
pub struct Line<'a> {
    pub name: &'a [u8],
    pub filters: &'a [u8],
    pub found: Estimated,
}

fn put_filters(to: &mut Writer, filters: &[u8])
    requires { to.old.at + 4 * length filters.now ≤ length to.old.text.now }
    ensures same { to.new.text.ghost_name ≡ to.old.text.ghost_name }
    ensures written { WrittenIn to.old.text.now to.old.at (4 * length filters.now) (separated 32 filters.now) to.new.text.now to.new.at }
{
    let mut separator = b' ';
    for filter in filters {
        to.put_field(separator, *filter as u32);
        separator = b',';
    }
}

// A search's estimate and number of samples, and what both give for each sample, with the rest.
fn put_numbers(to: &mut Writer, found: Estimated)
    requires { Room to.old.text.now to.old.at numbers_room found.samples }
    ensures same { to.new.text.ghost_name ≡ to.old.text.ghost_name }
    ensures written { WrittenIn to.old.text.now to.old.at numbers_room (numbers found) to.new.text.now to.new.at }
{
    let each = found.estimate / found.samples;
    let rest = found.estimate % found.samples;
    to.put_field(b' ', found.estimate);
    to.put_field(b' ', found.samples);
    to.put_field(b' ', each);
    to.put_field(b' ', rest);
}

pub fn put_line(to: &mut Writer, l: Line)
    requires { Room to.old.text.now to.old.at (line_room l.name.now l.filters.now) l.found.samples }
    ensures same { to.new.text.ghost_name ≡ to.old.text.ghost_name }
    ensures written { WrittenIn to.old.text.now to.old.at (line_room l.entry.name.now l.entry.filters.now) (line l.entry.name.now l.entry.filters.now l.entry.found) to.new.text.now to.new.at }
{
    to.put_bytes(l.name);
    put_filters(to, l.filters);
    put_numbers(to, l.found);
    to.put_byte(b'\n');
}

// The refusal is all of the report.
pub fn put_refusal(to: &mut Writer, refusal: Refusal)
    requires { Empty to.old.text.now to.old.at }
    ensures same { to.new.text.ghost_name ≡ to.old.text.ghost_name }
    ensures written { ReportAt to.old.text.now (refusal_line (number_of refusal)) to.new.text.now to.new.at }
{
    to.put_bytes(b"refused");
    to.put_field(b' ', refusal.number());
    to.put_byte(b'\n');
}
