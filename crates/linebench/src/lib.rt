// The splitting of a spool for callers from C, so that its speed can be measured beside plain C: bench/split.c.
#![tactic(auto)]

ghost use Rattle.std.specs.Prelude.{◌≡◌};
ghost use Rattle.rules.specs.Spool.{volumes_of};
ghost use Rattle.lines.specs.LineEnds.{first_unsound};
ghost use Rattle.lines.specs.LineLook.{look_in};
ghost use Rattle.lines.specs.VolumePlaces.{layout_of};
ghost use Rattle.linebench.specs.Packed.{kind_of, packed};

use lines::ends::first_unsound;
use lines::forms::look;
use lines::spool::volumes;
use rules::LineForm;

// The first volume that breaks rule 3, of the volumes that the spool has.
#[unsafe(no_mangle)]
pub extern "C" fn linebench_unsound(s: &[u8]) -> u32
    ensures { result ≡ first_unsound s.now (layout_of (volumes_of s.now)) }
{
    first_unsound(s, volumes(s))
}

// What a line is: the place of its key or of what stands behind its `=`, a refusal's number, or a number below 3.
fn kind_of(f: LineForm) -> u32
    ensures { result ≡ kind_of f }
{
    match f {
        LineForm::Ignored => 0,
        LineForm::Close => 1,
        LineForm::Eof => 2,
        LineForm::Opens(o) => o.key.at,
        LineForm::Equals(q) => q.rest.at,
        LineForm::Refused(r) => r.number as u32,
    }
}

// A look in one number: 0 for the end, else the next line's place, and what the line is.
#[unsafe(no_mangle)]
pub extern "C" fn linebench_look(body: &[u8], base: u32, at: u32, volume: u8, line: u32) -> u64
    ensures { result ≡ packed (look_in volume line base at body.now) }
{
    match look(body, base, at, volume, line) {
        None => 0,
        Some(f) => {
            let form = f.form;
            f.next as u64 * 4294967296 + kind_of(form) as u64
        }
    }
}
