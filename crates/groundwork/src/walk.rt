// From line to line of a volume.
ghost use Rattle.std.specs.Prelude.{◌≡◌, ◌<◌};
ghost use Rattle.account.specs.Walk.{seen_from};

use account::{Pos, Volume};
use lines::Seen;
use lines::forms::look;
use rules::LineForm;

// The next line of a volume, whose bytes are `body`. Where there is none it is as an ignored line, the volume's last: so a volume without
// lines ends early at line 0.
pub fn next_line(body: &[u8], v: Volume, p: Pos) -> Seen
    requires { p.line < 4294967295 }
    ensures { result ≡ seen_from body.now v p }
{
    look(body, v.at, p.at, v.number, p.line + 1).unwrap_or(Seen {
        form: LineForm::Ignored,
        next: p.at,
        last: true,
    })
}
