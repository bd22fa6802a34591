// Skipped lines: "A skipped opener takes all lines to its own `}`".
ghost use Rattle.std.specs.Prelude.{◌≡◌};
ghost use Rattle.rules.specs.Base.{is_some};
ghost use Rattle.rules.specs.Lines.{stem, equals, bytes_at, form_in};
ghost use Rattle.rules.specs.RangeClass.{skip_of};
ghost use Rattle.account.specs.SkippedLines.{skipped_as, skip_content, skipped_by, early_skip, SkipReady, SkipMet};

use account::{Pos, Skipped, Volume};
use entries::names::part;
use groundwork::walk::next_line;
use leaves::bytes::spells;
use rules::{Equation, LineForm, Refusal, Rule};
use tables::keys::CHARACTER;

// Content that ends in `:{`.
fn ends_open(c: &[u8]) -> bool
    ensures { result ≡ is_some (stem c.now) }
{
    let n = c.len();
    n >= 2 && spells(&c[n - 2..], b":{")
}

// "nor is content [empty], so `key=:{` is no form"
fn skip_content(c: &[u8]) -> Skipped
    ensures { result ≡ skip_content c.now }
{
    if !ends_open(c) {
        return Skipped::Passes;
    }
    if c.len() == 2 {
        return Skipped::Refuse(Rule::Form as u8);
    }
    Skipped::Deeper
}

// "on any skipped line `character=` never opens"
fn skip_equation(s: &[u8], q: Equation) -> Skipped
    ensures { result ≡ skipped_as (skip_of (bytes_at s.now q.key) (equals q.rest.at (bytes_at s.now q.rest))) }
{
    if spells(part(s, q.key), &CHARACTER) {
        return Skipped::Passes;
    }
    skip_content(part(s, q.rest))
}

// What a skipped line does. It has some form, or it is refused.
pub(crate) fn skip_line(s: &[u8], form: LineForm) -> Skipped
    ensures { result ≡ skipped_by (form_in s.now form) }
{
    match form {
        LineForm::Ignored => Skipped::Passes,
        LineForm::Close => Skipped::Shut,
        LineForm::Eof => Skipped::Refuse(Rule::Order as u8),
        LineForm::Opens(_) => Skipped::Deeper,
        LineForm::Equals(q) => skip_equation(s, q),
        LineForm::Refused(r) => Skipped::Refuse(r.number),
    }
}

// The number of a volume's last line: the block has not closed.
fn early_skip(did: Skipped) -> u8
    ensures { result ≡ early_skip did }
{
    match did {
        Skipped::Passes | Skipped::Deeper | Skipped::Shut => Rule::Order as u8,
        Skipped::Refuse(n) => n.min(Rule::Order as u8),
    }
}

// From just inside a skipped block of the volume with the bytes `body` to just past its `}`. An inner block is skipped by a call of itself:
// `left` blocks may be open in each other, this one counted.
pub fn skip_block(s: &[u8], body: &[u8], v: Volume, p: Pos, left: u8) -> Result<Pos, Refusal>
    requires { SkipReady p left }
    ensures { SkipMet s.now body.now v p left result }
{
    let mut at = p.at;
    let mut line = p.line;
    loop {
        let seen = next_line(body, v, Pos { at, line });
        let form = seen.form;
        let did = skip_line(s, form);
        at = seen.next;
        line += 1;
        if seen.last {
            return Err(Refusal {
                number: early_skip(did),
                volume: v.number,
                line,
            });
        }
        match did {
            Skipped::Passes => {}
            Skipped::Shut => {
                return Ok(Pos { at, line });
            }
            Skipped::Refuse(n) => {
                return Err(Refusal {
                    number: n,
                    volume: v.number,
                    line,
                });
            }
            Skipped::Deeper => {
                if left == 1 {
                    return Err(Refusal {
                        number: Rule::Nesting as u8,
                        volume: v.number,
                        line,
                    });
                }
                let r = skip_block(s, body, v, Pos { at, line }, left - 1);
                // (not `?`: the walk's proof did not close with it)
                let Ok(q) = r else {
                    return r;
                };
                at = q.at;
                line = q.line;
            }
        }
    }
}
