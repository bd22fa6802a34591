// The lines of a volume, one after the other.
ghost use Rattle.std.specs.Prelude.{◌≡◌};
ghost use Rattle.steps.specs.VolumeLines.{after_element, completes_of, next_now, last_step};
ghost use Rattle.standing.specs.Reading.{through_of, stop_of, volume_desk, VolumeReady, VolumePromise};

use crate::line::step;
use account::{
    BLOCK_ELEMENTS, BLOCK_TOP, HEADER_LENGTH, LineAt, MOST_LAYERS, MOST_ROWS, Now, Pos, ROWS_TEXT,
    SCRATCH_LENGTH, Step, TURN_EOF, TURN_FILE, Volume, Where,
};
use elements::skip::skip_block;
use groundwork::blocks::at_block;
use groundwork::putting::{own_after, put_done, within};
use groundwork::walk::next_line;
use leaves::truth::both;
use rules::{Class, LineForm, Refusal, Rule};

fn after_element(here: Now) -> bool
    ensures { result ≡ after_element here }
{
    here.block == BLOCK_TOP && here.part == TURN_EOF
}

// Is the volume complete after this line? By its structure: in the last volume EOF after ELEMENT, in others ELEMENT's end.
fn completes(here: Now, form: LineForm, last: bool) -> bool
    ensures { result ≡ completes_of here form last }
{
    if last {
        return after_element(here) && matches!(form, LineForm::Eof);
    }
    if here.block == BLOCK_ELEMENTS {
        return matches!(form, LineForm::Close);
    }
    after_element(here) && matches!(form, LineForm::Ignored)
}

// The next volume begins anew.
fn next_volume(here: Now) -> Now
    ensures { result ≡ next_now here }
{
    if here.block == BLOCK_TOP {
        at_block(here, BLOCK_TOP, TURN_FILE)
    } else {
        here
    }
}

// The last line of a volume: 9 where it is not complete, or the line's own number where that is smaller.
fn at_last(complete: bool, did: Step) -> Step
    ensures { result ≡ last_step complete did }
{
    match did {
        Step::Go(n) if complete => Step::Go(next_volume(n)),
        Step::Stop(k) if complete || k <= 9 => Step::Stop(k),
        _ => Step::Stop(Rule::Order as u8),
    }
}

fn refused(v: Volume, number: u8, line: u32) -> Result<Now, Refusal>
    ensures { result ≡ stop_of v number line }
{
    Err(Refusal {
        number,
        volume: v.number,
        line,
    })
}

// A volume's last line was read.
fn closed(v: Volume, line: u32, did: Step) -> Result<Now, Refusal>
    ensures { result ≡ through_of v line did }
{
    match did {
        Step::Go(n) => Ok(n),
        Step::Skip(_) => refused(v, Rule::Order as u8, line),
        Step::Stop(k) => refused(v, k, line),
    }
}

// "blocks nest to depth 4, the opener being 1"
const SKIPPED_DEPTH: u8 = 4;

// A volume, from its first line to its last: `body` is its part of the spool. The spool is lent beside it, for names that stand elsewhere. What
// only a block needs that is open begins anew in each volume. A line's records stand on the scratch till they are complete; the table has room for
// `limit` of them, or holds none.
pub fn read_volume(
    s: &[u8],
    body: &[u8],
    following: &[u8],
    class: Class,
    v: Volume,
    begin: Now,
    tally: &mut [u32],
    symbols: &mut [u32],
    layers: &mut [u32],
    serials: &mut [u64],
    used_all: &mut [bool],
    limit: usize,
    t: &mut [i64],
) -> Result<Now, Refusal>
    requires { VolumeReady class s.now body.now v limit (volume_desk begin tally.old symbols.old layers.old serials.old used_all.old) t.old }
    ensures { VolumePromise class s.now body.now v limit following.now (volume_desk begin tally.old symbols.old layers.old serials.old used_all.old) t.old (λ n. volume_desk n tally.new symbols.new layers.new serials.new used_all.new) t.new result }
{
    let mut used = [false; MOST_LAYERS];
    let mut marks = [false; MOST_ROWS];
    let mut inner = [false; ROWS_TEXT];
    let mut header = [0i64; HEADER_LENGTH];
    let mut scratch = [0i64; SCRATCH_LENGTH];
    let mut here = begin;
    let mut own = 0;
    let mut pos = Pos { at: v.at, line: 0 };
    let first = v.number == 1;
    let last_volume = following.len() == 0;
    // No `for`: each line, or the end of a skipped block, says where the next one begins.
    loop {
        let seen = next_line(body, v, pos);
        if seen.next == pos.at {
            return refused(v, Rule::Order as u8, pos.line);
        }
        let complete = completes(here, seen.form, last_volume);
        let place = Where {
            volume: v.number,
            line: pos.line + 1,
            ends: both(last_volume, seen.last),
        };
        let answer = step(
            s,
            following,
            LineAt {
                here,
                form: seen.form,
                at: place,
                class,
            },
            tally,
            symbols,
            layers,
            serials,
            &mut used,
            used_all,
            &mut marks,
            &mut inner,
            &mut header,
            &mut scratch,
        );
        let did = within(limit, answer);
        pos = Pos {
            at: seen.next,
            line: pos.line + 1,
        };
        if seen.last {
            return closed(v, pos.line, at_last(complete, did));
        }
        match did {
            Step::Go(n) => {
                put_done(first, here, n, own, &header, &mut scratch, t);
                own = own_after(here, own);
                here = n;
            }
            Step::Skip(n) => {
                here = n;
                pos = skip_block(s, body, v, pos, SKIPPED_DEPTH)?;
            }
            Step::Stop(k) => {
                return refused(v, k, pos.line);
            }
        }
    }
}
