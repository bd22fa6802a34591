// The rewriter.
ghost use Rattle.std.specs.Prelude.{◌≡◌, length};
ghost use Rattle.rules.specs.Answers.{rewrite_answer, rewrite_output};
ghost use Rattle.sets.specs.SetReading.{IsAccepted};

use crate::reader::judge;
use leaves::NoRoom;
use leaves::write::clear;
use rules::{Refusal, Rule};
use volumes::put_set;

// An accepted spool's fixed form and zeros behind it; "20 output shorter than the written set".
fn write_set(s: &[u8], out: &mut [u8]) -> Result<u32, Refusal>
    requires { IsAccepted s.now }
    ensures { (result ≡ rewrite_answer (length out.old) s.now) × (out.new ≡ rewrite_output (length out.old) s.now) }
{
    match put_set(s, out) {
        Ok(n) => {
            clear(&mut out[n..]);
            Ok(n as u32)
        }
        Err(NoRoom) => {
            clear(out);
            Err(Refusal {
                number: Rule::Output as u8,
                volume: 0,
                line: 0,
            })
        }
    }
}

// A spool and a lent output: the answer, and the spool's fixed form in the output. It is judged first, as the reader judges it at class
// 15, so nothing is written of a spool that is refused: the output is then all zeros. Accepted, it is zero behind the last byte, whatever
// it held before.
pub fn rewrite(s: &[u8], out: &mut [u8]) -> Result<u32, Refusal>
    ensures { (result ≡ rewrite_answer (length out.old) s.now) × (out.new ≡ rewrite_output (length out.old) s.now) }
{
    match judge(s) {
        Ok(_) => write_set(s, out),
        Err(f) => {
            clear(out);
            Err(f)
        }
    }
}
