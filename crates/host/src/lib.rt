// The reader and the rewriter as the plot server's host, written in C, calls them (include/ploverdell.h): crate host_c hands them to C.
#![tactic(auto)]

ghost use Rattle.std.specs.Prelude.{◌≡◌, length};
ghost use Rattle.rules.specs.Answers.{answer_count, read_answer, read_table, packed, check_answer, rewrite_answer, rewrite_output};

use rules::Refusal;
use sets::{check, read, rewrite};

// "answers one number: answer + 100 × volume + 10,000 × line"
fn pack(a: Result<u32, Refusal>) -> u64
    ensures { result ≡ packed a }
{
    match a {
        Ok(_) => 0,
        Err(f) => f.number as u64 + 100 * f.volume as u64 + 10000 * f.line as u64,
    }
}

fn count_of(a: Result<u32, Refusal>) -> u64
    ensures { result ≡ answer_count a }
{
    match a {
        Ok(n) => n as u64,
        Err(_) => 0,
    }
}

// The room of the check: "a table of 256 records of its own".
const OWN_RECORDS: u32 = 256;

// The check: "takes spool and class, uses a table of 256 records of its own"; "whatever takes a class takes its wire part". Nobody sees that
// table, so its records are counted and none is laid out, 64 KB of the host's small stack.
pub fn ploverdell_check(spool: &[u8], cls: u64, wire: u64) -> u64
    ensures { result ≡ check_answer cls wire spool.now }
{
    pack(check(spool, cls, wire, OWN_RECORDS))
}

// The reader: the packed number, the records in the lent table, and how many they are.
pub fn ploverdell_read(spool: &[u8], cls: u64, wire: u64, table: &mut [i64], count: &mut u64) -> u64
    ensures { (result ≡ packed (read_answer cls wire (length table.old) spool.now)) × (table.new ≡ read_table cls wire (length table.old) spool.now) × (count.new ≡ answer_count (read_answer cls wire (length table.old) spool.now)) }
{
    let a = read(spool, cls, wire, table);
    *count = count_of(a);
    pack(a)
}

// The rewriter: the packed number, the fixed form in the lent output, and how many bytes it has.
pub fn ploverdell_rewrite(spool: &[u8], out: &mut [u8], count: &mut u64) -> u64
    ensures { (result ≡ packed (rewrite_answer (length out.old) spool.now)) × (out.new ≡ rewrite_output (length out.old) spool.now) × (count.new ≡ answer_count (rewrite_answer (length out.old) spool.now)) }
{
    let a = rewrite(spool, out);
    *count = count_of(a);
    pack(a)
}
