// The three functions for hosts written in C, under the names that include/ploverdell.h has: each hands its call on to crate host.
#![tactic(auto)]

ghost use Rattle.std.specs.Prelude.{◌≡◌, length};
ghost use Rattle.rules.specs.Answers.{answer_count, read_answer, read_table, packed, check_answer, rewrite_answer, rewrite_output};

// The check: see host::ploverdell_check.
#[unsafe(no_mangle)]
pub extern "C" fn ploverdell_check(spool: &[u8], cls: u64, wire: u64) -> u64
    ensures { result ≡ check_answer cls wire spool.now }
{
    host::ploverdell_check(spool, cls, wire)
}

// The reader: see host::ploverdell_read.
#[unsafe(no_mangle)]
pub extern "C" fn ploverdell_read(
    spool: &[u8],
    cls: u64,
    wire: u64,
    table: &mut [i64],
    count: &mut u64,
) -> u64
    ensures { (result ≡ packed (read_answer cls wire (length table.old) spool.now)) × (table.new ≡ read_table cls wire (length table.old) spool.now) × (count.new ≡ answer_count (read_answer cls wire (length table.old) spool.now)) }
{
    host::ploverdell_read(spool, cls, wire, table, count)
}

// The rewriter: see host::ploverdell_rewrite.
#[unsafe(no_mangle)]
pub extern "C" fn ploverdell_rewrite(spool: &[u8], out: &mut [u8], count: &mut u64) -> u64
    ensures { (result ≡ packed (rewrite_answer (length out.old) spool.now)) × (out.new ≡ rewrite_output (length out.old) spool.now) × (count.new ≡ answer_count (rewrite_answer (length out.old) spool.now)) }
{
    host::ploverdell_rewrite(spool, out, count)
}
