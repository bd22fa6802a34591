// Document 01's worked values, read and written by the leaves and printed: what each text is worth, or `no`, and what is written of it;
// and lines of a text's block, each with what it does there.
#![tactic(auto)]

ghost use Rattle.std.specs.Prelude.{◌≤◌, length};

use entries::Next;
use entries::acts::act;
use leaves::NoRoom;
use leaves::bytes::{all_in, allowed, is_layer_id, spells};
use leaves::numbers::{clock, count, day, decimal, fixed, serial};
use leaves::pieces::decimal_piece;
use leaves::sheets::{ratio, sheet};
use leaves::texts::{fits, text_rule};
use leaves::write::{put_count, put_decimal, put_fixed, put_ratio, put_sheet};
use lines::forms::look;
use rules::Digits;
use std::io;

fn show_text<P: Print>(rt: &P, text: &[u8]) -> io::Result<()> {
    rt.write_all(text)?;
    rt.write_all(b" ")
}

fn show_bool<P: Print>(rt: &P, text: &[u8], ok: bool) -> io::Result<()> {
    show_text(rt, text)?;
    if ok {
        rt.write_all(b"yes\n")
    } else {
        rt.write_all(b"no\n")
    }
}

fn show_count<P: Print>(rt: &P, text: &[u8], c: Option<u64>) -> io::Result<()> {
    show_text(rt, text)?;
    match c {
        Some(n) => {
            rt.print(n)?;
        }
        None => {
            rt.write_all(b"no")?;
        }
    }
    rt.write_all(b"\n")
}

// The text is a decimal of this value, in ten-thousandths.
fn worth<P: Print>(rt: &P, text: &[u8], value: i64) -> io::Result<()> {
    let r = decimal(text);
    match r {
        Some(d) => show_bool(rt, text, d.value == value),
        None => show_bool(rt, text, false),
    }
}

// The text is no decimal.
fn no_decimal<P: Print>(rt: &P, text: &[u8]) -> io::Result<()> {
    let r = decimal(text);
    match r {
        Some(_) => show_bool(rt, text, false),
        None => show_bool(rt, text, true),
    }
}

fn decimals<P: Print>(rt: &P) -> io::Result<()> {
    rt.write_all(b"decimals, worth what document 01 says, and texts that are none\n")?;
    worth(rt, b"1234.56", 12345600)?;
    worth(rt, b"9999999.9999", 99999999999)?;
    worth(rt, b"-9999999.9999", -99999999999)?;
    worth(rt, b"-0", 0)?;
    worth(rt, b"-12.5", -125000)?;
    worth(rt, b"5.0", 50000)?;
    no_decimal(rt, b"12345678")?;
    no_decimal(rt, b"5.")?;
    no_decimal(rt, b".5")?;
    no_decimal(rt, b"+1")?;
    no_decimal(rt, b"1e3")?;
    no_decimal(rt, b"0.00001")?;
    no_decimal(rt, b"")
}

fn days<P: Print>(rt: &P) -> io::Result<()> {
    rt.write_all(b"dates and times\n")?;
    show_count(rt, b"19970401", day(b"19970401"))?;
    show_count(rt, b"19970231", day(b"19970231"))?;
    show_count(rt, b"19971301", day(b"19971301"))?;
    show_count(rt, b"19970132", day(b"19970132"))?;
    show_count(rt, b"1997040", day(b"1997040"))?;
    show_count(rt, b"235959", clock(b"235959"))?;
    show_count(rt, b"240000", clock(b"240000"))?;
    show_count(rt, b"236000", clock(b"236000"))
}

fn counts<P: Print>(rt: &P) -> io::Result<()> {
    rt.write_all(b"counts, serials, types\n")?;
    show_count(rt, b"000000001", count(b"000000001"))?;
    show_count(rt, b"999999999", count(b"999999999"))?;
    show_count(rt, b"0000000001", count(b"0000000001"))?;
    show_count(rt, b"9999999999", serial(b"9999999999"))?;
    show_count(rt, b"00000000001", serial(b"00000000001"))?;
    show_count(rt, b"1307", fixed(b"1307", 4))?;
    show_count(rt, b"130", fixed(b"130", 4))?;
    show_count(rt, b"015", fixed(b"015", 3))
}

fn texts<P: Print>(rt: &P) -> io::Result<()> {
    rt.write_all(b"bytes\n")?;
    show_bool(rt, b"E_151", is_layer_id(b"E_151"))?;
    show_bool(rt, b"E_15", is_layer_id(b"E_15"))?;
    show_bool(rt, b"X_151", is_layer_id(b"X_151"))?;
    show_bool(rt, b"(03)1-2", all_in(b"(03)1-2", 3))?;
    show_bool(rt, b"03/1", all_in(b"03/1", 3))?;
    show_bool(rt, b"A-1.b", all_in(b"A-1.b", 4))?;
    show_bool(rt, b"A:{", all_in(b"A:{", 4))?;
    show_bool(rt, b"a\tb", allowed(b"a\tb"))?;
    show_bool(rt, b"a b", allowed(b"a b"))?;
    show_bool(rt, b"next_file next_fil", spells(b"next_file", b"next_fil"))
}

// The decimal before the first comma has this value, in ten-thousandths, and ends here.
fn piece<P: Print>(rt: &P, text: &[u8], value: i64, end: usize) -> io::Result<()> {
    let p = decimal_piece(text);
    let r = p.reading;
    match r {
        Some(d) => {
            if d.value == value {
                show_bool(rt, text, p.end == end)
            } else {
                show_bool(rt, text, false)
            }
        }
        None => show_bool(rt, text, false),
    }
}

// What stands before the first comma is no decimal, and ends here.
fn no_piece<P: Print>(rt: &P, text: &[u8], end: usize) -> io::Result<()> {
    let p = decimal_piece(text);
    let r = p.reading;
    match r {
        Some(_) => show_bool(rt, text, false),
        None => show_bool(rt, text, p.end == end),
    }
}

fn pieces<P: Print>(rt: &P) -> io::Result<()> {
    rt.write_all(b"values between commas\n")?;
    piece(rt, b"5,5,5.0,5", 50000, 1)?;
    piece(rt, b"5.0,5", 50000, 3)?;
    piece(rt, b"-0,1", 0, 2)?;
    piece(rt, b"-9999999.9999,0", -99999999999, 13)?;
    piece(rt, b"1234.56", 12345600, 7)
}

fn no_pieces<P: Print>(rt: &P) -> io::Result<()> {
    no_piece(rt, b"12345678,5", 8)?;
    no_piece(rt, b"5.,5", 2)?;
    no_piece(rt, b"0.00001,5", 7)?;
    no_piece(rt, b"-,5", 1)?;
    no_piece(rt, b",5", 0)?;
    no_piece(rt, b"5 ,5", 2)
}

fn show_sheet<P: Print>(rt: &P, text: &[u8]) -> io::Result<()> {
    show_text(rt, text)?;
    let r = sheet(text);
    match r {
        Some(s) => {
            rt.print(s.multiplier as u64)?;
            rt.write_all(b" ")?;
            rt.print(s.number as u64)?;
        }
        None => {
            rt.write_all(b"no")?;
        }
    }
    rt.write_all(b"\n")
}

fn sheets<P: Print>(rt: &P) -> io::Result<()> {
    rt.write_all(b"sheets: n and the A number\n")?;
    show_sheet(rt, b"A0")?;
    show_sheet(rt, b"A1")?;
    show_sheet(rt, b"A2")?;
    show_sheet(rt, b"A3")?;
    show_sheet(rt, b"A4")?;
    show_sheet(rt, b"A5")
}

fn large_sheets<P: Print>(rt: &P) -> io::Result<()> {
    show_sheet(rt, b"4A1")?;
    show_sheet(rt, b"8A1")?;
    show_sheet(rt, b"4A2")?;
    show_sheet(rt, b"81A0")?;
    show_sheet(rt, b"1A0")?;
    show_sheet(rt, b"A")?;
    show_sheet(rt, b"a4")
}

fn show_scale<P: Print>(rt: &P, text: &[u8]) -> io::Result<()> {
    show_text(rt, text)?;
    let r = ratio(text);
    match r {
        Ok(s) => {
            rt.print(s.p as u64)?;
            rt.write_all(b" ")?;
            rt.print(s.q as u64)?;
        }
        Err(n) => {
            rt.write_all(b"refused ")?;
            rt.print(n as u64)?;
        }
    }
    rt.write_all(b"\n")
}

fn scales<P: Print>(rt: &P) -> io::Result<()> {
    rt.write_all(b"scales: p and q, or the rule broken\n")?;
    show_scale(rt, b"1")?;
    show_scale(rt, b"1/100")?;
    show_scale(rt, b"99998/99999")
}

fn no_scales<P: Print>(rt: &P) -> io::Result<()> {
    show_scale(rt, b"1/100000")?;
    show_scale(rt, b"0")?;
    show_scale(rt, b"2/1")?;
    show_scale(rt, b"50/50")?;
    show_scale(rt, b"1/")?;
    show_scale(rt, b"1.5")?;
    show_scale(rt, b"1/2/3")
}

// The text may stand for the key with this number.
fn show_free<P: Print>(rt: &P, key: u8, name: &[u8], text: &[u8]) -> io::Result<()> {
    let r = text_rule(key);
    show_bool(rt, name, fits(text, r.most, r.set))
}

fn free_texts<P: Print>(rt: &P) -> io::Result<()> {
    rt.write_all(b"free texts: the most bytes, and one more\n")?;
    let x = [b'x'; 41];
    show_free(rt, 0, b"cad of 20", &x[..20])?;
    show_free(rt, 0, b"cad of 21", &x[..21])?;
    show_free(rt, 3, b"ver of 10", &x[..10])?;
    show_free(rt, 3, b"ver of 11", &x[..11])?;
    show_free(rt, 4, b"corp of 40", &x[..40])?;
    show_free(rt, 4, b"corp of 41", &x)
}

fn longer_texts<P: Print>(rt: &P) -> io::Result<()> {
    let x = [b'x'; 201];
    show_free(rt, 8, b"project of 60", &x[..60])?;
    show_free(rt, 8, b"project of 61", &x[..61])?;
    show_free(rt, 11, b"character of 200", &x[..200])?;
    show_free(rt, 11, b"character of 201", &x)?;
    show_free(rt, 12, b"layer name of 20", &x[..20])?;
    show_free(rt, 12, b"layer name of 21", &x[..21])
}

fn sets_of_bytes<P: Print>(rt: &P) -> io::Result<()> {
    show_free(rt, 6, b"tel (03)1-2", b"(03)1-2")?;
    show_free(rt, 6, b"tel 03/1", b"03/1")?;
    show_free(rt, 1, b"os of B1 hex", b"\xB1")?;
    show_free(rt, 5, b"make of B1 hex", b"\xB1")
}

fn show_written<P: Print>(rt: &P, w: Result<usize, NoRoom>, out: &[u8]) -> io::Result<()> {
    match w {
        Ok(n) => {
            if n <= out.len() {
                rt.write_all(&out[..n])?;
            }
        }
        Err(NoRoom) => {
            rt.write_all(b"no room")?;
        }
    }
    rt.write_all(b"\n")
}

// What is written of a decimal that was read.
fn decimal_again<P: Print>(rt: &P, text: &[u8]) -> io::Result<()> {
    show_text(rt, text)?;
    let mut out = [0u8; 16];
    let r = decimal(text);
    match r {
        Some(d) => {
            let w = put_decimal(d.value, &mut out);
            show_written(rt, w, &out)
        }
        None => rt.write_all(b"no\n"),
    }
}

fn count_again<P: Print>(rt: &P, text: &[u8]) -> io::Result<()> {
    show_text(rt, text)?;
    let mut out = [0u8; 16];
    let c = serial(text);
    match c {
        Some(n) => {
            let w = put_count(n, &mut out);
            show_written(rt, w, &out)
        }
        None => rt.write_all(b"no\n"),
    }
}

fn written<P: Print>(rt: &P) -> io::Result<()> {
    rt.write_all(b"written again, without needless zeros\n")?;
    decimal_again(rt, b"0.5")?;
    decimal_again(rt, b"-0")?;
    decimal_again(rt, b"-0.0")?;
    decimal_again(rt, b"9999999.9999")?;
    decimal_again(rt, b"-9999999.9999")?;
    decimal_again(rt, b"0012.3400")?;
    decimal_again(rt, b"-5.0")?;
    decimal_again(rt, b"0.0001")?;
    count_again(rt, b"000")?;
    count_again(rt, b"0100")?;
    count_again(rt, b"9999999999")
}

fn write_fixed<P: Print>(rt: &P, n: u64, w: u8) -> io::Result<()> {
    let mut out = [0u8; 8];
    let r = put_fixed(n, w, &mut out);
    show_written(rt, r, &out)
}

fn write_sheet<P: Print>(rt: &P, n: u64, a: u64) -> io::Result<()> {
    let mut out = [0u8; 8];
    let r = put_sheet(n, a, &mut out);
    show_written(rt, r, &out)
}

fn write_scale<P: Print>(rt: &P, p: u64, q: u64) -> io::Result<()> {
    let mut out = [0u8; 16];
    let r = put_ratio(p, q, &mut out);
    show_written(rt, r, &out)
}

fn written_numbers<P: Print>(rt: &P) -> io::Result<()> {
    write_fixed(rt, 5, 3)?;
    write_fixed(rt, 90807, 6)?;
    write_sheet(rt, 1, 4)?;
    write_sheet(rt, 4, 1)?;
    write_sheet(rt, 81, 0)?;
    write_scale(rt, 50, 1)?;
    write_scale(rt, 1, 100)?;
    write_scale(rt, 9999, 99999)
}

fn show_number<P: Print>(rt: &P, word: &[u8], n: u8) -> io::Result<()> {
    show_text(rt, word)?;
    rt.print(n as u64)?;
    rt.write_all(b"\n")
}

fn show_next<P: Print>(rt: &P, next: Next) -> io::Result<()> {
    match next {
        Next::Stay => rt.write_all(b"ignored\n"),
        Next::Entry(row) => show_number(rt, b"entered as row", row),
        Next::Begin(inner) => show_number(rt, b"opens block", inner.block),
        Next::Shut => rt.write_all(b"closes\n"),
        Next::Refuse(n) => show_number(rt, b"refused,", n),
    }
}

// A line of a volume with nothing behind it, in the block of a figure's text with nothing in it yet.
fn in_text<P: Print>(rt: &P, shown: &[u8], line: &[u8]) -> io::Result<()>
    requires { length line.now ≤ 61440 }
{
    let seen = look(line, 0, 0, 1, 1);
    let Some(found) = seen else {
        return Ok(());
    };
    show_text(rt, shown)?;
    let form = found.form;
    let full = [false; 2];
    let symbols = [0u32; 1];
    let layers = [0u32; 1];
    let mut rec = [0i64; 32];
    let next = act(
        16,
        line,
        &symbols[..0],
        &layers[..0],
        Digits { middle: 0, last: 0 },
        &full,
        form,
        0,
        &mut rec,
    );
    show_next(rt, next)
}

fn forms<P: Print>(rt: &P) -> io::Result<()> {
    rt.write_all(b"lines in a text\n")?;
    in_text(rt, b"character=a:{", b"character=a:{\r\n\x1a")?;
    in_text(rt, b"character=:{", b"character=:{\r\n\x1a")?;
    in_text(rt, b"character=", b"character=\r\n\x1a")?;
    in_text(rt, b"type=:{", b"type=:{\r\n\x1a")?;
    in_text(rt, b"type=1307:{", b"type=1307:{\r\n\x1a")
}

fn more_forms<P: Print>(rt: &P) -> io::Result<()> {
    in_text(rt, b"key=:{", b"key=:{\r\n\x1a")?;
    in_text(rt, b"k=x:{:{", b"k=x:{:{\r\n\x1a")?;
    in_text(rt, b"k:{", b"k:{\r\n\x1a")?;
    in_text(rt, b"=5", b"=5\r\n\x1a")?;
    in_text(rt, b"# note", b"# note\r\n\x1a")?;
    in_text(rt, b"}", b"}\r\n\x1a")?;
    in_text(rt, b"EOF", b"EOF\r\n\x1a")
}

fn main(rt: HostRuntime) -> io::Result<()> {
    decimals(&rt)?;
    days(&rt)?;
    counts(&rt)?;
    texts(&rt)?;
    pieces(&rt)?;
    no_pieces(&rt)?;
    sheets(&rt)?;
    large_sheets(&rt)?;
    scales(&rt)?;
    no_scales(&rt)?;
    free_texts(&rt)?;
    longer_texts(&rt)?;
    sets_of_bytes(&rt)?;
    written(&rt)?;
    written_numbers(&rt)?;
    forms(&rt)?;
    more_forms(&rt)
}
