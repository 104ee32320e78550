// The text of a day, from the bytes of its file.
ghost use Rattle.std.specs.Prelude.{◌≡◌, ◌++◌, length, IfOk, OnOk, string_bytes};
ghost use Rattle.machine.specs.Machine.{start, step};
ghost use Rattle.market.specs.Plays.{state_of};
ghost use Rattle.day.specs.Day.{line_rows, outcome_rows, play, end_rows, day_text as day_text_of};

use calendar::Calendar;
use dayfile::print::TapeRow;
use dayfile::read::read;
use dayfile::{Fault, Numbered};
use machine::Line;
use market::Market;
use std::alloc::{AllocError, Global};
use terms::LEAST_ROOM;

fn write_lines(out: &mut String, lines: &[Line]) -> Result<(), AllocError>
    ensures { OnOk result (string_bytes out.new ≡ string_bytes out.old ++ line_rows lines.now) }
{
    for line in lines {
        write!(out, "{}", TapeRow::from(line))?;
    }
    Ok(())
}

// What one call prints: its lines, or its refusal.
fn write_call<C: Calendar>(
    out: &mut String,
    market: &mut Market<C>,
    tape: &mut [Line],
    numbered: Numbered,
) -> Result<(), AllocError>
    requires { length tape.old ≡ 1024 }
    ensures text { OnOk result (string_bytes out.new ≡ string_bytes out.old ++ outcome_rows numbered.line (step (C.Calendar.hours market.old.calendar) 1024 numbered.call (state_of market.old))) }
    ensures state { state_of market.new ≡ (step (C.Calendar.hours market.old.calendar) 1024 numbered.call (state_of market.old)).state }
    ensures calendar { market.new.calendar ≡ market.old.calendar }
{
    match market.apply(numbered.call, tape) {
        Ok(count) => write_lines(out, &tape[0..count]),
        Err(why) => write!(out, "{}", TapeRow::refused(&why, numbered.line)),
    }
}

// Plays the calls on a market, each on what the earlier left.
fn write_calls<C: Calendar>(
    out: &mut String,
    market: &mut Market<C>,
    calls: &[Numbered],
) -> Result<(), AllocError>
    ensures { OnOk result (string_bytes out.new ≡ string_bytes out.old ++ play (C.Calendar.hours market.old.calendar) calls.now (state_of market.old)) }
{
    let mut tape = [Line::BLANK; LEAST_ROOM];
    for numbered in calls {
        write_call(out, market, &mut tape, *numbered)?;
    }
    Ok(())
}

fn write_end(out: &mut String, fault: Option<Fault>) -> Result<(), AllocError>
    ensures { OnOk result (string_bytes out.new ≡ string_bytes out.old ++ end_rows fault) }
{
    match fault {
        Some(fault) => write!(out, "{}", TapeRow::from(&fault)),
        None => Ok(()),
    }
}

// What `day` prints for a file: the names line, the tape with its refusals, and the fault that ends the day, if any.
pub fn day_text<C: Calendar + Drop>(
    heap: Global,
    calendar: C,
    file: &[u8],
) -> Result<String, AllocError>
    ensures { IfOk result (λ t. string_bytes t ≡ day_text_of (C.Calendar.hours calendar) file.now) }
{
    let reading = read(heap, file)?;
    let mut market = Market::new(calendar);
    let mut out = String::from_str(heap, "letter,number,party,side,price,size,moment\n")?;
    write_calls(&mut out, &mut market, reading.calls.as_slice())?;
    write_end(&mut out, reading.fault)?;
    Ok(out)
}
