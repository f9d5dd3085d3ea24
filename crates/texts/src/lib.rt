// Playing a text on a sheet, line by line. What a line is, and what a step does, is not said here.
#![tactic(auto)]

ghost use Rattle.std.specs.Prelude.{◌≡◌, ◌<◌, ◌≤◌, length, IfOk};
ghost use Rattle.calculus.specs.States.{State};
ghost use Rattle.ledgers.specs.Contents.{ledgers_of};
ghost use Rattle.sheet.specs.States.{state_of};
ghost use Rattle.texts.specs.Playing.{LineDone, TextDone, play_line, play_lines, play_text};
ghost use Rattle.texts.specs.Texts.{TextPlayed};

use fault::{LineFault, TextFault};
use kb::base::Base;
use ledgers::Ledgers;
use lines::read::read_line;
use sheet::Sheet;

pub mod fault;

// Reads and plays the line that begins at a place, and answers the place behind it. Base, ledgers and scratch are no struct's:
// the host lends them in each call.
fn play_line<B: Base>(
    sheet: &mut Sheet,
    base: &B,
    ledgers: &mut Ledgers<'_>,
    scratch: &mut [u16],
    text: &[u8],
    from: usize,
) -> Result<usize, LineFault>
    ensures done { LineDone (play_line (B.meaning base.now) (length scratch.old) text.now from (state_of sheet.old (ledgers_of ledgers.old))) (state_of sheet.old (ledgers_of ledgers.old)) result (state_of sheet.new (ledgers_of ledgers.new)) }
    ensures further { IfOk result (λ end. from < end) }
{
    let read = read_line(text, from)?;
    sheet.play(base, ledgers, scratch, &read.line.step())?;
    Ok(read.end)
}

// Plays the lines of a text one by one, and answers how many there are.
fn play_lines<B: Base>(
    sheet: &mut Sheet,
    base: &B,
    ledgers: &mut Ledgers<'_>,
    scratch: &mut [u16],
    text: &[u8],
) -> Result<usize, TextFault>
    ensures { TextDone (play_lines (B.meaning base.now) (length scratch.old) text.now (length text.now) 0 0 (state_of sheet.old (ledgers_of ledgers.old))) result (state_of sheet.new (ledgers_of ledgers.new)) }
{
    let mut from = 0;
    let mut line = 0;
    // No iterator is plainer: the next line begins where the reading of this one ends, and is played on the sheet that it left.
    while from < text.len() {
        match play_line(sheet, base, ledgers, scratch, text, from) {
            Ok(end) => from = end,
            Err(fault) => return Err(TextFault::Line(line + 1, fault)),
        }
        line += 1;
    }
    Ok(line)
}

/// Plays a text on a sheet, and answers how many lines it has; or refuses a text of more than 32,768 bytes (4), a line that is
/// unreadable (12) or whose step is refused, with the number of the line. The lines before a refused one stay played.
pub fn play_text<B: Base>(
    sheet: &mut Sheet,
    base: &B,
    ledgers: &mut Ledgers<'_>,
    scratch: &mut [u16],
    text: &[u8],
) -> Result<usize, TextFault>
    ensures value { TextDone (play_text (B.meaning base.now) (length scratch.old) text.now (state_of sheet.old (ledgers_of ledgers.old))) result (state_of sheet.new (ledgers_of ledgers.new)) }
    ensures means { TextPlayed (B.meaning base.now) (length scratch.old) text.now (state_of sheet.old (ledgers_of ledgers.old)) result (state_of sheet.new (ledgers_of ledgers.new)) }
{
    if text.len() > 32768 {
        return Err(TextFault::Size);
    }
    play_lines(sheet, base, ledgers, scratch, text)
}
