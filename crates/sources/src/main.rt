// sources: compares sources of every make, piled up, and stored bits with readings bit by bit.
#![tactic(auto)]

mod expected;
mod gets;
mod joined;
mod puts;
mod tally;
mod zeros;

use bits::refusal::Refusal;
use gets::{
    over_join, over_join_of_join, over_numbers, over_window, over_window_of_join, past_end,
};
use joined::get_joined;
use puts::over_puts;
use std::io;
use tally::Tally;
use zeros::over_zeros;

fn main(rt: HostRuntime) -> io::Result<()> {
    let bytes = [
        0xA5, 0x5A, 0x00, 0x00, 0x01, 0xFF, 0x80, 0x7F, 0x3C, 0x00, 0x12, 0xFE,
    ];
    let words = [0xA55A_0000, 0x01FF_807F, 0x3C00_12FE];
    report(
        rt,
        "gets over bytes and words",
        over_numbers(&bytes, &words),
    )?;
    report(rt, "gets over a window", over_window(&bytes))?;
    report(rt, "gets over a join", over_join(&bytes, &words))?;
    report(
        rt,
        "gets over a window of a join",
        over_window_of_join(&bytes, &words),
    )?;
    report(
        rt,
        "gets over a join of a join",
        over_join_of_join(&bytes, &words),
    )?;
    report(rt, "tests for zero bits", over_zeros(&bytes))?;
    report(rt, "stored numbers", Ok(over_puts(&bytes)))?;
    match past_end(&bytes) {
        Ok(n) => println!(rt; "a window past the end has {n} bits")?,
        Err(e) => println!(rt; "a window past the end is refused, {}: {e}", e.number())?,
    }
    match get_joined(&bytes, &bytes, 90, 12) {
        Ok(v) => println!(rt; "a get across two slices: {v:#x}"),
        Err(e) => println!(rt; "a get across two slices was refused: {e}"),
    }
}

// Prints what a comparison found.
fn report(rt: HostRuntime, name: &str, found: Result<Tally, Refusal>) -> io::Result<()> {
    match found {
        Ok(t) => println!(rt; "{name}: {t}"),
        Err(e) => println!(rt; "{name}: refused, since {e}"),
    }
}
