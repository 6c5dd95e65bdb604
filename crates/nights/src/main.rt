// Nights: what `play` runs, on files that make it print the lines that its own night does not have: a table that is refused, or too long, or not there;
// a list that is too long, or not there; a move that is none; a tail. Each night stands in data/, its lines in stdout, one night behind the other.
#![tactic(auto)]

use std::io;

fn main(rt: HostRuntime) -> io::Result<()> {
    printing::play_files(&rt, b"refused.bin", b"moves.bin")?;
    printing::play_files(&rt, b"long.bin", b"moves.bin")?;
    printing::play_files(&rt, b"absent.bin", b"moves.bin")?;
    printing::play_files(&rt, b"table.bin", b"long.bin")?;
    printing::play_files(&rt, b"table.bin", b"absent.bin")?;
    printing::play_files(&rt, b"table.bin", b"tail.bin")
}
