// Play: the night of table.bin and moves.bin in the working directory.
#![tactic(auto)]

use std::io;

fn main(rt: HostRuntime) -> io::Result<()> {
    printing::play_files(&rt, b"table.bin", b"moves.bin")
}
