// The reading program: reads one file from standard input and prints its counts, its total and every atom's weight, or why there are none
// (crate report).
#![tactic(auto)]

// Their numbers by hand: the gate refuses a crate that lists the kit's libc.
const STDIN_FILENO: i32 = 0;

const STDOUT_FILENO: i32 = 1;

// The kit's `io` and not std's, which cannot do the same: no call of its reader fills lent memory and says how far it came (`read_exact`
// fails on a shorter input, `read_to_end` takes a Vec), and writing to a closed pipe is an error there and does not end the program.
fn main() {
    // One byte more than the largest file, so that a longer input is refused without reading it all.
    let mut file = [0u8; 65537];
    let mut text = [0u8; 16384];
    let got = io::read_full(STDIN_FILENO, &mut file);
    let said = report::report(&file[..got], &mut text);
    io::write_all(STDOUT_FILENO, &text[..said]);
}
