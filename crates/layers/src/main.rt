// Reads one file from standard input and prints the smallest layer of every derived atom, or why there are none (crate layers_text).
#![tactic(auto)]

const STDIN_FILENO: i32 = 0;

const STDOUT_FILENO: i32 = 1;

// The kit's `io` for the reasons in crate weigh. The two programs differ in one call; a function for both would be no shorter.
fn main() {
    // One byte more than the largest file, so that a longer input is refused without reading it all.
    let mut file = [0u8; 65537];
    let mut text = [0u8; 16384];
    let got = io::read_full(STDIN_FILENO, &mut file);
    let said = layers_text::text(&file[..got], &mut text);
    io::write_all(STDOUT_FILENO, &text[..said]);
}
