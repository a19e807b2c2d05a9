// Reads scripts of builds from standard input, runs each from an empty store, and prints the results and the nodes.
//
// A script: the store's size (2 bytes), the number of instructions (2 bytes), then the instructions (crate script).
#![tactic(auto)]

mod show;

ghost use Rattle.std.specs.Prelude.{◌≤◌, length};

use format::bytes::u16_at;
use script::How;

const STDIN_FILENO: i32 = 0;

// Runs a script over a store of nodes.len() places, and prints how it ended.
fn run_in(nodes: &mut [u32], results: &mut [u32], script: &[u8])
    requires { (length nodes.old ≤ 4096) × (length results.old ≤ 65536) }
{
    let end = script::run(nodes, results, script);
    show::text(match end.how {
        How::Done => b"done ",
        How::Bad => b"bad ",
        How::Full => b"full ",
    });
    show::numbers(&[end.results, end.nodes]);
    show::numbers(&results[..end.results as usize]);
    show::nodes(&nodes[..end.nodes as usize]);
}

fn run_one(script: &[u8], size: usize) {
    let mut nodes = [0; 4096];
    let mut results = [0; 1024];
    run_in(&mut nodes[..size.min(4096)], &mut results, script);
}

fn run_all(input: &[u8]) {
    let mut rest = input;
    while 4 <= rest.len() {
        let size = u16_at(rest, 0);
        let len = 5 * u16_at(rest, 2);
        let (_, scripts) = rest.split_at(4);
        if scripts.len() < len {
            return;
        }
        let (script, others) = scripts.split_at(len);
        run_one(script, size);
        rest = others;
    }
}

fn main() {
    let mut input = io::large_buffer();
    let got = io::read_full(STDIN_FILENO, &mut input);
    run_all(&input[..got]);
}
