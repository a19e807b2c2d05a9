// Reads jobs from standard input, loads each job's file into a store of N places, does its calls one after another, and prints what each
// answered and what the store then holds.
//
// A job: N (2 bytes), the number of calls (2 bytes), the file's length (4 bytes), the calls, the file. A call: what (1 byte: 0 run,
// 1 update, else close) and its budget or atom (4 bytes).
#![tactic(auto)]

mod show;

ghost use Rattle.std.specs.Prelude.{◌≡◌, length};
ghost use Rattle.state.specs.Answers.{LoadAsked};
ghost use Rattle.runs.specs.Ready.{Ready};

use format::bytes::{u16_at, u32_at};
use format::program::Program;
use state::layers::layer_of;
use state::{How, State, Unclosed};
use store::Full;

const STDIN_FILENO: i32 = 0;

// A run with its budget, an update of an atom, or closing.
#[derive(Clone, Copy)]
enum Call {
    Run(u64),
    Update(usize),
    Close,
}

impl Call {
    fn of(bytes: &[u8]) -> Call
        requires { length bytes.now ≡ 5 }
    {
        let value = u32_at(bytes, 1);
        match bytes[0] {
            0 => Call::Run(value as u64),
            1 => Call::Update(value),
            _ => Call::Close,
        }
    }
}

// Prints a state behind the word, and gives it on.
fn told(word: &[u8], state: State) -> State
    ensures { result ≡ state }
{
    show::text(word);
    show::numbers(&[state.layer, state.nodes]);
    state
}

// What goes from call to call: the program, the lent words and places, and the state.
#[derive(Drop)]
struct Session<'a> {
    program: Program<'a>,
    nodes: &'a mut [u32],
    places: &'a mut [u16],
    state: State,
}

impl Session<'_> {
    fn run(&mut self, budget: u64)
        requires { Ready self.old }
        ensures ready { Ready self.new }
        ensures program { self.new.program ≡ self.old.program }
    {
        let ran = engine::run(self.program, self.nodes, self.places, self.state, budget);
        show::text(match ran.how {
            How::Finished => b"finished ",
            How::Spent => b"spent ",
            How::Full => b"full ",
        });
        show::number(ran.updates);
        self.state = told(b" ", ran.state);
    }

    // An update with its refusals: they are only printed, and the enum that has their numbers is above the engine, in crate calls.
    fn update(&mut self, atom: usize)
        requires { Ready self.old }
        ensures ready { Ready self.new }
        ensures program { self.new.program ≡ self.old.program }
    {
        let program = self.program;
        if program.atoms() <= atom {
            return show::text(b"refused 13 0\n");
        }
        if atom < program.facts || layer_of(program, atom) != self.state.layer {
            return show::text(b"refused 14 0\n");
        }
        match engine::update(program, self.nodes, self.places, self.state, atom) {
            Ok(next) => self.state = told(b"updated ", next),
            Err(Full) => show::text(b"refused 12 0\n"),
        }
    }

    // Closing with its refusals.
    fn close(&mut self)
        requires { Ready self.old }
        ensures ready { Ready self.new }
        ensures program { self.new.program ≡ self.old.program }
        ensures places { self.new.places.now ≡ self.old.places.now }
    {
        if self.state.layer == 65535 {
            return show::text(b"refused 16 0\n");
        }
        // Taken first: a field behind `self` is not yet covered as a `&` beside another that is lent as `&mut`.
        let places = &mut *self.places;
        match engine::close(self.program, self.nodes, places, self.state) {
            Ok(next) => self.state = told(b"closed ", next),
            Err(Unclosed::Unsettled(atom)) => {
                show::text(b"refused 15 ");
                show::numbers(&[atom]);
            }
            Err(Unclosed::Full) => show::text(b"refused 12 0\n"),
        }
    }

    fn call(&mut self, call: Call)
        requires { Ready self.old }
        ensures ready { Ready self.new }
        ensures program { self.new.program ≡ self.old.program }
    {
        match call {
            Call::Run(budget) => self.run(budget),
            Call::Update(atom) => self.update(atom),
            Call::Close => self.close(),
        }
    }

    // The nodes, the atoms' places, and how many words and places besides are not 0.
    fn print(&self)
        requires { Ready self.now }
    {
        let (nodes, words) = self.nodes.split_at(self.state.nodes as usize);
        let (places, others) = self.places.split_at(self.program.atoms());
        show::nodes(nodes);
        show::numbers(places);
        let rest = words.iter().filter(|&&word| word != 0).count()
            + others.iter().filter(|&&place| place != 0).count();
        show::text(b"rest ");
        show::numbers(&[rest as u64]);
    }
}

// Loads the file and does the calls one after another.
fn run_in(file: &[u8], nodes: &mut [u32], places: &mut [u16], calls: &[u8])
    requires { LoadAsked file.now nodes.old places.old }
{
    let program = Program::of(file);
    match engine::load(program, nodes, places) {
        Ok(state) => {
            let mut session = Session {
                program,
                nodes,
                places,
                state: told(b"loaded ", state),
            };
            for call in calls.chunks_exact(5) {
                session.call(Call::of(call));
            }
            session.print();
        }
        Err(Full) => show::text(b"full\n"),
    }
}

fn run_job(file: &[u8], calls: &[u8], size: usize) {
    match format::validate::check(file) {
        Ok(_) => {
            let mut nodes = [u32::MAX; 4096];
            let mut places = [u16::MAX; 544];
            run_in(file, &mut nodes[..size.min(4096)], &mut places, calls);
        }
        Err(why) => {
            show::text(b"refused ");
            show::numbers(&[why.number(), why.detail()]);
        }
    }
}

fn run_all(input: &[u8]) {
    let mut rest = input;
    while 8 <= rest.len() {
        let size = u16_at(rest, 0);
        let count = 5 * u16_at(rest, 2);
        let len = u32_at(rest, 4);
        let (_, jobs) = rest.split_at(8);
        if jobs.len() < count {
            return;
        }
        let (calls, files) = jobs.split_at(count);
        if files.len() < len {
            return;
        }
        let (file, others) = files.split_at(len);
        run_job(file, calls, size);
        rest = others;
    }
}

// Room for the input, 1 MiB. A function of its own, so that the proof of `main` does not compute the array.
fn buffer() -> [u8; 1048576] {
    [0; 1048576]
}

fn main() {
    let mut input = buffer();
    let got = io::read_full(STDIN_FILENO, &mut input);
    run_all(&input[..got]);
}
