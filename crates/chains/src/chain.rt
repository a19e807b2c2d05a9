// A chain of rules through the lowest atom that has one, written to the output: its length, then its rules.
ghost use Rattle.chains.specs.Calls.{FindAsked};
ghost use Rattle.chains.specs.Written.{ChainDone};
ghost use Rattle.chains.specs.Searching.{Falls, Counted, RulesAsked, RulesDone};

use crate::Lowest;
use crate::search::Search;
use format::bytes::put_u16;
use format::program::Program;
use index::Rules;

impl Search {
    // How many rules lead to entry k of the queue.
    fn links_to(&self, k: usize) -> usize
        requires { Falls self.now.from k }
        ensures { Counted self.now.from k result }
    {
        let mut n = 0;
        let mut i = k;
        // links and no index
        while 0 < i {
            i = usize::from(self.from[i]);
            n += 1;
        }
        n
    }

    // Writes the rules that lead to entry k of the queue, the last one first, and their number before them.
    fn write(&self, k: usize, out: &mut [u8]) -> usize
        requires { RulesAsked self.now out.old k }
        ensures { RulesDone self.now out.old out.new k result }
    {
        let n = self.links_to(k);
        let mut i = k;
        for at in (0..n).rev() {
            put_u16(out, 2 + 2 * at, self.by[i]);
            i = usize::from(self.from[i]);
        }
        put_u16(out, 0, n as u16);
        n
    }
}

// The chain of a file that has one.
pub fn find(program: Program, out: &mut [u8]) -> Lowest
    requires { FindAsked program.file.now out.old }
    ensures { ChainDone program.entry.file.now out.old out.new result.atom result.count }
{
    let rules = Rules::of(program);
    let mut search = Search {
        queue: [0; 1024],
        from: [0; 1024],
        by: [0; 1024],
        entry: [0; 1024],
        count: 0,
    };
    let atom = search.lowest(program, &rules);
    let last = usize::from(search.entry[2 * (atom - program.facts) + 1]) - 1;
    let count = search.write(last, out);
    Lowest {
        atom: atom as u32,
        count: count as u32,
    }
}
