// Printing of words, numbers and nodes. The program runs has the same lines: no contract can say what is printed, so that one crate for
// both would be public functions that promise nothing.
use store::word;

const STDOUT_FILENO: i32 = 1;

pub(crate) fn text(words: &[u8]) {
    io::write_all(STDOUT_FILENO, words);
}

pub(crate) fn number(n: impl Into<u64>) {
    io::print_decimal(STDOUT_FILENO, n.into());
}

// A line of items, each shown by a call, with a blank between any two.
fn line<T: Copy, F: Fn(T)>(items: &[T], show: F)
    requires { F.IsAlwaysCallable show }
{
    for (i, &item) in items.iter().enumerate() {
        if 0 < i {
            text(b" ");
        }
        show(item);
    }
    text(b"\n");
}

// A node's fact, and the numbers of its sides.
fn node(word: u32) {
    let node = word::unpack(word);
    number(node.fact);
    text(b"/");
    number(node.low);
    text(b"/");
    number(node.high);
}

// A line of the nodes that these words stand for.
pub(crate) fn nodes(words: &[u32]) {
    line(words, node);
}

// A line of numbers.
pub(crate) fn numbers<N: Copy + Into<u64>>(ns: &[N]) {
    line(ns, number);
}
