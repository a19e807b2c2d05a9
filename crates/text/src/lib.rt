// Text into the output: a writer has the output and the place behind what it has written.
#![tactic(auto)]

ghost use Rattle.std.specs.Prelude.{◌+◌, [], length};
ghost use Rattle.text.specs.Text.{pair_line, refused_text};
ghost use Rattle.text.specs.Writes.{HasRoom, Writes, WritesNamed};

#[derive(Drop)]
pub struct Writer<'a> {
    pub out: &'a mut [u8],
    pub at: usize,
}

// Lines are put part by part and not by `write!`: its contract says what stands in the output where it answers Ok, and nothing says that
// it does, so a text that is always written could not be promised.
impl Writer<'_> {
    pub fn put(&mut self, text: &[u8])
        requires { HasRoom self.old (length text.now) }
        ensures { Writes self.old self.new text.now }
    {
        let end = self.at + text.len();
        self.out[self.at..end].copy_from_slice(text);
        self.at = end;
    }

    pub fn number(&mut self, n: u64)
        requires { HasRoom self.old 20 }
        ensures { WritesNamed self.old self.new [] n }
    {
        let mut digits = [0u8; 20];
        let count = io::decimal(n, &mut digits);
        self.put(&digits[..count]);
    }

    // A word, and a number behind it.
    pub fn named(&mut self, word: &[u8], n: u64)
        requires { HasRoom self.old (length word.now + 20) }
        ensures { WritesNamed self.old self.new word.now n }
    {
        self.put(word);
        self.number(n);
    }

    // A line of two numbers.
    pub fn pair(&mut self, a: u64, b: u64)
        requires { HasRoom self.old 42 }
        ensures { Writes self.old self.new (pair_line a b) }
    {
        self.number(a);
        self.named(b" ", b);
        self.put(b"\n");
    }

    // The line of a refusal.
    pub fn refused(&mut self, number: u32, detail: u32)
        requires { HasRoom self.old 64 }
        ensures { Writes self.old self.new (refused_text number detail) }
    {
        self.named(b"refused ", u64::from(number));
        self.named(b" ", u64::from(detail));
        self.put(b"\n");
    }
}
