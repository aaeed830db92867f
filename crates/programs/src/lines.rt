// Lines of words and numbers, parted by tabs.
ghost use Rattle.programs.specs.Lines.{field, fields, line, rows, refused_line};
ghost use Rattle.programs.specs.Output.{Gathers};

use crate::Writer;
use records::Refusal;

impl Writer<'_> {
    // A tab and a number.
    pub fn field(&mut self, n: u64)
        ensures { Gathers (field n) self.old self.new }
    {
        self.byte(b'\t');
        self.number(n);
    }

    // Numbers, each behind a tab. By hand, as all of a line: the contracts say which bytes are gathered.
    pub fn fields(&mut self, numbers: &[u64])
        ensures { Gathers (fields numbers.now) self.old self.new }
    {
        for n in numbers {
            self.field(*n);
        }
    }

    // A line: a word, and numbers behind it.
    pub fn line(&mut self, word: &[u8], numbers: &[u64])
        ensures { Gathers (line word.now numbers.now) self.old self.new }
    {
        self.text(word);
        self.fields(numbers);
        self.byte(b'\n');
    }

    // Records' words: lines of `width` numbers, parted by tabs.
    pub fn rows(&mut self, words: &[u32], width: usize)
        ensures { Gathers (rows width 0 words.now) self.old self.new }
    {
        let mut column = 0;
        for word in words {
            self.number(u64::from(*word));
            column += 1;
            if column == width {
                column = 0;
                self.byte(b'\n')
            } else {
                self.byte(b'\t')
            }
        }
    }

    // The one line of a program that refuses its input.
    #[tactic(auto, unfolding(crate::specs::Lines::refused_line))]
    pub fn refused(&mut self, why: Refusal)
        ensures { Gathers (refused_line why) self.old self.new }
    {
        self.line(b"refused", &[u64::from(why)]);
    }
}
