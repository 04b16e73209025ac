// The lines of a file, one after the other, and how a line is spelled.
ghost use Rattle.std.specs.Prelude.{◌≡◌, ◌≤◌, take, option_map};
ghost use Rattle.fund.specs.Spelling.{spelled};
ghost use Rattle.lines.specs.Lines.{line_of, Taken};

// A line's bytes without its line feed, where they start, and whether the line feed is there.
#[derive(Clone, Copy)]
pub(crate) struct Line<'a> {
    pub(crate) start: usize,
    pub(crate) text: &'a [u8],
    pub(crate) ended: bool,
}

// Keeps the file's bytes and the position of the next line.
#[derive(Drop)]
pub(crate) struct LineReader<'a> {
    pub(crate) file: &'a [u8],
    pub(crate) at: usize,
}

impl<'a> LineReader<'a> {
    // The next line, where bytes are left.
    pub(crate) fn next_line(&mut self) -> Option<Line<'a>>
        ensures line { Taken self.old.file.now self.old.at (option_map line_of result) self.new.at }
        ensures file { self.new.file ≡ self.old.file }
    {
        let file = self.file;
        let start = self.at;
        if file.len() <= start {
            return None;
        }
        let end = spelling::find(file, b'\n', start);
        let ended = end < file.len();
        self.at = if ended { end + 1 } else { end };
        Some(Line {
            start,
            text: &file[start..end],
            ended,
        })
    }
}

impl<'a> Line<'a> {
    // The numbers of a line `key=..`, where there are just `count`. "A last line without its line feed is form."
    pub(crate) fn spelled(self, key: &[u8], count: usize) -> Option<[u64; 5]>
        requires { count ≤ 5 }
        ensures { option_map (take count) result ≡ spelled key.now count (line_of self.entry) }
    {
        if self.ended && spelling::begins(self.text, key) {
            return spelling::numbers_of(&self.text[key.len()..], count);
        }
        None
    }
}
