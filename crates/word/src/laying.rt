// A lent run that is written word by word, from a place on.
ghost use Rattle.std.specs.Prelude.{◌≡◌, ◌+◌, ◌<◌, length, set};
ghost use Rattle.word.specs.Laid.{laid};

// The run, and the place where the next word is laid. Past the run's end nothing is written, but the place goes on.
// How far it may go is each caller's to say, who knows how much is still to be laid.
#[derive(Drop)]
pub struct Laying<'a, Word> {
    pub run: &'a mut [Word],
    pub at: usize,
}

impl<'a, Word: Copy> Laying<'a, Word> {
    pub fn put(&mut self, word: Word)
        requires { self.old.at < 4294967296 }
        ensures same_run { self.new.run.ghost_name ≡ self.old.run.ghost_name }
        ensures words { self.new.run.now ≡ set self.old.run.now self.old.at word }
        ensures place { self.new.at ≡ self.old.at + 1 }
    {
        if self.at < self.run.len() {
            self.run[self.at] = word;
        }
        self.at += 1;
    }

    pub fn put_all(&mut self, words: &[Word])
        requires { self.old.at + length words.now < 4294967296 }
        ensures same_run { self.new.run.ghost_name ≡ self.old.run.ghost_name }
        ensures words { self.new.run.now ≡ laid words.now self.old.at self.old.run.now }
        ensures place { self.new.at ≡ self.old.at + length words.now }
    {
        for word in words {
            self.put(*word);
        }
    }
}
