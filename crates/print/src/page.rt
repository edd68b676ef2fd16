// A page: a lent buffer, and how far it is written. Words and numbers are written on it, one behind the other.
ghost use Rattle.std.specs.Prelude.{◌≡◌};
ghost use Rattle.answer.specs.Outcome.{number};
ghost use Rattle.print.specs.Inner.{Room, Writes};
ghost use Rattle.print.specs.Lines.{spaced, spaced_all, label, pair_line, refused_line, secret_line};

// A lent buffer, and how many bytes at its front are written.
#[derive(Drop)]
pub struct Page<'a> {
    pub out: &'a mut [u8],
    pub at: usize,
}

impl<'a> Page<'a> {
    // A page with nothing written on it.
    pub fn new(out: &'a mut [u8]) -> Page<'a>
        ensures same_buffer { result.out.ghost_name ≡ out.entry.ghost_name }
        ensures bytes { result.out.now ≡ out.old }
        ensures front { result.at ≡ 0 }
    {
        Page { out, at: 0 }
    }

    // Writes these bytes.
    pub fn write_bytes(&mut self, bytes: &[u8])
        requires { Room bytes.now self.old }
        ensures same_buffer { self.new.out.ghost_name ≡ self.old.out.ghost_name }
        ensures written { Writes bytes.now self.old self.new }
    {
        let end = self.at + bytes.len();
        self.out[self.at..end].copy_from_slice(bytes);
        self.at = end;
    }

    // Writes a space and n in decimal.
    pub fn write_number(&mut self, n: usize)
        requires { Room (spaced n) self.old }
        ensures same_buffer { self.new.out.ghost_name ≡ self.old.out.ghost_name }
        ensures written { Writes (spaced n) self.old self.new }
    {
        self.write_bytes(b" ");
        self.write_bytes(itoa::Buffer::new().format(n).as_bytes());
    }

    // Writes numbers in decimal, one space in front of each.
    pub fn write_words(&mut self, words: &[u16])
        requires { Room (spaced_all words.now) self.old }
        ensures same_buffer { self.new.out.ghost_name ≡ self.old.out.ghost_name }
        ensures written { Writes (spaced_all words.now) self.old self.new }
    {
        for &word in words {
            self.write_number(usize::from(word));
        }
    }

    // Writes a word, a number, and how the line goes on.
    pub fn write_label(&mut self, word: &[u8], n: usize, more: &[u8])
        requires { Room (label word.now n more.now) self.old }
        ensures same_buffer { self.new.out.ghost_name ≡ self.old.out.ghost_name }
        ensures written { Writes (label word.now n more.now) self.old self.new }
    {
        self.write_bytes(word);
        self.write_number(n);
        self.write_bytes(more);
    }

    // Writes a line of two words, each with its number.
    pub fn write_pair(&mut self, word: &[u8], n: usize, more: &[u8], m: usize)
        requires { Room (pair_line word.now n more.now m) self.old }
        ensures same_buffer { self.new.out.ghost_name ≡ self.old.out.ghost_name }
        ensures written { Writes (pair_line word.now n more.now m) self.old self.new }
    {
        self.write_label(word, n, more);
        self.write_number(m);
        self.write_bytes(b"\n");
    }

    // Writes the line of a refusal.
    pub fn write_refusal(&mut self, refusal: answer::Refusal)
        requires { Room (refused_line (number refusal.kind) refusal.a refusal.b) self.old }
        ensures same_buffer { self.new.out.ghost_name ≡ self.old.out.ghost_name }
        ensures written { Writes (refused_line (number refusal.kind) refusal.a refusal.b) self.old self.new }
    {
        self.write_bytes(b"refused");
        self.write_number(usize::from(refusal.kind));
        self.write_number(refusal.a);
        self.write_number(refusal.b);
        self.write_bytes(b"\n");
    }

    // Writes the line of a secret.
    pub fn write_secret(&mut self, words: &[u16])
        requires { Room (secret_line words.now) self.old }
        ensures same_buffer { self.new.out.ghost_name ≡ self.old.out.ghost_name }
        ensures written { Writes (secret_line words.now) self.old self.new }
    {
        self.write_bytes(b"secret");
        self.write_words(words);
        self.write_bytes(b"\n");
    }
}
