// Where the list stands.

// The first byte of the line that is being read, once it was read; from where to where the text stands that the next lines must have, how much
// of the case's script is kept, and whether the case has differed; how many cases have ended, and how many of them differed.
#[derive(Clone, Copy)]
pub struct Stand {
    pub kind: Option<u8>,
    pub from: usize,
    pub end: usize,
    pub kept: usize,
    pub differs: bool,
    pub cases: u64,
    pub differing: u64,
}

impl Stand {
    pub fn new() -> Self {
        Stand {
            kind: None,
            from: 0,
            end: 0,
            kept: 0,
            differs: false,
            cases: 0,
            differing: 0,
        }
    }

    // With the first byte of a line, which no NUL is.
    pub fn begun(&mut self, b: u8) {
        if b != 0 {
            self.kind = Some(b);
        }
    }

    // Whether the case has differed, or has printed more than the list has.
    pub fn differs(&self) -> bool {
        self.differs || self.from != self.end
    }

    // With a text up to here to be held against the list.
    pub fn printed(&mut self, end: usize) {
        self.differs = self.differs();
        self.from = 0;
        self.end = end;
    }

    // At the end of a case: nothing of it is left.
    pub fn ended(&mut self) {
        if self.differs() {
            self.differing = self.differing.saturating_add(1);
        }
        self.cases = self.cases.saturating_add(1);
        self.from = 0;
        self.end = 0;
        self.kept = 0;
        self.differs = false;
    }
}
