// Why reading refuses a file, by document 02's numbers. Request L3: "Refusals in reading, in this order: 1 .., 10 .., 11 .., 7 .., 12 ..".

ghost use mathlib.Core.Path.{◌≡◌};
ghost use Rattle.verdicts.specs.Refusals.{refusal_number};

#[derive(Clone, Copy)]
pub enum ReadRefusal {
    Sizes = 1,
    Length = 10,
    Places = 11,
    NoRoom = 7,
    Unsound = 12,
}

impl ReadRefusal {
    pub fn number(self) -> u32
        ensures { result ≡ refusal_number self }
    {
        self as u32
    }
}
