// The types of records.
ghost use Rattle.std.specs.Prelude.{◌≡◌};
ghost use Rattle.records.specs.Records.{mark};

#[derive(Clone, Copy)]
pub enum RecordType {
    Start = 0xF000,
    FirstTable = 0xF100,
    SecondTable = 0xF200,
    Pair = 0xF300,
    Claim = 0xF400,
}

impl RecordType {
    // The upper half of the first word.
    pub fn mark(self) -> u32
        ensures { result ≡ mark self }
    {
        self as u32
    }
}
