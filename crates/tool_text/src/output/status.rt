//! How a job ended, and the status of the program.
ghost use Rattle.std.specs.Prelude.{◌≡◌, ◌≢◌, if◌then◌else◌};
ghost use Rattle.tool_text.specs.Ends.{status_of};

/// How a job of the tool ended (own).
#[derive(Clone, Copy)]
pub enum JobEnd {
    /// The whole job was done; an input that it has was read to its end.
    Done,
    /// The input is refused at the place that the last line written states.
    Input,
    /// The source failed.
    Read,
    /// The sink failed, or took no byte of a piece that was not empty.
    Write,
    /// No memory was left.
    Memory,
}

impl JobEnd {
    /// The status of a program whose job ended in this way (own).
    pub fn status(self) -> Status
        ensures value { result ≡ status_of self }
        ensures not_words { result ≢ Status.Words }
    {
        match self {
            JobEnd::Done => Status::Done,
            JobEnd::Input => Status::Input,
            JobEnd::Read => Status::Read,
            JobEnd::Write => Status::Write,
            JobEnd::Memory => Status::Memory,
        }
    }
}

/// How a program ends (own): as the job that its words ask for, or with Words if they ask for none.
#[derive(Clone, Copy, PartialEq, Eq)]
pub enum Status {
    /// The whole job was done; an input that it has was read to its end.
    Done,
    /// The input is refused at the place that the last line written states.
    Input,
    /// The words are none of the forms.
    Words,
    /// The source failed.
    Read,
    /// The sink failed, or took no byte of a piece that was not empty.
    Write,
    /// No memory was left.
    Memory,
}

impl Status {
    /// The program's exit status, 0 to 5 (own).
    pub fn number(self) -> u8
        ensures done { self ≡ Status.Done → result ≡ 0 }
        ensures input { self ≡ Status.Input → result ≡ 1 }
        ensures words { self ≡ Status.Words → result ≡ 2 }
        ensures read { self ≡ Status.Read → result ≡ 3 }
        ensures write { self ≡ Status.Write → result ≡ 4 }
        ensures memory { self ≡ Status.Memory → result ≡ 5 }
    {
        match self {
            Status::Done => 0,
            Status::Input => 1,
            Status::Words => 2,
            Status::Read => 3,
            Status::Write => 4,
            Status::Memory => 5,
        }
    }
}

/// How a job ended that wrote all that there is to write (own): Input if its input was refused, and Done otherwise.
pub fn answered(refused: bool) -> JobEnd
    ensures { result ≡ (if refused then JobEnd.Input else JobEnd.Done) }
{
    if refused { JobEnd::Input } else { JobEnd::Done }
}
