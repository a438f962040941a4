// What a call of the library answers: what it gives back, or why it is refused.
#![tactic(auto)]

ghost use Rattle.std.specs.Prelude.{◌≡◌};
ghost use Rattle.answers.specs.Answered.{row_of};
ghost use Rattle.answers.specs.declared.LoadError.TheVariants.{Refused};

// Why a call is refused: the rows of the refusal table, each with its number.
#[derive(Clone, Copy)]
pub enum Refusal {
    Spelling = 1,
    Size = 2,
    Sample = 3,
    Position = 4,
    Alleles = 5,
    NonRefAbsent = 6,
    End = 7,
    Counts = 8,
    ClipOrReference = 9,
    Scratch = 10,
    ReferenceLetter = 11,
    RefConflict = 12,
    TooManyAlleles = 13,
    Output = 14,
    Subset = 15,
    Window = 17,
    AskedPlaces = 18,
    Marker = 19,
    MarkerAfter = 20,
}

impl Refusal {
    // Its number in the table.
    pub fn row(self) -> usize
        ensures { result ≡ row_of self }
    {
        self as usize
    }
}

impl From<Refusal> for usize {
    ghost from_gives = { λ refusal row. row ≡ row_of refusal };

    fn from(refusal: Refusal) -> usize {
        refusal.row()
    }
}

// Why a text is not read into tables: a row of the refusal table, or a table that is too short.
#[derive(Clone, Copy)]
pub enum LoadError {
    Refused(Refusal),
    NoRoom,
}

impl From<Refusal> for LoadError {
    ghost from_gives = { λ refusal error. error ≡ Refused refusal };

    fn from(refusal: Refusal) -> LoadError {
        LoadError::Refused(refusal)
    }
}
