ghost use Rattle.std.specs.Prelude.{◌≡◌, MatchOption};
ghost use Rattle.outside.specs.{code_row};

/// Why an input is refused, in the order of the numbers.
#[derive(Clone, Copy)]
pub enum Code {
    MissingFile = 1,
    TooLong,
    BadName,
    BadNameLine,
    DuplicatePackage,
    UnsupportedPackage,
    MissingPackage,
    EndOfFile,
    BadNumber,
    TooManyDigits,
    OutOfProfile,
    BadGrid,
    BadControl,
    BadThickness,
    BadProperty,
    CellOutside,
    TooManyEntries,
    NothingToReuse,
    HeadTooLarge,
    BadListing,
    NotAlike = 28,
}

impl Code {
    /// The number that the refusal is printed with: 1 to 20, or 28. Those between are refusals of a step.
    pub fn number(self) -> u8
        ensures { result ≡ (code_row self).number }
    {
        self as u8
    }

    /// The code that has this number, or none where no code has it.
    pub fn of_number(number: u8) -> Option<Code>
        ensures { MatchOption result ((c : Code) → ¬ ((code_row c).number ≡ number)) (λ c. (code_row c).number ≡ number) }
    {
        match number {
            1 => Some(Code::MissingFile),
            2 => Some(Code::TooLong),
            3 => Some(Code::BadName),
            4 => Some(Code::BadNameLine),
            5 => Some(Code::DuplicatePackage),
            6 => Some(Code::UnsupportedPackage),
            7 => Some(Code::MissingPackage),
            8 => Some(Code::EndOfFile),
            9 => Some(Code::BadNumber),
            10 => Some(Code::TooManyDigits),
            11 => Some(Code::OutOfProfile),
            12 => Some(Code::BadGrid),
            13 => Some(Code::BadControl),
            14 => Some(Code::BadThickness),
            15 => Some(Code::BadProperty),
            16 => Some(Code::CellOutside),
            17 => Some(Code::TooManyEntries),
            18 => Some(Code::NothingToReuse),
            19 => Some(Code::HeadTooLarge),
            20 => Some(Code::BadListing),
            28 => Some(Code::NotAlike),
            _ => None,
        }
    }

    /// The word that the refusal is printed with.
    pub fn word(self) -> &'static str
        ensures { result.now ≡ (code_row self).word }
    {
        match self {
            Code::MissingFile => "MissingFile",
            Code::TooLong => "TooLong",
            Code::BadName => "BadName",
            Code::BadNameLine => "BadNameLine",
            Code::DuplicatePackage => "DuplicatePackage",
            Code::UnsupportedPackage => "UnsupportedPackage",
            Code::MissingPackage => "MissingPackage",
            Code::EndOfFile => "EndOfFile",
            Code::BadNumber => "BadNumber",
            Code::TooManyDigits => "TooManyDigits",
            Code::OutOfProfile => "OutOfProfile",
            Code::BadGrid => "BadGrid",
            Code::BadControl => "BadControl",
            Code::BadThickness => "BadThickness",
            Code::BadProperty => "BadProperty",
            Code::CellOutside => "CellOutside",
            Code::TooManyEntries => "TooManyEntries",
            Code::NothingToReuse => "NothingToReuse",
            Code::HeadTooLarge => "HeadTooLarge",
            Code::BadListing => "BadListing",
            Code::NotAlike => "NotAlike",
        }
    }
}
