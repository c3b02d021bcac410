//! Why a file is refused.

ghost use Rattle.std.specs.Prelude.{◌≡◌};
ghost use Rattle.wh_csv.specs.declared.fault.CsvFault.TheVariants.{NoMemory as out_of_memory};
ghost use Rattle.wh_csv.specs.Words.{cause_words};

use wh_base::NoMemory;

/// A rule that a record breaks.
#[derive(Clone, Copy, Debug, PartialEq, Eq)]
pub enum CsvCause {
    Header,
    Width,
    NotUtf8,
    BadInt,
    TextTooLong,
    UnknownRelation,
    BadSign,
    TooManyRecords,
}

/// The first bad record, numbered from 1, and the first rule that it breaks.
#[derive(Clone, Copy, Debug, PartialEq, Eq)]
pub enum CsvFault {
    At { at: u64, cause: CsvCause },
    NoMemory,
}

impl CsvCause {
    /// The words that name the cause.
    pub fn words(self) -> &'static str
        ensures { result.now ≡ cause_words self }
    {
        match self {
            CsvCause::Header => "header",
            CsvCause::Width => "wrong width",
            CsvCause::NotUtf8 => "not UTF-8",
            CsvCause::BadInt => "bad integer",
            CsvCause::TextTooLong => "text too long",
            CsvCause::UnknownRelation => "unknown relation",
            CsvCause::BadSign => "bad sign",
            CsvCause::TooManyRecords => "records",
        }
    }
}

impl From<NoMemory> for CsvFault {
    ghost from_gives = { λ _ e. e ≡ out_of_memory };

    fn from(_error: NoMemory) -> CsvFault {
        CsvFault::NoMemory
    }
}
